//! What a node makes of acknowledgements and refusals of tokens.

ghost use Rattle.std.specs.FinMap as map;
ghost use Rattle.cv_protocol.specs.declared.event.Sent.TheVariants as sent;
ghost use Rattle.cv_protocol.specs.Deliveries.{ack_comes, nack_comes};
ghost use Rattle.cv_state.specs.Steps.{Does};

use crate::state::State;
use cv_endpoint::{on_ack, on_nack};
use cv_token::{ActorId, ConnId};

impl State {
    /// The acknowledgement counts where the producer lives here with that reader; else nothing changes.
    pub fn take_ack(&mut self, conn: ConnId, actor: ActorId, upto: u64)
        ensures { Does (ack_comes self.old conn actor upto (map.get self.old.live actor)) self.new sent.Nothing }
    {
        let Some(live) = self.live.get(actor) else {
            return;
        };
        let Some(spot) = live.spot(conn) else { return };
        let Some(live) = self.live.get_mut(actor) else {
            unreachable!()
        };
        let Some(port) = live.out_mut(spot.out) else {
            unreachable!()
        };
        on_ack(port, spot.number, upto);
    }

    /// The refusal counts where the producer lives here with that reader; else nothing changes.
    pub fn take_nack(&mut self, conn: ConnId, actor: ActorId, upto: u64)
        ensures { Does (nack_comes self.old conn actor upto (map.get self.old.live actor)) self.new sent.Nothing }
    {
        let Some(live) = self.live.get(actor) else {
            return;
        };
        let Some(spot) = live.spot(conn) else { return };
        let Some(live) = self.live.get_mut(actor) else {
            unreachable!()
        };
        let Some(port) = live.out_mut(spot.out) else {
            unreachable!()
        };
        on_nack(port, spot.number, upto);
    }
}
