//! The ends of a connection that are here.

ghost use Rattle.std.specs.Prelude.{◌≡◌};
ghost use Rattle.std.specs.Option.{option_map};
ghost use Rattle.std.specs.FinMap as map;
ghost use Rattle.cv_protocol.specs.NodeRow.{spot_left};
ghost use Rattle.cv_protocol.specs.Rows.{outlet as living_outlet};
ghost use Rattle.cv_state.specs.Outlets.{gone, outlet_in};

use crate::state::State;
use cv_actor::{Spot, reader_among};
use cv_protocol::StepRefusal;
use cv_queue::Reader;
use cv_token::{ActorId, ConnId};

/// A producer that lives here, and where it keeps a reader.
#[derive(Clone, Copy)]
pub(crate) struct Outlet {
    pub(crate) producer: ActorId,
    pub(crate) spot: Spot,
}

impl State {
    /// The connection's producer, where it lives here.
    pub(crate) fn outlet(&self, conn: ConnId) -> Option<Outlet>
        ensures { result ≡ option_map outlet_in (living_outlet self.now conn) }
    {
        let producer = self.known.producer(conn)?;
        let spot = self.live.get(producer)?.spot(conn)?;
        Some(Outlet { producer, spot })
    }

    /// The reader of the connection at its producer, where that is frozen here.
    pub(crate) fn reader_left(&self, conn: ConnId) -> Option<Reader>
        ensures { result ≡ option_map (λ s. s.reader) (spot_left self.now conn (map.get self.now.known.producers conn)) }
    {
        let producer = self.known.producer(conn)?;
        let copy = self.moves.frozen(producer)?;
        reader_among(conn, copy.state.get().outs())
    }

    /// Why a connection has no producer that lives here: its producer is frozen here, or is not here.
    pub(crate) fn no_outlet(&self, conn: ConnId) -> StepRefusal
        ensures { result ≡ gone (spot_left self.now conn (map.get self.now.known.producers conn)) }
    {
        if self.reader_left(conn).is_some() {
            StepRefusal::Moving
        } else {
            StepRefusal::NotHere
        }
    }
}
