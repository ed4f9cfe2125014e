//! `Rewinding`: each producer's connections to an actor are to be sent again.

use crate::live::Live;
use cv_table::Change;
use cv_token::ActorId;

/// What was sent to this actor and not acknowledged is to be sent again.
#[derive(Drop)]
pub struct Rewinding {
    pub actor: ActorId,
}

impl Change<Live> for Rewinding {
    ghost use Rattle.cv_protocol.specs.NodeState.{rewound_towards};

    ghost changed = { λ c l. rewound_towards c.actor l };

    fn change(&self, live: &mut Live) {
        live.rewind_towards(self.actor);
    }
}
