//! `NetFault`: why bytes are read as no network.

use std::alloc::AllocError;

/// Why bytes are read as no network.
#[derive(Clone, Copy, Debug, PartialEq, Eq)]
pub enum NetFault {
    /// They are the text of no network.
    BadNetwork,
    /// Memory was wanting.
    OutOfMemory,
}

impl From<AllocError> for NetFault {
    ghost use Rattle.std.specs.Prelude.{◌≡◌};
    ghost use Rattle.cv_network.specs.declared.fault.NetFault.TheVariants.{OutOfMemory};

    ghost from_gives = { λ _ e. e ≡ OutOfMemory };

    fn from(_refused: AllocError) -> NetFault {
        NetFault::OutOfMemory
    }
}
