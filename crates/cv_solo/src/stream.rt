//! What went over a connection.

use cv_token::Items;

/// All that was ever written to a connection, and how many of these tokens were taken.
#[derive(Drop)]
pub struct Stream {
    pub wrote: Items,
    pub took: u64,
}
