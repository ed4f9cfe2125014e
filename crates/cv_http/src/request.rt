//! `Request`: one request of a stream.

use cv_token::Text;
use http::Method;
use sqlite_items::Items;

/// The bytes of a body. Contracts see them as their list.
pub type Body = Items<u8>;

/// One request of a stream.
#[derive(Drop)]
pub struct Request {
    pub method: Method,
    /// The target as it was sent.
    pub path: Text,
    pub body: Body,
    /// The connection is to be closed behind the response.
    pub close: bool,
}
