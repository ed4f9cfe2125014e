//! What holds of every connection, whatever its link does.

ghost use Rattle.cv_endpoint.specs.Link.{Always, IsReceivedInOrder, IsAckedReceived, IsHeldUntilAcked, IsHeldUntilTaken};

/// Whatever the link loses, repeats or reorders, what the consumer received begins what its producer
/// wrote: each token once, in order. The calls at both ports are those of this crate and of the ports.
pub fn received_in_order()
    ensures { Always IsReceivedInOrder }
{}

/// Whatever the link does, the producer counts no token as acknowledged that the consumer did not
/// receive.
pub fn acknowledged_is_received()
    ensures { Always IsAckedReceived }
{}

/// Whatever the link does, a written token is held at the producer until its reader has acknowledged
/// it, and a received one at the consumer until it is taken.
pub fn held_until_done()
    ensures producer { Always IsHeldUntilAcked }
    ensures consumer { Always IsHeldUntilTaken }
{}
