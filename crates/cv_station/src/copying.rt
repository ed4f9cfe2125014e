//! Copies of frames.

ghost use Rattle.std.specs.Prelude.{◌≡◌, IfOk};

use cv_protocol::{Body, Frame};
use cv_token::OutOfMemory;
use sqlite_items::Boxed;
use std::alloc::Global;

/// A copy of what a frame says.
fn copy_body(alloc: Global, body: &Body) -> Result<Body, OutOfMemory>
    ensures { IfOk result (λ copy. copy ≡ body.now) }
{
    Ok(match body {
        Body::Token {
            conn,
            actor,
            n,
            token,
        } => Body::Token {
            conn: *conn,
            actor: *actor,
            n: *n,
            token: token.copy(alloc)?,
        },
        Body::Ack { conn, actor, upto } => Body::Ack {
            conn: *conn,
            actor: *actor,
            upto: *upto,
        },
        Body::Nack { conn, actor, upto } => Body::Nack {
            conn: *conn,
            actor: *actor,
            upto: *upto,
        },
        Body::Transfer {
            actor,
            attempt,
            state,
        } => Body::Transfer {
            actor: *actor,
            attempt: *attempt,
            state: Boxed::new(alloc, state.get().copy(alloc)?)?,
        },
        Body::Verdict {
            actor,
            attempt,
            verdict,
        } => Body::Verdict {
            actor: *actor,
            attempt: *attempt,
            verdict: *verdict,
        },
        Body::Cancel { actor, attempt } => Body::Cancel {
            actor: *actor,
            attempt: *attempt,
        },
        Body::Located {
            actor,
            attempt,
            node,
        } => Body::Located {
            actor: *actor,
            attempt: *attempt,
            node: *node,
        },
        Body::Destroy { app } => Body::Destroy { app: *app },
    })
}

/// A copy of a frame, for one that comes twice.
pub fn copy_frame(alloc: Global, frame: &Frame) -> Result<Frame, OutOfMemory>
    ensures { IfOk result (λ copy. copy ≡ frame.now) }
{
    let body = copy_body(alloc, &frame.body)?;
    Ok(Frame {
        from: frame.from,
        to: frame.to,
        stamp: frame.stamp,
        body,
    })
}
