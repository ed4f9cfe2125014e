//! The identifiers that the control interface shows.

ghost use Rattle.std.specs.Prelude.{◌≡◌, IfOk};
ghost use Rattle.cv_token.specs.Naming.{identifier_of, node_name, app_name, actor_name};

use crate::identifiers::{ActorId, AppId};
use crate::token::OutOfMemory;
use crate::utf8::Text;
use std::alloc::Global;
use uuid::Uuid;

/// The version 5 identifier of a name in the nil namespace, hyphenated and in lower case.
fn identifier(alloc: Global, name: &str) -> Result<Text, OutOfMemory>
    ensures { IfOk result (λ t. t ≡ identifier_of name.now) }
{
    let id = Uuid::new_v5(&Uuid::nil(), name.as_bytes());
    let mut buffer = [0u8; 36];
    let text = id.hyphenated().encode_lower(&mut buffer);
    Ok(Text::from_string(String::from_str(alloc, text)?))
}

/// The identifier of a node: that of the name `node/NO`.
pub fn node_id(alloc: Global, no: u16) -> Result<Text, OutOfMemory>
    ensures { IfOk result (λ t. t ≡ identifier_of (node_name no)) }
{
    let name = format!(in alloc; "node/{no}")?;
    identifier(alloc, name.as_str())
}

/// The identifier of an application: that of the name `app/NODE/SEQ`.
pub fn app_id(alloc: Global, app: AppId) -> Result<Text, OutOfMemory>
    ensures { IfOk result (λ t. t ≡ identifier_of (app_name app)) }
{
    let name = format!(in alloc; "app/{}/{}", app.node, app.seq)?;
    identifier(alloc, name.as_str())
}

/// The identifier of an actor: that of the name `actor/NODE/SEQ/ACTOR`.
pub fn actor_id(alloc: Global, actor: ActorId) -> Result<Text, OutOfMemory>
    ensures { IfOk result (λ t. t ≡ identifier_of (actor_name actor)) }
{
    let name = format!(in alloc;
        "actor/{}/{}/{}",
        actor.app.node, actor.app.seq, actor.actor
    )?;
    identifier(alloc, name.as_str())
}
