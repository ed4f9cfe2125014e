//! Copies, equality and pairs, and the texts by which identifiers are named.

use cv_token::{
    ActorId, AppId, Pair, Pairs, Text, Token, actor_id, app_id, are_equal, copy_items, copy_pairs,
    node_id, read, text,
};
use std::alloc::Global;
use std::test::Fail;

/// A token of each form.
const WRITTEN: &str = "[null,true,1,\"a\",[],{\"a\":{},\"b\":[1]}]";

/// The token of a text.
fn token(alloc: Global, written: &str) -> Result<Token, Fail> {
    match read(alloc, written.as_bytes()) {
        Ok(token) => Ok(token),
        Err(_fault) => Err(Fail::new("no token")),
    }
}

#[test]
fn copies_are_equal(rt: HostRuntime) -> Result<(), Fail> {
    let alloc = rt.alloc();
    let token = token(alloc, WRITTEN)?;
    let copy = token.copy(alloc)?;
    assert!(rt; are_equal(&token, &copy));
    assert_eq!(rt; text(alloc, &copy)?.as_str(), WRITTEN);
    Ok(())
}

#[test]
fn others_are_not_equal(rt: HostRuntime) -> Result<(), Fail> {
    let alloc = rt.alloc();
    let first = token(alloc, WRITTEN)?;
    for other in ["[null,true,1,\"a\",[],{\"a\":{},\"b\":[2]}]", "1", "true"] {
        assert!(rt; !are_equal(&first, &token(alloc, other)?));
    }
    assert!(rt; !are_equal(&Token::Int(1), &Token::Bool(true)));
    Ok(())
}

#[test]
fn lists_and_dictionaries_are_copied(rt: HostRuntime) -> Result<(), Fail> {
    let alloc = rt.alloc();
    let token = token(alloc, WRITTEN)?;
    let Token::List(items) = &token else {
        return Err(Fail::new("no list"));
    };
    assert!(rt; are_equal(&token, &Token::List(copy_items(alloc, items)?)));
    let Some(Token::Dict(pairs)) = items.get(5) else {
        return Err(Fail::new("no dictionary"));
    };
    assert_eq!(rt; copy_pairs(alloc, pairs)?.len(), 2);
    Ok(())
}

#[test]
fn keeps_pairs(rt: HostRuntime) -> Result<(), Fail> {
    let alloc = rt.alloc();
    let mut pairs = Pairs::new(alloc);
    assert!(rt; pairs.is_empty());
    let key = Text::from_string(String::from_str(alloc, "b")?);
    let value = Token::Int(1);
    pairs.push(Pair { key, value })?;
    assert_eq!(rt; pairs.len(), 1);
    for pair in pairs.as_slice() {
        assert!(rt; pair.key.equals(&pair.key.copy(alloc)?));
    }
    assert_eq!(rt; text(alloc, &Token::Dict(pairs))?.as_str(), "{\"b\":1}");
    Ok(())
}

// The values are those of another implementation of RFC 9562.
#[test]
fn names_by_version_5(rt: HostRuntime) -> Result<(), Fail> {
    let alloc = rt.alloc();
    let app = AppId {
        node: 64,
        seq: 4294967295,
    };
    let actor = ActorId {
        app: AppId { node: 2, seq: 7 },
        actor: 65535,
    };
    assert_eq!(rt;
        node_id(alloc, 1)?.as_str(),
        "18399d89-81ac-5a55-a9ab-1fac3cccdc80"
    );
    assert_eq!(rt;
        app_id(alloc, app)?.as_str(),
        "2acb690b-ad48-5286-9773-c2d97da0c695"
    );
    assert_eq!(rt;
        actor_id(alloc, actor)?.as_str(),
        "7d9917da-b8b9-5e1b-af07-713d786e9098"
    );
    Ok(())
}
