//! Each call with ample memory.

use cv_table::{ActorTable, AppTable, Change, ConnTable, NodeTable};
use cv_token::{ActorId, AppId, ConnId};
use std::alloc::{AllocFailed, Global};
use std::process::Abort;
use std::test::Fail;

const APPS: [AppId; 3] = [
    AppId { node: 2, seq: 1 },
    AppId { node: 1, seq: 7 },
    AppId { node: 1, seq: 2 },
];

fn is_value(rt: &impl Abort, found: Option<&u64>, wanted: u64) {
    match found {
        Some(value) => assert_eq!(rt; *value, wanted),
        None => panic!(rt; "no value"),
    }
}

struct Raise {
    by: u64,
}

impl Change<u64> for Raise {
    ghost use Rattle.std.specs.Prelude.{ℕ, ◌+◌, ◌<◌, ◌^◌, ◌-◌, min, nat_le, if◌then◌else◌};

    ghost changed = { λ r n. if nat_le n (2 ^ 64 - 1 - r.by) then n + r.by else 2 ^ 64 - 1 };

    fn change(&self, value: &mut u64) {
        *value = if *value <= u64::MAX - self.by {
            *value + self.by
        } else {
            u64::MAX
        };
    }
}

/// A table with two actors of each application, whose values tell application and actor.
fn filled(alloc: Global) -> Result<ActorTable<u64>, AllocFailed<u64>> {
    let mut table = ActorTable::new(alloc);
    for (place, app) in APPS.iter().enumerate() {
        let value = place as u64 * 1000;
        table.insert(
            ActorId {
                app: *app,
                actor: 300,
            },
            value + 300,
        )?;
        table.insert(
            ActorId {
                app: *app,
                actor: 4,
            },
            value + 4,
        )?;
    }
    Ok(table)
}

const FIRST: ActorId = ActorId {
    app: AppId { node: 1, seq: 2 },
    actor: 4,
};

const LAST: ActorId = ActorId {
    app: AppId { node: 2, seq: 1 },
    actor: 300,
};

#[test]
fn actors_stand_in_order(rt: HostRuntime) -> Result<(), Fail> {
    let mut table = filled(rt.alloc())?;
    table.reserve(6)?;
    assert_eq!(&rt; table.len(), 6);
    assert!(&rt; table.key_at(0) == Some(FIRST));
    assert!(&rt; table.key_at(5) == Some(LAST));
    assert!(&rt; table.key_at(6).is_none());
    Ok(())
}

#[test]
fn actors_change(rt: HostRuntime) -> Result<(), Fail> {
    let mut table = filled(rt.alloc())?;
    table.change_all(&Raise { by: 5 });
    is_value(&rt, table.get(FIRST), 2009);
    if let Some(value) = table.get_mut(FIRST) {
        *value = 1;
    }
    assert!(&rt; table.insert(FIRST, 2)? == Some(1));
    Ok(())
}

#[test]
fn actors_go(rt: HostRuntime) -> Result<(), Fail> {
    let mut table = filled(rt.alloc())?;
    table.drop_app(APPS[1]);
    assert_eq!(&rt; table.len(), 4);
    assert!(&rt; table.remove(FIRST) == Some(2004));
    assert!(&rt; table.get(FIRST).is_none());
    Ok(())
}

#[test]
fn applications_stand_in_order(rt: HostRuntime) -> Result<(), Fail> {
    let mut apps = AppTable::new(rt.alloc());
    apps.reserve(3)?;
    for (place, app) in APPS.iter().enumerate() {
        assert!(&rt; apps.insert(*app, place as u64)?.is_none());
    }
    assert_eq!(&rt; apps.len(), 3);
    assert!(&rt; apps.key_at(0) == Some(APPS[2]));
    is_value(&rt, apps.get(APPS[1]), 1);
    Ok(())
}

#[test]
fn connections_stand_in_order(rt: HostRuntime) -> Result<(), Fail> {
    let mut conns = ConnTable::new(rt.alloc());
    conns.reserve(2)?;
    for place in [7, 3] {
        let conn = ConnId {
            app: APPS[0],
            place,
        };
        assert!(&rt; conns.insert(conn, u64::from(place))?.is_none());
        is_value(&rt, conns.get(conn), u64::from(place));
    }
    assert_eq!(&rt; conns.len(), 2);
    assert!(&rt; conns.key_at(2).is_none());
    Ok(())
}

#[test]
fn nodes_stand_in_order(rt: HostRuntime) -> Result<(), Fail> {
    let mut nodes = NodeTable::new(rt.alloc());
    nodes.reserve(2)?;
    assert!(&rt; nodes.insert(9, 90u64)?.is_none());
    assert!(&rt; nodes.insert(3, 30)?.is_none());
    assert_eq!(&rt; nodes.len(), 2);
    assert!(&rt; nodes.key_at(0) == Some(3));
    is_value(&rt, nodes.get(9), 90);
    Ok(())
}
