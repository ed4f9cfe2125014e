//! Readers of an outport, and the list from which a port's readers are made.

ghost use Rattle.std.specs.Prelude.{◌≡◌, ◌<◌, ◌≤◌, [], ◌∷◌, ◌++◌, length, OnOk, OnErr};

use cv_token::{ActorId, ConnId, OutOfMemory};
use std::alloc::Global;
use std::marker::Model;

/// A reader of an outport. `acked` and `sent` count this reader's own tokens, from its first one on:
/// those that it has acknowledged, and those that were sent to it and not rewound.
#[derive(Debug, Clone, Copy, PartialEq, Eq)]
pub struct Reader {
    pub conn: ConnId,
    pub consumer: ActorId,
    pub acked: u64,
    pub sent: u64,
}

/// A reader to be: its connection, its consumer, and how many of its tokens it has acknowledged.
#[derive(Debug, Clone, Copy, PartialEq, Eq)]
pub struct Subscription {
    pub conn: ConnId,
    pub consumer: ActorId,
    pub acked: u64,
}

impl Subscription {
    ghost use Rattle.cv_queue.specs.Ports.{reader_from};

    /// The reader that has acknowledged `acked` of its tokens, and to whom no other was sent.
    pub fn reader(&self, acked: u64) -> Reader
        ensures { result ≡ reader_from acked self.now }
    {
        Reader {
            conn: self.conn,
            consumer: self.consumer,
            acked,
            sent: acked,
        }
    }
}

/// The most readers that a port has.
pub const MOST_READERS: usize = 65535;

/// The readers to be of an outport, in order. Contracts see them as a list, of at most 65,535.
#[derive(Debug, Drop)]
pub struct Readers {
    list: Vec<Subscription>,
}

impl Model for Readers {
    ghost use Rattle.std.specs.Prelude.{◌≤◌, List, length};
    ghost use Rattle.cv_queue.specs.declared.reader.Subscription.{Subscription};

    ghost Value = { List Subscription };

    ghost view = { λ r. r.list.items };

    ghost invariant = { λ r. length r.list.items ≤ 65535 };
}

impl Readers {
    /// No readers yet.
    pub fn new(alloc: Global) -> Readers
        ensures { result ≡ [] }
    {
        Readers {
            list: Vec::new(alloc),
        }
    }

    /// The readers that the `Vec` lists; it takes no memory.
    pub fn from_vec(list: Vec<Subscription>) -> Readers
        requires { length list.items ≤ 65535 }
        ensures { result ≡ list.items }
    {
        Readers { list }
    }

    /// The `Vec` of these readers; it takes no memory.
    pub fn into_vec(self) -> Vec<Subscription>
        ensures value { result.items ≡ self }
        ensures few { length self ≤ 65535 }
    {
        let Readers { list } = self;
        list
    }

    /// The readers, in order.
    pub fn as_slice(&self) -> &[Subscription]
        ensures value { result.now ≡ self.now }
        ensures few { length result.now ≤ 65535 }
    {
        self.list.as_slice()
    }

    /// One more reader, at the end.
    pub fn push(&mut self, reader: Subscription) -> Result<(), OutOfMemory>
        requires { length self.old < 65535 }
        ensures ok { OnOk result (self.new ≡ self.old ++ reader ∷ []) }
        ensures err { OnErr result (self.new ≡ self.old) }
    {
        self.list.push(reader)?;
        Ok(())
    }
}
