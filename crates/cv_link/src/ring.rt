//! The ring of one link: where one node pushes frames and the other takes them.

ghost use Rattle.std.specs.Prelude.{◌≡◌};
ghost use Rattle.rtrb.specs.Ring.{producer_capacity, consumer_capacity};

use crate::items::LinkItems;
use crate::plan::{Plan, Taken};
use cv_protocol::Frame;
use cv_token::OutOfMemory;
use rtrb::{Consumer, PopError, Producer, PushError, RingBuffer};
use std::alloc::Global;

/// How many frames a ring holds.
const FRAMES: usize = 64;

/// The end of a ring that pushes frames. It can move to another thread.
#[derive(Drop)]
pub struct Tx {
    ring: Producer<Frame>,
    ghost size: { producer_capacity ring ≡ 64 },
}

/// The end of a ring that takes frames, with the plan of losses. It can move to another thread.
#[derive(Drop)]
pub struct Rx {
    ring: Consumer<Frame>,
    plan: Plan,
    ghost size: { consumer_capacity ring ≡ 64 },
}

/// Both ends of one ring.
#[derive(Drop)]
pub struct Pair {
    pub tx: Tx,
    pub rx: Rx,
}

impl Pair {
    ghost use Rattle.std.specs.Prelude.{◌≡◌, [], IfOk};
    ghost use Rattle.cv_link.specs.Plan.{new_plan};
    ghost use Rattle.cv_link.specs.Ring.{pushed, known_taken, taken, known, plan, AreEnds};

    /// An empty ring for a link with these items.
    pub fn new(alloc: Global, items: LinkItems) -> Result<Pair, OutOfMemory>
        ensures ends { IfOk result (λ pair. AreEnds pair.tx pair.rx) }
        ensures empty { IfOk result (λ pair. (pushed pair.tx ≡ []) × (known_taken pair.tx ≡ 0) × (taken pair.rx ≡ []) × (known pair.rx ≡ [])) }
        ensures plan { IfOk result (λ pair. plan pair.rx ≡ new_plan items) }
    {
        let (producer, consumer) = RingBuffer::new(alloc, FRAMES)?;
        let plan = Plan::new(items);
        Ok(Pair {
            tx: Tx { ring: producer },
            rx: Rx {
                ring: consumer,
                plan,
            },
        })
    }
}

impl Tx {
    ghost use Rattle.std.specs.Prelude.{◌≡◌, ◌+◌, ◌<◌, ◌≤◌, [], ◌∷◌, ◌++◌, length, IsOk, OnOk, IfErr};
    ghost use Rattle.cv_link.specs.Ring.{pushed, known_taken, ring_length, SameTx};

    /// Pushes the frame, or hands it back where 64 frames are in the ring that are not known to be taken.
    pub fn push(&mut self, frame: Frame) -> Result<(), Frame>
        ensures end { SameTx self.old self.new }
        ensures ok { OnOk result (pushed self.new ≡ pushed self.old ++ frame ∷ []) }
        ensures full { IfErr result (λ back. (back ≡ frame) × (pushed self.new ≡ pushed self.old) × (length (pushed self.new) ≡ known_taken self.new + ring_length)) }
        ensures roomy { length (pushed self.old) < known_taken self.old + ring_length → IsOk result }
        ensures known { known_taken self.old ≤ known_taken self.new }
    {
        match self.ring.push(frame) {
            Ok(()) => Ok(()),
            Err(PushError::Full(frame)) => Err(frame),
        }
    }
}

impl Rx {
    ghost use Rattle.std.specs.Prelude.{◌≡◌, ◌+◌, ◌<◌, ◌≤◌, [], ◌∷◌, ◌++◌, length, IsSome, IfSome, IfNone};
    ghost use mathlib.Core.List.{IsPrefix};
    ghost use Rattle.cv_link.specs.Plan.{frame_of, counted, turned, Tells};
    ghost use Rattle.cv_link.specs.Ring.{pushed, known_taken, taken, known, plan, AreEnds, SameTx, SameRx, IsStill};

    /// Takes the oldest frame from the ring and tells what becomes of it. None says only that no frame is known to be there.
    pub fn take(&mut self) -> Option<Taken>
        ensures end { SameRx self.old self.new }
        ensures popped { IfSome result (λ told. taken self.new ≡ taken self.old ++ frame_of told ∷ []) }
        ensures next { IfSome result (λ told. IsPrefix (known self.old) (frame_of told ∷ known self.new)) }
        ensures told { IfSome result (λ told. Tells (plan self.old) (frame_of told) told) }
        ensures counted { IfSome result (λ told. plan self.new ≡ counted (plan self.old)) }
        ensures none { IfNone result (IsStill self.old self.new) }
        ensures there { 0 < length (known self.old) → IsSome result }
    {
        match self.ring.pop() {
            Ok(frame) => Some(self.plan.judge(frame)),
            Err(PopError::Empty) => None,
        }
    }

    /// Counts and judges a frame that did not go through the ring.
    pub fn direct(&mut self, frame: Frame) -> Taken
        ensures end { SameRx self.old self.new }
        ensures told { Tells (plan self.old) frame result }
        ensures counted { plan self.new ≡ counted (plan self.old) }
        ensures ring { (taken self.new ≡ taken self.old) × (known self.new ≡ known self.old) }
    {
        self.plan.judge(frame)
    }

    /// Ends the turn, and with it a cut.
    pub fn turn(&mut self)
        ensures end { SameRx self.old self.new }
        ensures turned { plan self.new ≡ turned (plan self.old) }
        ensures ring { (taken self.new ≡ taken self.old) × (known self.new ≡ known self.old) }
    {
        self.plan.turn();
    }

    /// Looks at both ends, and tells how many frames are in the ring: all of them are known from then on, and so is all room.
    pub fn look(&mut self, tx: &mut Tx) -> u32
        requires { AreEnds tx.old self.old }
        ensures ends { AreEnds tx.new self.new }
        ensures same_tx { SameTx tx.old tx.new }
        ensures same_rx { SameRx self.old self.new }
        ensures still { (pushed tx.new ≡ pushed tx.old) × (taken self.new ≡ taken self.old) × (plan self.new ≡ plan self.old) }
        ensures in_order { taken self.new ++ known self.new ≡ pushed tx.new }
        ensures count { result ≡ length (known self.new) }
        ensures room { length (taken self.new) ≤ known_taken tx.new }
    {
        tx.ring.slots_beside(&mut self.ring);
        self.ring.slots_beside(&mut tx.ring) as u32
    }
}
