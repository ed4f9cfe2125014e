//! The row of an application that is destroyed.

ghost use Rattle.std.specs.Prelude.{◌≡◌, ◌+◌, ◌++◌, ◌<◌, ◌^◌, [], Some, not, slice_get, IfErr, IfOk, OnOk, OnErr};
ghost use Rattle.std.specs.FinMap as map;
ghost use Rattle.cv_protocol.specs.declared.event.Sent.TheVariants as sent;
ghost use Rattle.cv_protocol.specs.NodeRow.{cause_of, row};
ghost use Rattle.cv_state.specs.Destroying.{farewells, is_living, word_to};
ghost use Rattle.cv_state.specs.Kept.{added};
ghost use Rattle.cv_state.specs.Steps.{LeadsTo, Refuses};

use crate::state::State;
use cv_protocol::{Application, Body, Event, Frame, Frames, StepRefusal};
use cv_token::{AppId, OutOfMemory};
use std::alloc::Global;

/// Adds the frame, where there is one.
fn add(frames: &mut Frames, frame: Option<Frame>) -> Result<(), OutOfMemory>
    ensures { OnOk result (frames.new ≡ frames.old ++ added frame []) }
{
    match frame {
        Some(frame) => frames.push(frame),
        None => Ok(()),
    }
}

impl State {
    /// Whether the application is known and not destroyed.
    pub(crate) fn is_living(&self, app: AppId) -> bool
        ensures { result ≡ is_living (map.get self.now.known.apps app) }
    {
        match self.known.application(app) {
            Some(
                Application::Known {
                    name: _name,
                    net: _net,
                },
            ) => true,
            Some(Application::Destroyed) => false,
            None => false,
        }
    }

    /// How many nodes are known.
    fn node_count(&self) -> usize
        ensures { result ≡ map.len self.now.known.nodes }
    {
        self.known.nodes()
    }

    /// The word to the node at that place, where it is another one, with the stamp of the next entry.
    fn farewell(&self, app: AppId, place: usize) -> Option<Frame>
        ensures { result ≡ word_to self.now app (slice_get (map.keys self.now.known.nodes) place) }
    {
        let to = self.known.node_at(place)?;
        if to == self.spec.no {
            return None;
        }
        Some(Frame {
            from: self.spec.no,
            to,
            stamp: self.stamp + 1,
            body: Body::Destroy { app },
        })
    }

    /// The word to each other known node, by number, with the stamp of the next entry.
    fn farewells(&self, alloc: Global, app: AppId) -> Result<Frames, OutOfMemory>
        ensures { IfOk result (λ frames. frames ≡ farewells self.now app (map.keys self.now.known.nodes)) }
    {
        let mut frames = Frames::new(alloc);
        for place in 0..self.node_count() {
            add(&mut frames, self.farewell(app, place))?;
        }
        Ok(frames)
    }

    /// The application is destroyed here, and each other known node is told so.
    pub fn destroy(&mut self, alloc: Global, app: AppId) -> Result<Frames, StepRefusal>
        ensures done { IfOk result (λ frames. LeadsTo (row self.old (Event.Destroy app)) self.new (sent.All frames)) }
        ensures cause { IfErr result (Refuses (cause_of self.old (Event.Destroy app))) }
        ensures err { OnErr result (self.new ≡ self.old) }
    {
        if !self.is_living(app) {
            return Err(StepRefusal::NotEnabled);
        }
        if self.is_spent() {
            return Err(StepRefusal::StampSpent);
        }
        let frames = self.farewells(alloc, app)?;
        self.destroy_here(app)?;
        self.step_on();
        Ok(frames)
    }
}
