//! A world that runs.

ghost use Rattle.std.specs.Prelude.{◌≡◌, [], OnOk, OnErr, IfOk, IfErr, slice_get};
ghost use Rattle.wb_types.specs.declared.refusal.Refusal.TheVariants.{Memory};
ghost use Rattle.wb_promise.specs.Headline.{shown};
ghost use Rattle.wb_machine.specs.declared.machine.TheConstants.{ACTORS};
ghost use Rattle.wb_machine.specs.Life.{GoesOn, IsReached, Life, shape_of};
ghost use Rattle.wb_machine.specs.Showing.{opened_of};
ghost use Rattle.wb_world.specs.Running.{IsRightRun, KeepsPromises, events_of};

use crate::law::headline;
use std::alloc::Global;
use std::marker::Model;
use wb_headline::reads_give_the_latest_write;
use wb_machine::{Machine, Trace};
use wb_policy::Quiet;
use wb_promise::Event;
use wb_types::{Content, Geometry, Refusal};

/// Three devices in memory, what stands over them, and the trace of what happened, of which all holds that is promised of every run.
#[derive(Drop)]
pub struct World {
    machine: Machine,
}

impl Model for World {
    ghost Value = { Life };

    ghost view = { λ w. w.machine };
}

impl World {
    /// A world in which nothing has happened: metadata that were formatted, two devices of zeros, no target, and nobody at work.
    /// `Memory` where there is none for it.
    pub fn new(alloc: Global, geometry: Geometry) -> Result<World, Refusal>
        ensures shape { IfOk result (λ m. m.shape ≡ shape_of geometry ACTORS) }
        ensures trace { IfOk result (λ m. m.trace ≡ []) }
        ensures refusal { IfErr result (λ refusal. refusal ≡ Memory) }
    {
        let machine = Machine::new(alloc, geometry)?;
        Ok(World { machine })
    }

    /// One event. It adds one record, which says what the event did. `Memory` where the record, or what the step reads or writes, wants
    /// more than there is: nothing that it holds has changed; there may be room for more.
    pub fn event(&mut self, event: Event) -> Result<(), Refusal>
        ensures ok { OnOk result (GoesOn self.old event self.new) }
        ensures err { OnErr result (self.new ≡ self.old) }
        ensures refusal { IfErr result (λ refusal. refusal ≡ Memory) }
    {
        self.machine.event(event)
    }

    /// What the target that stands shows of a sector of the origin: its newest content where its block stands. None where no target
    /// stands, or the origin has no such sector. Straight after an opening's answer that is what it has opened.
    pub fn view(&mut self, at: u64) -> Option<Content>
        ensures shown { result ≡ slice_get (shown self.old.shape self.old.state) at }
        ensures kept { self.new ≡ self.old }
    {
        self.machine.view(at)
    }

    /// The generation of the newest root of the target that stands, how many of its cache blocks have an entry, and how many of these are
    /// dirty. None where no target stands. Straight after an opening's answer the generation is the one that it has written.
    pub fn opened(&self) -> Option<(u64, u32, u32)>
        ensures { result ≡ opened_of self.now.state.phase }
    {
        self.machine.opened()
    }

    /// The trace. It is one of a run from formatted metadata, of which all holds that is promised of every run (`headline`): no event is
    /// skipped that applies, each answer is right, and whatever a crash leaves of the devices shows of each sector an entry of its
    /// history at its durable floor or later. Reads were given what was written last, also those that did not end.
    pub fn trace(&self) -> &Trace
        ensures trace { result.now.records ≡ self.now.trace }
        ensures reached { IsReached self.now }
        ensures promises { (run : IsReached self.now) → KeepsPromises self.now run }
    {
        headline();
        reads_give_the_latest_write::<Quiet, Global>();
        self.machine.trace()
    }

    /// The trace of a world that is done with, and what is promised of it.
    pub(crate) fn into_trace(self) -> Trace
        ensures { IsRightRun self.shape (events_of self.trace) result.records }
    {
        headline();
        reads_give_the_latest_write::<Quiet, Global>();
        self.machine.into_trace()
    }
}
