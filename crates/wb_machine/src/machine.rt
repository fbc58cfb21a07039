//! A machine that runs.

ghost use Rattle.std.specs.Prelude.{◌≡◌, [], OnOk, OnErr, IfOk, IfErr, slice_get};
ghost use Rattle.std.specs.declared.alloc.Global.{Global};
ghost use Rattle.wb_types.specs.declared.refusal.Refusal.TheVariants.{Memory};
ghost use Rattle.wb_promise.specs.Headline.{shown};
ghost use Rattle.wb_machine.specs.declared.machine.TheConstants.{ACTORS};
ghost use Rattle.wb_machine.specs.Life.{GoesOn, Happens, IsReached, shape_of, state_of};
ghost use Rattle.wb_machine.specs.Serving.{IsPhaseServed};
ghost use Rattle.wb_machine.specs.Showing.{opened_of};
ghost use Rattle.wb_machine.specs.Standing.{IsSoundPhase};

use crate::outcome::Outcome;
use crate::phase::Phase;
use crate::serving::{falter, start, step};
use crate::stopping::stop;
use crate::trace::Trace;
use crate::viewing::{counts_of, view_of};
use std::alloc::Global;
use std::marker::Model;
use wb_devices::Devices;
use wb_disk::MemDisk;
use wb_meta::format;
use wb_policy::Quiet;
use wb_promise::{Event, Record};
use wb_runs::{metadata_keep_sizes, never_stuck, words_are_used_rightly};
use wb_types::{Content, Geometry, Refusal};

/// How many actors a machine has.
pub const ACTORS: usize = 64;

/// Three devices in memory, what stands over them, and the trace of what happened.
pub struct Machine {
    alloc: Global,
    geometry: Geometry,
    devices: Devices<MemDisk>,
    phase: Phase,
    trace: Trace,
}

impl Drop for Machine {
    fn drop(self) {
        let Machine {
            alloc: _,
            geometry: _,
            devices,
            phase,
            trace,
        } = self;
        drop(devices);
        drop(phase);
        drop(trace);
    }
}

impl Model for Machine {
    ghost use Rattle.wb_machine.specs.declared.machine.TheConstants.{ACTORS};
    ghost use Rattle.wb_machine.specs.Life.{Life, IsReached, shape_of, state_of};
    ghost use Rattle.wb_machine.specs.Standing.{IsSoundPhase};

    ghost Value = { Life };

    ghost view = { λ m. record { shape = shape_of m.geometry ACTORS; trace = m.trace.records; state = state_of ACTORS m.devices m.phase } };

    ghost invariant = { λ m. IsReached (record { shape = shape_of m.geometry ACTORS; trace = m.trace.records; state = state_of ACTORS m.devices m.phase })
        × IsSoundPhase m.geometry ACTORS m.devices m.phase };
}

impl Machine {
    /// A machine in which nothing has happened: metadata that were formatted, two devices of zeros, no target, and nobody at work.
    /// `Memory` where there is none for it.
    pub fn new(alloc: Global, geometry: Geometry) -> Result<Machine, Refusal>
        ensures shape { IfOk result (λ m. m.shape ≡ shape_of geometry ACTORS) }
        ensures trace { IfOk result (λ m. m.trace ≡ []) }
        ensures refusal { IfErr result (λ refusal. refusal ≡ Memory) }
    {
        let mut metadata = MemDisk::new(alloc, u64::from(geometry.meta_sectors))?;
        if format(&mut metadata, &geometry).is_err() {
            return Err(Refusal::Memory);
        }
        let cache = MemDisk::new(alloc, geometry.cache_sectors())?;
        let origin = MemDisk::new(alloc, geometry.origin_sectors())?;
        Ok(Machine {
            alloc,
            geometry,
            devices: Devices {
                metadata,
                cache,
                origin,
            },
            phase: Phase::Closed,
            trace: Trace::new(alloc),
        })
    }

    /// One event. It adds one record, which says what the event did. `Memory` where the record, or what the step reads or writes, wants
    /// more than there is: nothing that it holds has changed; there may be room for more.
    pub fn event(&mut self, event: Event) -> Result<(), Refusal>
        ensures ok { OnOk result (GoesOn self.old event self.new) }
        ensures err { OnErr result (self.new ≡ self.old) }
        ensures refusal { IfErr result (λ refusal. refusal ≡ Memory) }
    {
        if self.trace.reserve().is_err() {
            return Err(Refusal::Memory);
        }
        metadata_keep_sizes::<Quiet, Global>();
        never_stuck::<Quiet, Global>();
        words_are_used_rightly::<Quiet, Global>();
        let Outcome { what, read } = happen(
            &self.geometry,
            self.alloc,
            &mut self.devices,
            &mut self.phase,
            &event,
        )?;
        self.trace.push_reserved(Record { event, what, read });
        Ok(())
    }

    /// What the target that stands shows of a sector of the origin: its newest content where its block stands. None where no target
    /// stands, or the origin has no such sector. Straight after an opening's answer that is what it has opened.
    pub fn view(&mut self, at: u64) -> Option<Content>
        ensures shown { result ≡ slice_get (shown self.old.shape self.old.state) at }
        ensures kept { self.new ≡ self.old }
    {
        view_of(&self.geometry, &mut self.devices, &self.phase, at)
    }

    /// The generation of the newest root of the target that stands, how many of its cache blocks have an entry, and how many of these are
    /// dirty. None where no target stands. Straight after an opening's answer the generation is the one that it has written.
    pub fn opened(&self) -> Option<(u64, u32, u32)>
        ensures { result ≡ opened_of self.now.state.phase }
    {
        match &self.phase {
            Phase::Standing(target, _) => Some(counts_of(target)),
            _ => None,
        }
    }

    /// The trace, which is one of a run from formatted metadata.
    pub fn trace(&self) -> &Trace
        ensures trace { result.now.records ≡ self.now.trace }
        ensures reached { IsReached self.now }
    {
        &self.trace
    }

    /// The trace of a machine that is done with.
    pub fn into_trace(self) -> Trace
        ensures trace { result.records ≡ self.trace }
        ensures reached { IsReached self }
    {
        let Machine {
            alloc: _,
            geometry: _,
            devices: _,
            phase: _,
            trace,
        } = self;
        trace
    }
}

/// What an event does to the parts of a machine, and what it reads.
fn happen(
    geometry: &Geometry,
    alloc: Global,
    devices: &mut Devices<MemDisk>,
    phase: &mut Phase,
    event: &Event,
) -> Result<Outcome, Refusal>
    requires sound { IsSoundPhase geometry.now ACTORS devices.old phase.old }
    requires served { IsPhaseServed geometry.now devices.old phase.old }
    ensures sound { IsSoundPhase geometry.now ACTORS devices.new phase.new }
    ensures ok { IfOk result (λ done. Happens (shape_of geometry.now ACTORS) (state_of ACTORS devices.old phase.old) event.now done.what done.read.items (state_of ACTORS devices.new phase.new)) }
    ensures err { OnErr result (state_of ACTORS devices.new phase.new ≡ state_of ACTORS devices.old phase.old) }
    ensures refusal { IfErr result (λ refusal. refusal ≡ Memory) }
{
    match event {
        Event::Start(a, job) => {
            let what = start(geometry, alloc, devices, phase, *a, job)?;
            Ok(Outcome::told(alloc, what))
        }
        Event::Step(a) => step(geometry, alloc, devices, phase, *a),
        Event::FaultStep(a, choice) => {
            let what = falter(geometry, alloc, devices, phase, *a, choice)?;
            Ok(Outcome::told(alloc, what))
        }
        Event::Stop(choice) => Ok(Outcome::told(alloc, stop(devices, phase, choice))),
    }
}
