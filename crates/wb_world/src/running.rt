//! Events one after the other on a new world.

ghost use Rattle.std.specs.Prelude.{◌≡◌, ◌++◌, IfOk, IfErr, OnOk, reverse};
ghost use Rattle.wb_types.specs.declared.refusal.Refusal.TheVariants.{Memory};
ghost use Rattle.wb_machine.specs.declared.machine.TheConstants.{ACTORS};
ghost use Rattle.wb_machine.specs.Life.{shape_of};
ghost use Rattle.wb_world.specs.Running.{IsRightRun, events_of};

use crate::world::World;
use std::alloc::Global;
use wb_machine::Trace;
use wb_promise::Event;
use wb_types::{Geometry, Refusal};

/// Events one after the other on a new world of this geometry, and its trace: a record for each of them, in order. `Memory` where
/// there is none for it.
pub fn run(alloc: Global, geometry: Geometry, events: Vec<Event>) -> Result<Trace, Refusal>
    ensures right { IfOk result (λ trace. IsRightRun (shape_of geometry ACTORS) events.items trace.records) }
    ensures refusal { IfErr result (λ refusal. refusal ≡ Memory) }
{
    let mut world = World::new(alloc, geometry)?;
    let mut left = events;
    left.reverse();
    // The world is let go by its own call on both ways: let go here, each of its parts is one of this function's ways.
    match run_all(&mut world, left) {
        Ok(()) => Ok(world.into_trace()),
        Err(refusal) => {
            let _unfinished = world.into_trace();
            Err(refusal)
        }
    }
}

/// These events, the last one first.
fn run_all(world: &mut World, mut left: Vec<Event>) -> Result<(), Refusal>
    ensures shape { world.new.shape ≡ world.old.shape }
    ensures events { OnOk result (events_of world.new.trace ≡ events_of world.old.trace ++ reverse left.items) }
    ensures refusal { IfErr result (λ refusal. refusal ≡ Memory) }
{
    while let Some(event) = left.pop() {
        world.event(event)?;
    }
    Ok(())
}
