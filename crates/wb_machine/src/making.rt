//! What an opening makes of what it has read.

ghost use Rattle.std.specs.Prelude.{◌≡◌, ◌<◌, IfOk, IfErr, replicate};
ghost use Rattle.wb_types.specs.declared.refusal.Refusal.TheVariants.{Memory};
ghost use Rattle.wb_meta.specs.Openings.{reopened};
ghost use Rattle.wb_meta.specs.Reads.{FitsDevice};
ghost use Rattle.wb_machine.specs.declared.machine.TheConstants.{ACTORS};
ghost use Rattle.wb_machine.specs.Making.{IsMade, read_of};
ghost use Rattle.wb_machine.specs.Members.{free};

use crate::asked::Asked;
use crate::known_crew::KnownCrew;
use crate::machine::ACTORS;
use crate::member::Member;
use crate::sealing::seal_all;
use crate::target::Target;
use std::alloc::{AllocError, Global};
use wb_bits::BitSet;
use wb_desk::Desk;
use wb_format::Root;
use wb_meta::State;
use wb_policy::Quiet;
use wb_types::{Place, Refusal};

/// The target that stands once the opening is answered done, and its actors, which wants no more memory, and what was read
/// beside the tree, which is the desk's: the root, the dirty bits, the places of the tree's nodes, and how many nodes were read.
#[derive(Drop)]
pub struct Made {
    pub root: Root,
    pub dirty: Option<BitSet>,
    pub used: Vec<Place>,
    pub nodes: usize,
    pub target: Target,
    pub members: Vec<Member>,
}

/// The target over what an opening that was asked for so has read, by the root that comes next. `Memory` where there is none for it.
pub(crate) fn make(
    alloc: Global,
    asked: Asked,
    state: State<Global>,
    next: Root,
) -> Result<Made, Refusal>
    requires actor { asked.actor < ACTORS }
    requires fits { FitsDevice state.root.geometry.meta_sectors state.root state.tree state.used.items }
    requires next { next ≡ reopened state.root }
    ensures made { IfOk result (IsMade ACTORS asked) }
    ensures read { IfOk result (λ made. read_of made ≡ state) }
    ensures refused { IfErr result (λ refusal. refusal ≡ Memory) }
{
    let places = copied(alloc, &state.used)?;
    let members = resting_members(alloc)?;
    let mut crew = KnownCrew::new(alloc, state.root.geometry.origin_blocks, ACTORS)?;
    seal_all(&mut crew, asked.actor, &state);
    let State {
        root,
        tree,
        dirty,
        used,
        nodes,
    } = state;
    let state = State {
        root: next,
        tree,
        dirty: None,
        used: places,
        nodes,
    };
    let desk = Desk::new(alloc, state, asked.mode, Quiet, &[])?;
    let target = Target {
        crew,
        desk,
        failed: false,
        commit: None,
    };
    Ok(Made {
        root,
        dirty,
        used,
        nodes,
        target,
        members,
    })
}

/// These places once more.
fn copied(alloc: Global, places: &Vec<Place>) -> Result<Vec<Place>, AllocError>
    ensures { IfOk result (λ copy. copy.items ≡ places.now.items) }
{
    let mut copy = Vec::new(alloc);
    copy.extend_from_slice(places.as_slice())?;
    Ok(copy)
}

/// A member for each actor, with nothing to do.
fn resting_members(alloc: Global) -> Result<Vec<Member>, Refusal>
    ensures members { IfOk result (λ members. members.items ≡ replicate ACTORS free) }
    ensures refusal { IfErr result (λ refusal. refusal ≡ Memory) }
{
    let mut members = Vec::new(alloc);
    for _ in 0..ACTORS {
        members
            .push(Member::resting(alloc))
            .map_err(|_| Refusal::Memory)?;
    }
    Ok(members)
}
