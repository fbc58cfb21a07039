//! Reading of a device.

ghost use Rattle.std.specs.Prelude.{◌≡◌, ◌≤◌, ◌<◌, ◌↔◌, ◌⊎◌, ◌+◌, ◌-◌, ℕ, List, map, length, IsTrue, IsFalse, IsSome, OnOk, IfOk, IfErr};
ghost use Rattle.wb_types.specs.declared.refusal.Refusal.TheVariants.{Memory as OutOfMemory};
ghost use Rattle.wb_disk.specs.Device.{Content as Bytes, newest};
ghost use Rattle.wb_disk.specs.Extents.{Reading, MayLand};
ghost use Rattle.wb_meta.specs.States.{RepresentsState, IsRefusedBy, IsOfReading, CountsFault, FailsIf};
ghost use Rattle.wb_meta.specs.Reads.{IsImageOn, FitsDevice, AreStepsOn, HasLoaded, HasRead, ReadingGoesOn, StopsBy, IsDone, StepsFewer, ReadOneMore, coming_sector, known_root, sectors_read, steps_left};

use crate::sector::get_node;
use crate::slot::{newest_root, read_slot};
use std::alloc::{Allocator, Global};
use wb_bits::BitSet;
use wb_dirty::ImageLoader;
use wb_disk::Disk;
use wb_format::Root;
use wb_tree::Tree;
use wb_types::{Place, Refusal};

/// What a metadata device stands for.
#[derive(Drop)]
pub struct State<A: Allocator> {
    /// The valid root of higher generation.
    pub root: Root,
    /// The mapping of its tree. Its dirty bits count where none stand beside it.
    pub tree: Tree<A>,
    /// The dirty blocks, where the root names a tree of dirty bits.
    pub dirty: Option<BitSet>,
    /// The places of the mapping's nodes, in the order in which they were read.
    pub used: Vec<Place>,
    /// How many nodes were read: those of the mapping, and then those of the dirty bits.
    pub nodes: usize,
}

/// A reading by single steps of the metadata device: it reads the first slot, the second, and each node of the newest
/// root's image. It writes nothing, and what is done to other devices between the steps changes nothing of it.
#[derive(Drop)]
pub enum ReadSteps<A: Allocator> {
    /// Nothing was read.
    Begun {
        alloc: A,
        global: Global,
    },
    /// The first slot was read, and this is its valid root.
    FirstSlotRead {
        alloc: A,
        global: Global,
        first: Option<Root>,
    },
    /// The newest root is known, so many nodes of its image were read, and another is to be.
    RootFound {
        global: Global,
        root: Root,
        loader: ImageLoader<A>,
        nodes: usize,
    },
    /// All was read.
    Done(State<A>),
}

impl<A: Allocator + Clone> ReadSteps<A> {
    /// A reading that has read nothing.
    pub fn new(alloc: A, global: Global) -> ReadSteps<A>
        ensures on { (sectors : ℕ) → AreStepsOn sectors result }
        ensures begins { (sectors : List Bytes) → HasRead sectors result }
        ensures left { (sectors : ℕ) → steps_left sectors result ≡ sectors + 2 }
    {
        ReadSteps::Begun { alloc, global }
    }

    /// Whether no step is left.
    pub fn is_done(&self) -> bool
        ensures { IsTrue result ↔ IsDone self.now }
    {
        matches!(self, ReadSteps::Done(_))
    }

    /// The sector that the next step reads; none where no step is left.
    pub fn coming(&self) -> Option<u64>
        ensures { result ≡ coming_sector self.now }
    {
        match self {
            ReadSteps::Begun { .. } => Some(0),
            ReadSteps::FirstSlotRead { .. } => Some(1),
            ReadSteps::RootFound { loader, .. } => match loader.wanted() {
                Some(Place(place)) => Some(u64::from(place)),
                None => None,
            },
            ReadSteps::Done(_) => None,
        }
    }

    /// The newest root, once both slots were read: before any node of its tree is.
    pub fn root(&self) -> Option<Root>
        ensures { result ≡ known_root self.now }
    {
        match self {
            ReadSteps::RootFound { root, .. } => Some(*root),
            ReadSteps::Done(state) => Some(state.root),
            _ => None,
        }
    }

    /// Does the next step; where none is left, nothing. A step reads the one sector that comes next, and depends on no
    /// other; a slot that the device is too small for has no root and is not read.
    ///
    /// `Io` where the device fails, `NotFormatted` where neither slot has a valid root, `Mismatch` where the newest
    /// root is one of a device of another size, `Damaged` with the place of the first fault of its image, `Memory`
    /// where there is no room for what is read.
    pub fn next<D: Disk>(self, disk: &mut D) -> Result<ReadSteps<A>, Refusal>
        requires { AreStepsOn (D.size disk.old) self }
        ensures size { D.size disk.new ≡ D.size disk.old }
        ensures same { D.tells → D.contents disk.new ≡ D.contents disk.old }
        ensures on { IfOk result (AreStepsOn (D.size disk.old)) }
        ensures left { IfOk result (StepsFewer (D.size disk.old) self) }
        ensures one_more { IfOk result (ReadOneMore self) }
        ensures idle { IfOk result (λ steps. IsDone self → steps ≡ self) }
        ensures read { D.tells → IfOk result (ReadingGoesOn self (D.contents disk.old)) }
        ensures refused { D.tells → IfErr result (StopsBy self (D.contents disk.old)) }
        ensures kinds { IfErr result IsOfReading }
        ensures no_fault { D.tells → OnOk result (D.faults disk.new ≡ D.faults disk.old) }
        ensures cause { D.tells → IfErr result (λ refusal. CountsFault refusal (D.faults disk.old)
            (D.faults disk.new)) }
        ensures how { D.tells → IfErr result (λ refusal. FailsIf refusal (MayLand (D.falters disk.old Reading))) }
    {
        match self {
            ReadSteps::Begun { alloc, global } => {
                let first = read_slot(disk, 0)?;
                Ok(ReadSteps::FirstSlotRead {
                    alloc,
                    global,
                    first,
                })
            }
            ReadSteps::FirstSlotRead {
                alloc,
                global,
                first,
            } => {
                let second = read_slot(disk, 1)?;
                let root = newest_root(first, second, disk.sectors())?;
                let loader = ImageLoader::new(alloc, global, &root)?;
                go_on(global, root, loader, 0)
            }
            ReadSteps::RootFound {
                global,
                root,
                loader,
                nodes,
            } => match loader.wanted() {
                Some(Place(place)) => {
                    let node = get_node(disk, u64::from(place), root.version)?;
                    go_on(global, root, loader.tell(node)?, nodes + 1)
                }
                None => go_on(global, root, loader, nodes),
            },
            ReadSteps::Done(state) => Ok(ReadSteps::Done(state)),
        }
    }
}

/// Goes on with the next node of a root's image, of which so many were read; where there is none, the reading is done.
fn go_on<A: Allocator + Clone>(
    global: Global,
    root: Root,
    loader: ImageLoader<A>,
    nodes: usize,
) -> Result<ReadSteps<A>, Refusal>
    requires { nodes ≡ length loader.found.reached }
    ensures on { (sectors : ℕ) → IsImageOn sectors root loader → IfOk result (AreStepsOn sectors) }
    ensures left { (sectors : ℕ) → IfOk result (λ steps. steps_left sectors steps
        ≤ sectors - length loader.found.reached) }
    ensures count { IfOk result (λ steps. sectors_read steps ≡ 2 + length loader.found.reached) }
    ensures read { (sectors : List Bytes) → IsImageOn (length sectors) root loader
        → HasLoaded sectors root loader → IfOk result (HasRead sectors) }
    ensures refused { IfErr result (λ refusal. refusal ≡ OutOfMemory) }
{
    if loader.wanted().is_some() {
        return Ok(ReadSteps::RootFound {
            global,
            root,
            loader,
            nodes,
        });
    }
    let (tree, dirty, used) = loader.finish(global)?;
    Ok(ReadSteps::Done(State {
        root,
        tree,
        dirty,
        used,
        nodes,
    }))
}

/// Reads what a metadata device stands for: all steps of `ReadSteps`, with the refusals that they give. The older
/// root counts for nothing, whatever the newer one's image is.
pub fn read_state<A: Allocator + Clone, D: Disk>(
    alloc: A,
    global: Global,
    disk: &mut D,
) -> Result<State<A>, Refusal>
    ensures size { D.size disk.new ≡ D.size disk.old }
    ensures same { D.tells → D.contents disk.new ≡ D.contents disk.old }
    ensures fits { IfOk result (λ state. FitsDevice (D.size disk.old) state.root state.tree state.used.items) }
    ensures read { D.tells → IfOk result (λ state. RepresentsState (map newest (D.contents disk.old))
        state.root state.tree state.dirty state.used.items) }
    ensures refused { D.tells → IfErr result (IsRefusedBy (map newest (D.contents disk.old))) }
    ensures kinds { IfErr result IsOfReading }
    ensures no_fault { D.tells → OnOk result (D.faults disk.new ≡ D.faults disk.old) }
    ensures cause { D.tells → IfErr result (λ refusal. CountsFault refusal (D.faults disk.old) (D.faults disk.new)) }
{
    let mut steps = ReadSteps::new(alloc, global);
    loop {
        match steps {
            ReadSteps::Done(state) => return Ok(state),
            left => steps = left.next(disk)?,
        }
    }
}
