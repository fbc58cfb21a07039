//! The steps of an opening that read metadata, and what it is to write of them.

ghost use Rattle.std.specs.Prelude.{◌≡◌, ℕ, Some, None, IfSome};
ghost use Rattle.std.specs.declared.alloc.Global.{Global as GlobalValue};
ghost use Rattle.wb_tasks.specs.Plan.{Fits};
ghost use Rattle.wb_tasks.specs.declared.step.Want.TheVariants.{Device};
ghost use Rattle.wb_tasks.specs.declared.step.DeviceStep.TheVariants.{ReadMetadata};
ghost use Rattle.wb_tasks.specs.declared.step.Got.TheVariants.{More};
ghost use Rattle.wb_disk.specs.Extents.{Reading, MayLand};
ghost use Rattle.wb_meta.specs.Reads.{AreStepsOn, IsDone, known_root};
ghost use Rattle.wb_meta.specs.declared.read_steps.ReadSteps.{ReadSteps as Steps};
ghost use Rattle.wb_meta.specs.States.{IsOfReading};
ghost use Rattle.wb_devices.specs.Openings.{MayGoOn};
ghost use Rattle.wb_devices.specs.Opened.{HasCome, HasGeneration, ReadsOf, got_of_refusal};
ghost use Rattle.wb_devices.specs.Clean.{DidOpenIn, DidTell};
ghost use Rattle.wb_meta.specs.Sizes.{AreSameSizes};
ghost use Rattle.wb_meta.specs.declared.read_steps.ReadSteps.TheVariants.{Done as AllRead};

use crate::converting::convert;
use crate::opening::Opening;
use crate::running::RunningCommit;
use crate::sizes::{are_same_sizes, is_served_by};
use std::alloc::Global;
use wb_disk::Disk;
use wb_format::Root;
use wb_meta::{ReadSteps, State};
use wb_tasks::Got;
use wb_types::{Mode, Refusal};

impl Opening {
    /// Reads the metadata sector that comes next, for an opening in this mode; at most so many more may be read or written. Once both slots
    /// were read, the sizes of the root of higher generation are compared with the geometry's, and its tree is read; when all was read, the
    /// commit of the next root is there. Where metadata of the first version were read and the second is asked for, that of an image is, and
    /// its nodes are to be written, so many.
    ///
    /// In passthrough `NotClean` where all was read and was not left clean. `NotFormatted`, `Mismatch`, `Damaged` and `Memory` as wb_meta says, `Mismatch` also where
    /// the newest root is of other sizes, `GenerationEnd` where there is no next generation, `Memory` also where there is none for the image. A
    /// fault where the device failed, the opening was over, or no further sector was allowed.
    #[tactic(auto, using(crate::proofs::Cleaning::did_open, crate::proofs::Stopping::did_tell, crate::proofs::Stopping::never_stops))]
    pub fn read<D: Disk>(&mut self, mode: Mode, disk: &mut D, left: u32) -> Got
        requires goes_on { MayGoOn (D.size disk.old) self.old }
        ensures goes_on { MayGoOn (D.size disk.old) self.new }
        ensures kind { Fits (Device (ReadMetadata left)) result }
        ensures size { D.size disk.new ≡ D.size disk.old }
        ensures same { D.tells → D.contents disk.new ≡ D.contents disk.old }
        ensures geometry { self.new.geometry ≡ self.old.geometry }
        ensures did { DidOpenIn mode D.tells self.old.geometry left self.old.reading (D.contents disk.old) (D.faults disk.old) self.old.commit result self.new.reading (D.faults disk.new) self.new.commit }

        // Where the disk cannot fail to read, what stands there is told.
        ensures told { (was : Steps GlobalValue) → D.tells → (MayLand (D.falters disk.old Reading) → ⊥) → self.old.reading ≡ Some was → DidTell mode self.old.geometry (D.size disk.old) left was (D.contents disk.old) self.old.commit result self.new.reading self.new.commit }
    {
        let Some(steps) = self.reading.take() else {
            return Got::Fault;
        };
        match steps.next(disk) {
            Ok(steps) => self.has_come_in(mode, steps, left),
            Err(refusal) => got_of_refusal(refusal, left),
        }
    }

    /// What becomes of a reading that has come so far.
    #[tactic(auto, using(crate::proofs::Stopping::no_root, crate::proofs::Stopping::not_done))]
    pub(crate) fn has_come(&mut self, steps: ReadSteps<Global>, left: u32) -> Got
        requires none { self.old.reading ≡ None }
        requires on { (sectors : ℕ) × AreStepsOn sectors steps }
        ensures kind { Fits (Device (ReadMetadata left)) result }
        ensures geometry { self.new.geometry ≡ self.old.geometry }
        ensures on { (sectors : ℕ) → AreStepsOn sectors steps → IfSome self.new.reading (AreStepsOn sectors) }
        ensures come { HasCome self.old.geometry left steps self.old.commit result self.new.reading self.new.commit }
        ensures generation { HasGeneration self.old.commit → HasGeneration self.new.commit }
        ensures more { result ≡ More → ¬ IsDone steps }
    {
        match steps.root() {
            Some(root) => self.has_found(steps, root, left),
            None => self.goes_on(steps, left),
        }
    }

    /// What becomes of a reading whose root is this.
    #[tactic(auto, using(crate::proofs::Stopping::of_root))]
    fn has_found(&mut self, steps: ReadSteps<Global>, root: Root, left: u32) -> Got
        requires none { self.old.reading ≡ None }
        requires on { (sectors : ℕ) × AreStepsOn sectors steps }
        requires newest { known_root steps ≡ Some root }
        ensures kind { Fits (Device (ReadMetadata left)) result }
        ensures geometry { self.new.geometry ≡ self.old.geometry }
        ensures on { (sectors : ℕ) → AreStepsOn sectors steps → IfSome self.new.reading (AreStepsOn sectors) }
        ensures come { HasCome self.old.geometry left steps self.old.commit result self.new.reading self.new.commit }
        ensures generation { HasGeneration self.old.commit → HasGeneration self.new.commit }
        ensures more { result ≡ More → ¬ IsDone steps }
    {
        if !are_same_sizes(root.geometry, self.geometry) {
            return Got::Refused(Refusal::Mismatch);
        }
        match steps {
            ReadSteps::Done(state) => self.has_read(state, left),
            more => self.goes_on(more, left),
        }
    }

    /// What becomes of a reading that is not done, as far as is known.
    fn goes_on(&mut self, steps: ReadSteps<Global>, left: u32) -> Got
        requires none { self.old.reading ≡ None }
        requires fits { ReadsOf self.old.geometry steps }
        requires more { ¬ IsDone steps }
        ensures kind { Fits (Device (ReadMetadata left)) result }
        ensures geometry { self.new.geometry ≡ self.old.geometry }
        ensures on { (sectors : ℕ) → AreStepsOn sectors steps → IfSome self.new.reading (AreStepsOn sectors) }
        ensures come { HasCome self.old.geometry left steps self.old.commit result self.new.reading self.new.commit }
        ensures generation { HasGeneration self.old.commit → HasGeneration self.new.commit }
        ensures more { result ≡ More → ¬ IsDone steps }
    {
        if left < 1 {
            return Got::Fault;
        }
        self.reading = Some(steps);
        Got::More
    }

    /// What becomes of a state, all of which was read. One of the first version, where the second is asked for, is known as the second has
    /// it, and the commit of its image is there.
    fn has_read(&mut self, state: State<Global>, left: u32) -> Got
        requires none { self.old.reading ≡ None }
        requires on { (sectors : ℕ) × AreStepsOn sectors (AllRead state) }
        requires sizes { AreSameSizes state.root.geometry self.old.geometry }
        ensures kind { Fits (Device (ReadMetadata left)) result }
        ensures geometry { self.new.geometry ≡ self.old.geometry }
        ensures on { (sectors : ℕ) → AreStepsOn sectors (AllRead state) → IfSome self.new.reading (AreStepsOn sectors) }
        ensures come { HasCome self.old.geometry left (AllRead state) self.old.commit result self.new.reading self.new.commit }
        ensures generation { HasGeneration self.old.commit → HasGeneration self.new.commit }
        ensures more { result ≡ More → ⊥ }
    {
        if is_served_by(state.root.geometry, self.geometry) {
            return match RunningCommit::opening(self.alloc, &state.root) {
                Ok(commit) => {
                    self.reading = Some(ReadSteps::Done(state));
                    self.commit = Some(commit);
                    Got::Done
                }
                Err(refusal) => Got::Refused(refusal),
            };
        }
        if left < self.geometry.node_count() {
            return Got::Fault;
        }
        match convert(self.alloc, self.alloc, state, &self.geometry) {
            Ok((converted, image)) => {
                let nodes = image.nodes.len() as u32;
                self.reading = Some(ReadSteps::Done(converted));
                self.commit = Some(RunningCommit::new(image));
                Got::Began(nodes)
            }
            Err(refusal) => Got::Refused(refusal),
        }
    }
}

/// A device that failed is a fault, anything else a refusal.
#[tactic(auto, using(crate::proofs::Stopping::fits_reading))]
pub(crate) fn got_of_refusal(refusal: Refusal, left: u32) -> Got
    requires { IsOfReading refusal }
    ensures kind { Fits (Device (ReadMetadata left)) result }
    ensures is { result ≡ got_of_refusal refusal }
{
    let _ = left;
    match refusal {
        Refusal::Io(_) => Got::Fault,
        _ => Got::Refused(refusal),
    }
}
