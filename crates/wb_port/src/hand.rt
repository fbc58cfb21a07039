//! What a client steps with.

ghost use Rattle.std.specs.Prelude.{◌≡◌, length};
ghost use Rattle.wb_tasks.specs.Plan.{device_of};
ghost use Rattle.wb_tasks.specs.declared.step.Got.TheVariants.{Fault};
ghost use Rattle.wb_devices.specs.Moving.{IsOutcome, DidRead, DidWrite, OthersStay, device_in};
ghost use Rattle.wb_devices.specs.Stepping.{CommitGoes, DidStep, BufferStays};
ghost use Rattle.wb_words.specs.SharedWords.{IsWord};
ghost use Rattle.wb_words.specs.Ready.{IsReady};
ghost use Rattle.wb_words.specs.Cards.{looked};
ghost use Rattle.wb_cells.specs.Passes.{StepsBy};
ghost use Rattle.wb_port.specs.Moves.{MayRead, MayWrite, MayPerform};

use wb_cells::{Cells, Pass, Word};
use wb_devices::{Devices, RunningCommit};
use wb_disk::Disk;
use wb_tasks::{CellResult, CellStep, DeviceStep, Got};
use wb_types::{Content, Dev, Extent, Mode};

/// What a client steps with: a pass, which knows what it has done to the shared words, and three devices of its own. Both are
/// reached by its calls alone: a pass stays with its devices, and these move no extent but of a block that the pass has.
pub struct Hand<D> {
    pass: Pass,
    /// How many sectors a block has.
    block_sectors: u32,
    /// In which mode blocks are read and written.
    pub(crate) mode: Mode,
    devices: Devices<D>,
}

impl<D: Drop> Drop for Hand<D> {
    fn drop(self) {
        let Hand {
            pass,
            block_sectors: _,
            mode: _,
            devices,
        } = self;
        drop(pass);
        drop(devices);
    }
}

impl<D: Disk> Hand<D> {
    pub fn new(block_sectors: u32, mode: Mode, pass: Pass, devices: Devices<D>) -> Hand<D>
        ensures pass { result.pass ≡ pass }
        ensures size { result.block_sectors ≡ block_sectors }
        ensures mode { result.mode ≡ mode }
        ensures devices { result.devices ≡ devices }
    {
        Hand {
            pass,
            block_sectors,
            mode,
            devices,
        }
    }

    /// In which mode it reads and writes.
    pub fn mode(&self) -> Mode
        ensures { result ≡ self.now.mode }
    {
        self.mode
    }

    /// The pass and the devices.
    pub fn apart(self) -> (Pass, Devices<D>)
        ensures pass { result.0 ≡ self.pass }
        ensures devices { result.1 ≡ self.devices }
    {
        let Hand {
            devices,
            pass,
            mode: _,
            block_sectors: _,
        } = self;
        (pass, devices)
    }

    /// Reads an extent of the block that the pass has, where its mode has it read, to the front of these contents.
    pub fn read(&mut self, device: Dev, extent: Extent, into: &mut [Content]) -> Got
        requires held { MayRead self.old.mode self.old.block_sectors self.old.pass.card device extent }
        ensures kind { IsOutcome result }
        ensures many { length into.new ≡ length into.old }
        ensures pass { self.new.pass ≡ self.old.pass }
        ensures block { self.new.block_sectors ≡ self.old.block_sectors }
        ensures mode { self.new.mode ≡ self.old.mode }
        ensures others { OthersStay device self.old.devices self.new.devices }
        ensures size { D.size (device_in device self.new.devices) ≡ D.size (device_in device self.old.devices) }
        ensures did { D.tells → DidRead extent result (D.size (device_in device self.old.devices)) (D.contents (device_in device self.old.devices)) (D.faults (device_in device self.old.devices)) into.new (D.contents (device_in device self.new.devices)) (D.faults (device_in device self.new.devices)) }
        ensures fails { D.fails (device_in device self.old.devices) → result ≡ Fault }
    {
        self.devices.read(device, extent, into)
    }

    /// Writes an extent of the block that the pass owns, where its mode has it written, from the front of these contents.
    pub fn write(&mut self, device: Dev, extent: Extent, from: &[Content]) -> Got
        requires owned { MayWrite self.old.mode self.old.block_sectors self.old.pass.card device extent }
        ensures kind { IsOutcome result }
        ensures pass { self.new.pass ≡ self.old.pass }
        ensures block { self.new.block_sectors ≡ self.old.block_sectors }
        ensures mode { self.new.mode ≡ self.old.mode }
        ensures others { OthersStay device self.old.devices self.new.devices }
        ensures size { D.size (device_in device self.new.devices) ≡ D.size (device_in device self.old.devices) }
        ensures did { D.tells → DidWrite extent result (D.size (device_in device self.old.devices)) from.now (D.contents (device_in device self.old.devices)) (D.faults (device_in device self.old.devices)) (D.contents (device_in device self.new.devices)) (D.faults (device_in device self.new.devices)) }
        ensures fails { D.fails (device_in device self.old.devices) → result ≡ Fault }
    {
        self.devices.write(device, extent, from)
    }

    /// One step of the pass on its words.
    #[inline(always)]
    pub fn step(&mut self, cells: &Cells, step: CellStep) -> CellResult
        requires at { self.old.pass.table ≡ cells.now.table }
        requires ready { IsReady cells.now.blocks self.old.pass.card step }
        ensures step { StepsBy cells.now.blocks self.old.pass step result self.new.pass }
        ensures hand { self.new ≡ record self.old { pass = self.new.pass } }
    {
        cells.step(&mut self.pass, step)
    }

    /// One look of the pass at a word.
    #[inline(always)]
    pub fn look(&mut self, cells: &Cells, word: Word) -> u64
        requires at { self.old.pass.table ≡ cells.now.table }
        requires word { IsWord cells.now.blocks word }
        ensures { self.new ≡ record self.old { pass = record self.old.pass { card = looked word result self.old.pass.card } } }
    {
        cells.look(&mut self.pass, word)
    }

    /// Performs a device step of a migration or a flush, by what the buffer holds and the commit that runs: a copy from or to the
    /// block that the pass owns, a sync, or a node or root of the commit once what it names is durable.
    pub fn perform(
        &mut self,
        step: DeviceStep,
        commit: &mut Option<RunningCommit>,
        buffer: &mut [Content],
    ) -> Got
        requires may { MayPerform D.tells D.contents self.old.block_sectors self.old.pass.card self.old.devices commit.old step }
        ensures kind { IsOutcome result }
        ensures pass { self.new.pass ≡ self.old.pass }
        ensures block { self.new.block_sectors ≡ self.old.block_sectors }
        ensures mode { self.new.mode ≡ self.old.mode }
        ensures others { OthersStay (device_of step) self.old.devices self.new.devices }
        ensures size { D.size (device_in (device_of step) self.new.devices) ≡ D.size (device_in (device_of step) self.old.devices) }
        ensures buffer { BufferStays step buffer.old buffer.new }
        ensures did { D.tells → DidStep commit.old step result (D.size (device_in (device_of step) self.old.devices)) (D.contents (device_in (device_of step) self.old.devices)) (D.faults (device_in (device_of step) self.old.devices)) buffer.old buffer.new (D.contents (device_in (device_of step) self.new.devices)) (D.faults (device_in (device_of step) self.new.devices)) }
        ensures goes { CommitGoes (D.size self.old.devices.metadata) commit.old step result commit.new }
        ensures fails { D.fails (device_in (device_of step) self.old.devices) → result ≡ Fault }
    {
        self.devices.perform(commit, step, buffer)
    }
}
