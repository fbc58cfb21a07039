//! Steps of an actor over a target, on the shared words, on devices and on the desk.

ghost use Rattle.std.specs.Prelude.{◌≡◌, ◌<◌, length, IfOk, IfErr, OnErr};
ghost use Rattle.wb_types.specs.declared.refusal.Refusal.TheVariants.{Memory};
ghost use Rattle.wb_words.specs.SharedWords.{flag};
ghost use Rattle.wb_words.specs.Effects.{result_of};
ghost use Rattle.wb_words.specs.Ready.{IsReady};
ghost use Rattle.wb_cells.specs.Crews.{card_of, crew_after};
ghost use Rattle.wb_tasks.specs.Plan.{Fits, IsStep, got_of};
ghost use Rattle.wb_tasks.specs.Ready.{MayTake};
ghost use Rattle.wb_tasks.specs.declared.step.Want.TheVariants.{Cell as OnCell};
ghost use Rattle.wb_promise.specs.Happenings.{Awaits};
ghost use Rattle.wb_machine.specs.Life.{contents_of};
ghost use Rattle.wb_machine.specs.Serving.{Allows, IsPossible, Performs, sets_bit, share_after};

use crate::asking::ask;
use crate::moving::do_step;
use crate::target::Target;
use std::alloc::Global;
use wb_devices::Devices;
use wb_disk::MemDisk;
use wb_policy::Order;
use wb_promise::Job;
use wb_stage::Share;
use wb_tasks::{Got, Want};
use wb_types::{Content, Refusal};
use wb_words::CellStep;

impl Target {
    /// One step of an actor on a job, which may give up one of these orders, has seen these dirty bits, and has this of the commits that
    /// others lead; what it gave, and what it read. `Memory` where what is read, or what a write adds, wants more than there is; then
    /// no content has changed.
    pub(crate) fn perform(
        &mut self,
        actor: usize,
        alloc: Global,
        devices: &mut Devices<MemDisk>,
        job: &Job,
        held: &[Order],
        seen: &[bool],
        share: &mut Share,
        buffer: &[Content],
        want: Want,
    ) -> Result<(Got, Vec<Content>), Refusal>
        requires actor { actor < length self.old.crew.cards }
        requires failed { self.old.failed ≡ flag self.old.crew.words.fail }
        requires ready { MayTake self.old.crew.blocks (card_of self.old.crew actor) want }
        requires possible { IsPossible (contents_of devices.old) self.old.commit job.now want }
        requires enough { Allows self.old.desk.geometry seen.now want }
        requires goes_on { ¬ Awaits self.old.desk share.old want }
        ensures ok { IfOk result (λ given. Performs (contents_of devices.old) self.old actor job.now held.now seen.now share.old buffer.now want given.0 given.1.items (contents_of devices.new) self.new) }
        ensures share { IfOk result (λ given. share.new ≡ share_after self.old.desk share.old want given.0) }
        ensures kind { IfOk result (λ given. IsStep want → Fits want given.0) }
        ensures size { length devices.new.metadata.contents ≡ length devices.old.metadata.contents }
        ensures err { OnErr result ((contents_of devices.new ≡ contents_of devices.old) × (self.new ≡ self.old) × (share.new ≡ share.old)) }
        ensures refusal { IfErr result (λ refusal. refusal ≡ Memory) }
    {
        match want {
            Want::Cell(step) => Ok((self.take(actor, step), Vec::new(alloc))),
            Want::Device(step) => {
                let read = do_step(alloc, devices, &mut self.commit, job, buffer, step)?;
                Ok((Got::Done, read))
            }
            Want::Desk(step) => {
                let got = ask(
                    alloc,
                    &mut self.desk,
                    &mut self.commit,
                    held,
                    seen,
                    share,
                    step,
                );
                Ok((got, Vec::new(alloc)))
            }
            Want::End(_) => Ok((Got::Done, Vec::new(alloc))),
        }
    }

    /// A step of an actor on the shared words, and what it gave.
    fn take(&mut self, actor: usize, step: CellStep) -> Got
        requires actor { actor < length self.old.crew.cards }
        requires failed { self.old.failed ≡ flag self.old.crew.words.fail }
        requires ready { IsReady self.old.crew.blocks (card_of self.old.crew actor) step }
        ensures gives { result ≡ got_of (result_of self.old.crew.words step) }
        ensures kind { Fits (OnCell step) result }
        ensures crew { self.new.crew ≡ crew_after self.old.crew actor step }
        ensures desk { self.new.desk ≡ self.old.desk }
        ensures commit { self.new.commit ≡ self.old.commit }
        ensures failed { self.new.failed ≡ flag self.new.crew.words.fail }
    {
        self.failed = self.failed || sets_bit(step);
        Got::from(self.crew.step(actor, step))
    }
}

/// Whether a step sets a bit of the fail word.
fn sets_bit(step: CellStep) -> bool
    ensures { result ≡ sets_bit step }
{
    matches!(step, CellStep::SetFailed | CellStep::SetSuspended)
}
