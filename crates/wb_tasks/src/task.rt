//! What a task is.

ghost use Rattle.std.specs.Prelude.{◌≡◌};
ghost use Rattle.wb_tasks.specs.Plan.{Plan, want, after, MayCome, Fits, IsRare};

use crate::step::{Got, Want};
use wb_types::Refusal;

/// A request as the list of steps that are left of it.
pub trait Task {
    /// What is left.
    ghost plan: { Self → Plan };

    /// The next step, after what came of the one before; `Got::Begin` before the first.
    fn next(&mut self, got: Got) -> Want
        requires { MayCome (plan self.old) got }
        ensures left { plan self.new ≡ after (plan self.old) got }
        ensures want { result ≡ want (plan self.new) };
}

/// A request by its next step and what each kind of result leaves of it. It is a task.
pub trait Steps {
    /// What is left.
    ghost left: { Self → Plan };

    /// The next step, or the answer.
    fn want(&self) -> Want
        ensures { result ≡ want (left self.now) };

    /// What is left after a word was looked at.
    fn after_look(&mut self, word: u64)
        requires { Fits (want (left self.old)) (Got.Word word) }
        ensures { left self.new ≡ after (left self.old) (Got.Word word) };

    /// What is left after a step was done.
    fn after_done(&mut self)
        requires { Fits (want (left self.old)) Got.Done }
        ensures { left self.new ≡ after (left self.old) Got.Done };

    /// What is left after a fault.
    fn after_fault(&mut self)
        requires { Fits (want (left self.old)) Got.Fault }
        ensures { left self.new ≡ after (left self.old) Got.Fault };

    /// What is left after the desk refused, or what was read of the metadata is no mapping.
    fn after_refusal(&mut self, refusal: Refusal)
        requires { Fits (want (left self.old)) (Got.Refused refusal) }
        ensures { left self.new ≡ after (left self.old) (Got.Refused refusal) };

    /// What is left after a result that few steps have: an exchange was lost, a commit or the image of an opening began, a ticket was given or
    /// served, or there is more of the metadata to read.
    fn after_rare(&mut self, got: Got)
        requires rare { IsRare got }
        requires fits { Fits (want (left self.old)) got }
        ensures { left self.new ≡ after (left self.old) got };
}

impl<S: Steps> Task for S {
    ghost plan = { S.left };

    fn next(&mut self, got: Got) -> Want {
        match got {
            Got::Begin => {}
            Got::Word(word) => self.after_look(word),
            Got::Done => self.after_done(),
            Got::Fault => self.after_fault(),
            Got::Refused(refusal) => self.after_refusal(refusal),
            Got::Lost | Got::Began(_) | Got::Ticket | Got::Served | Got::More => {
                self.after_rare(got);
            }
        }
        self.want()
    }
}
