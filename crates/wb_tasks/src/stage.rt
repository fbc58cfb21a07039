//! A task from its first step to its answer.

ghost use Rattle.std.specs.Prelude.{◌+◌, ◌≤◌, List, length};
ghost use Rattle.wb_tasks.specs.Plan.{Fits, IsStep};
ghost use Rattle.wb_tasks.specs.Run.{IsRunOf, Leads};
ghost use Rattle.wb_tasks.specs.Ready.{StaysReady};
ghost use Rattle.wb_tasks.specs.Length.{longest};
ghost use Rattle.wb_tasks.specs.declared.step.Want.{Want as WantTerm};
ghost use Rattle.wb_tasks.specs.declared.step.Got.{Got as GotTerm};

use crate::step::{Answer, Got, Want};
use crate::task::Task;

/// What performs steps.
pub trait Stage {
    /// Whether it can perform this step now.
    ghost ready: { Self → WantTerm → Type 0 };

    /// What one step did: the stage before it, the step, its result, the stage after it.
    ghost led: { Self → WantTerm → GotTerm → Self → Type 0 };

    /// Performs one step.
    fn perform(&mut self, want: &Want) -> Got
        requires step { IsStep want.now }
        requires ready { ready self.old want.now }
        ensures kind { Fits want.now result }
        ensures led { led self.old want.now result self.new };
}

/// Performs a task's steps up to its answer, on a stage that is ready for each as it comes. Counted with the answer
/// they are no more than `longest` says.
pub fn drive<T: Task, S: Stage>(task: &mut T, stage: &mut S) -> Answer
    requires { StaysReady S.ready S.led (T.plan task.old) stage.old }
    ensures run { (steps : List (WantTerm × GotTerm)) × (length steps + 1 ≤ longest (T.plan task.old)) × IsRunOf (T.plan task.old) steps result × Leads S.led stage.old steps stage.new }
{
    let mut want = task.next(Got::Begin);
    loop {
        if let Want::End(answer) = want {
            return answer;
        }
        let got = stage.perform(&want);
        want = task.next(got);
    }
}
