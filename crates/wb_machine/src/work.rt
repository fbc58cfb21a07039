//! What is left of what an actor was told to do.

ghost use Rattle.std.specs.Prelude.{◌≡◌};
ghost use Rattle.wb_tasks.specs.Plan.{Plan, want, after, MayCome};

use std::marker::Model;
use wb_flow::CommitTask;
use wb_tasks::{BlockTask, Got, Steps, Task, Want};

#[derive(Drop)]
enum Kind {
    OnBlock(BlockTask),
    Commits(CommitTask),
}

/// What is left of a read, a write, a flush, a suspend, an invalidation or a migration.
#[derive(Drop)]
pub struct Work {
    kind: Kind,
}

impl Model for Work {
    ghost use Rattle.wb_tasks.specs.Plan.{Plan};

    ghost Value = { Plan };

    ghost use Rattle.wb_machine.specs.Works.{plan_left};

    ghost view = { λ w. plan_left w.kind };
}

impl Work {
    /// A read, a write, an invalidation or a migration.
    pub(crate) fn on_block(task: BlockTask) -> Work
        ensures { result ≡ task }
    {
        Work {
            kind: Kind::OnBlock(task),
        }
    }

    /// A flush or a suspend.
    pub(crate) fn commits(task: CommitTask) -> Work
        ensures { result ≡ task }
    {
        Work {
            kind: Kind::Commits(task),
        }
    }

    /// The next step, or the answer.
    pub fn want(&self) -> Want
        ensures { result ≡ want self.now }
    {
        match &self.kind {
            Kind::OnBlock(task) => task.want(),
            Kind::Commits(task) => task.want(),
        }
    }
}

impl Task for Work {
    ghost plan = { λ w. w };

    fn next(&mut self, got: Got) -> Want {
        match &mut self.kind {
            Kind::OnBlock(task) => task.next(got),
            Kind::Commits(task) => task.next(got),
        }
    }
}
