//! What stands over the devices of a machine.

ghost use Rattle.std.specs.Prelude.{◌≡◌};

use crate::member::Member;
use crate::opener::Opener;
use crate::target::Target;
use std::mem;

/// Nothing, an opening at work, or a target that was opened, and what each actor is at over it.
#[derive(Drop)]
pub enum Phase {
    Closed,
    Underway(Opener),
    Standing(Target, Vec<Member>),
}

/// This in place of what stands, which is let go.
pub(crate) fn put(phase: &mut Phase, next: Phase)
    ensures { phase.new ≡ next }
{
    let_go(mem::replace(phase, next));
}

/// What stood is let go, part by part: that all of it is let go at once is dear to prove.
pub(crate) fn let_go(phase: Phase) {
    match phase {
        Phase::Closed => {}
        Phase::Underway(opener) => let_opener_go(opener),
        Phase::Standing(target, _) => let_target_go(target),
    }
}

fn let_opener_go(opener: Opener) {
    let Opener { opening, made, .. } = opener;
    let _ = opening.geometry;
    if let Some(made) = made {
        let_target_go(made.target);
    }
}

fn let_target_go(target: Target) {
    let _ = target.failed;
}
