//! How a run of the program ended.

ghost use Rattle.std.specs.Prelude.{◌≡◌, ◌<◌, ◌⊎◌, Some, None, IfSome, IfNone, IfOk, IfErr, OnOk};
ghost use Rattle.wb_types.specs.declared.refusal.Refusal.{Refusal as RefusalTerm};
ghost use Rattle.wb_dialogue.specs.Exit.{code_of, status_of};

use crate::reason::Reason;
use std::alloc::Global;
use std::io::Write;
use wb_dialogue::{Status, StreamFailed, exit_code, refuse};
use wb_opened::Unserved;
use wb_play::Played;

/// The exit status, and why it is not 0 as far as that is known.
#[derive(Drop)]
pub struct Ended<'a> {
    pub code: u8,
    pub reason: Option<Reason<'a>>,
}

impl<'a> Ended<'a> {
    /// An end that has this reason, unless a stream failed: that is the reason then.
    pub fn new(ended: Result<Status, StreamFailed>, reason: Option<Reason<'a>>) -> Ended<'a>
        ensures code { IfOk ended (λ status. result.code ≡ code_of status) }
        ensures told { OnOk ended (result.reason ≡ reason.entry) }
        ensures stream { IfErr ended (λ failed. (result.code ≡ 4) × (result.reason ≡ Some (Reason.Stream failed))) }
    {
        let reason = match ended {
            Ok(_) => reason,
            Err(failed) => Some(Reason::Stream(failed)),
        };
        Ended {
            code: exit_code(ended),
            reason,
        }
    }
}

/// Prints a refusal after which nothing else is printed.
pub fn refused<'a, W: Write>(alloc: Global, unserved: Unserved<'a>, writer: &mut W) -> Ended<'a>
    ensures told { (result.reason ≡ Some (Reason.Unserved unserved.entry)) ⊎ (result.code ≡ 4) × (result.reason ≡ Some (Reason.Stream StreamFailed.Writer)) }
    ensures code { (refusal : RefusalTerm) × ((result.code ≡ code_of (status_of refusal)) ⊎ (result.code ≡ 4)) }
{
    let printed = refuse(alloc, unserved.refusal(), writer);
    Ended::new(printed, Some(Reason::Unserved(unserved)))
}

/// The end of a run in which a script was played so, with the refused lines as its reason; where there are none, the writes that were not flushed.
pub fn end_of<'a>(played: Played) -> Ended<'a>
    ensures code { IfOk played.status (λ status. result.code ≡ code_of status) }
    ensures lines { OnOk played.status (IfSome played.tally.first (λ _. result.reason ≡ Some (Reason.Lines played.tally))) }
    ensures unflushed { OnOk played.status (IfNone played.tally.first (0 < played.tally.unflushed → result.reason ≡ Some (Reason.Unflushed played.tally.unflushed))) }
    ensures well { OnOk played.status (IfNone played.tally.first (played.tally.unflushed ≡ 0 → result.reason ≡ None)) }
    ensures stream { IfErr played.status (λ failed. (result.code ≡ 4) × (result.reason ≡ Some (Reason.Stream failed))) }
{
    let Played { status, tally } = played;
    let reason = if tally.first.is_some() {
        Some(Reason::Lines(tally))
    } else if tally.unflushed > 0 {
        Some(Reason::Unflushed(tally.unflushed))
    } else {
        None
    };
    Ended::new(status, reason)
}
