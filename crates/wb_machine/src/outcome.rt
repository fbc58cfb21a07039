//! What an event did, and what it read.

ghost use Rattle.std.specs.Prelude.{◌≡◌, []};
ghost use Rattle.wb_promise.specs.declared.event.What.TheVariants.{Skipped};

use std::alloc::Global;
use wb_promise::What;
use wb_types::Content;

/// What an event did, and what it read.
#[derive(Drop)]
pub(crate) struct Outcome {
    pub(crate) what: What,
    pub(crate) read: Vec<Content>,
}

impl Outcome {
    /// Of an event that read nothing.
    pub(crate) fn told(alloc: Global, what: What) -> Outcome
        ensures what { result.what ≡ what }
        ensures read { result.read.items ≡ [] }
    {
        Outcome {
            what,
            read: Vec::new(alloc),
        }
    }

    /// Of one that does not apply.
    pub(crate) fn skipped(alloc: Global) -> Outcome
        ensures what { result.what ≡ Skipped }
        ensures read { result.read.items ≡ [] }
    {
        Outcome::told(alloc, What::Skipped)
    }
}
