//! A target that stands.

use crate::known_crew::KnownCrew;
use wb_desk::Desk;
use wb_devices::RunningCommit;
use wb_policy::Quiet;

/// What stands from an opening's answer to a crash or the next opening's start: the shared words, with a card for each actor, a
/// desk whose policy orders nothing, and the commit that runs, if one does that no fault has stopped.
pub struct Target {
    pub crew: KnownCrew,
    pub desk: Desk<Quiet>,
    /// Whether a bit of the fail word is set.
    pub failed: bool,
    pub commit: Option<RunningCommit>,
}

impl Drop for Target {
    fn drop(self) {
        let Target {
            crew,
            desk,
            failed: _,
            commit,
        } = self;
        drop(crew);
        drop(desk);
        drop(commit);
    }
}
