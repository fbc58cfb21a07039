//! Whether a migration threshold lets blocks move.

ghost use Rattle.std.specs.Prelude.{◌≡◌, IfSome, IfNone, Some, None, unwrap_or};
ghost use Rattle.wb_checks.specs.Thresholds.{least_for, what_stops};

use std::fmt;
use std::fmt::{Display, Formatter};
use wb_table::PolicyName;
use wb_types::Mode;

/// The sectors of a threshold that no table gives.
const DEFAULT: u64 = 2048;

/// What never happens under a threshold.
#[derive(Clone, Copy, PartialEq, Eq)]
pub enum Stopped {
    /// No block is cached.
    Caching,
    /// No block of a full cache is replaced.
    Replacing,
    /// No block is written back.
    WritingBack,
}

/// A threshold that stops something, in sectors, the sectors of a block, and what it stops.
#[derive(Clone, Copy, PartialEq, Eq)]
pub struct ThresholdNotice {
    pub threshold: u64,
    pub block: u32,
    pub stopped: Stopped,
}

/// What never happens with this threshold, 2,048 sectors where none is given, and blocks of so many sectors; none where all that the policy
/// orders in this mode fits.
///
/// A policy that caches orders a block's sectors to cache one, and two blocks' to replace one. Cleaner orders a block's to write one back.
pub fn threshold_notice(
    mode: Mode,
    policy: PolicyName,
    block: u32,
    threshold: Option<u64>,
) -> Option<ThresholdNotice>
    ensures none { IfNone result (what_stops mode policy block (unwrap_or threshold 2048) ≡ None) }
    ensures stopped { IfSome result (λ notice. what_stops mode policy block (unwrap_or threshold 2048) ≡ Some notice.stopped) }
    ensures says { IfSome result (λ notice. (notice.threshold ≡ unwrap_or threshold 2048) × (notice.block ≡ block)) }
{
    let threshold = threshold.unwrap_or(DEFAULT);
    let stopped = what_stops(mode, policy, block, threshold)?;
    Some(ThresholdNotice {
        threshold,
        block,
        stopped,
    })
}

/// What never happens with blocks of so many sectors and this threshold.
fn what_stops(mode: Mode, policy: PolicyName, block: u32, threshold: u64) -> Option<Stopped>
    ensures { result ≡ what_stops mode policy block threshold }
{
    let (one, two) = (u64::from(block), 2 * u64::from(block));
    match (mode, policy) {
        (Mode::Passthrough, _) => None,
        (_, PolicyName::TinyLfu) if threshold < one => Some(Stopped::Caching),
        (_, PolicyName::TinyLfu) if threshold < two => Some(Stopped::Replacing),
        (_, PolicyName::Cleaner) if threshold < one => Some(Stopped::WritingBack),
        _ => None,
    }
}

impl ThresholdNotice {
    /// The least threshold, in sectors, that stops nothing.
    pub fn least(&self) -> u64
        ensures { result ≡ least_for self.now.stopped self.now.block }
    {
        match self.stopped {
            Stopped::Caching | Stopped::Replacing => 2 * u64::from(self.block),
            Stopped::WritingBack => u64::from(self.block),
        }
    }
}

impl Display for ThresholdNotice {
    fn fmt<W: fmt::Write>(&self, f: &mut Formatter<W>) -> fmt::Result {
        let (threshold, block, least) = (self.threshold, self.block, self.least());
        write!(
            f,
            "with migration_threshold {threshold} no block of {block} sectors "
        )?;
        match self.stopped {
            Stopped::Caching => write!(f, "is cached")?,
            Stopped::Replacing => write!(f, "is replaced once the cache is full")?,
            Stopped::WritingBack => write!(f, "is written back")?,
        }
        write!(f, ": give the table 'migration_threshold {least}' or more")
    }
}
