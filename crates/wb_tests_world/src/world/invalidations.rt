//! Invalidations, which no line of a replay starts.

use super::line::{
    Act, BLOCK, DONE, Line, OPEN, OPEN_THROUGH, OWN_NO_MORE, PASS, PROMOTE, Row, SUSPEND,
};
use wb_promise::What;
use wb_tasks::{CellStep, DeskStep, Want};
use wb_types::{OBlock, Refusal};

const UNMAP: Want = Want::Desk(DeskStep::Unmap(BLOCK));

const SEAL_HOME: Want = Want::Cell(CellStep::Seal(BLOCK, None, false));

pub const INVALIDATIONS: [&Row; 2] = [
    &(
        "an invalidation takes a block out of the cache without a copy",
        &[
            Line::Finishes(&[OPEN, PROMOTE, SUSPEND, PASS]),
            Line::Opened(3, 1, 0),
            Line::Does(Act::Invalidate(1, BLOCK), What::Started),
            Line::Owns(1, 2, 0),
            Line::Takes(1, &[UNMAP, SEAL_HOME, OWN_NO_MORE, DONE]),
            Line::Opened(3, 0, 0),
        ],
    ),
    &(
        "one starts in passthrough alone, and not of a block that is not there",
        &[
            Line::Finishes(&[OPEN]),
            Line::Does(Act::Invalidate(1, BLOCK), What::Skipped),
            Line::Finishes(&[SUSPEND, OPEN_THROUGH]),
            Line::Does(Act::Invalidate(1, BLOCK), What::Skipped),
            Line::Finishes(&[SUSPEND, PASS]),
            Line::Does(
                Act::Invalidate(1, OBlock(10)),
                What::Refused(Refusal::Range),
            ),
            Line::Finishes(&[Act::Invalidate(1, OBlock(9))]),
        ],
    ),
];
