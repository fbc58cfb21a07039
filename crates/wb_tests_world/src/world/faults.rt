//! Steps that fail with a choice that names sectors, as no line of a replay does: which choices apply, and what a crash finds behind them.

use super::line::{
    Act, FAILED, FIRST_READ, FIRST_SECTOR, LOOK_FAIL, Line, METADATA, METADATA_FAILED,
    ORIGIN_FAILED, READ_FIRST, ROOT, Row, SET_FAILED, SHARE_NO_MORE, Task, WRITE_FIRST,
};
use wb_disk::Base;
use wb_promise::What;
use wb_tasks::Got;
use wb_types::{Dev, Mode};

/// Openings of which a step fails.
pub const OPENINGS: [&Row; 4] = [
    &(
        "a failing read names sectors of the metadata, with 0 or 1",
        &[
            Line::Begins(0, Task::Open, 3),
            Line::Does(Act::FaultOf(0, Dev::Cache, 0, 1), What::Skipped),
            Line::Does(Act::FaultOf(0, Dev::Metadata, 4, 1), What::Skipped),
            Line::Does(Act::FaultOf(0, Dev::Metadata, 3, 2), What::Skipped),
            Line::Does(
                Act::FaultOf(0, Dev::Metadata, 3, 0),
                What::Stepped(FIRST_READ, Got::Fault),
            ),
            Line::Takes(0, &[METADATA_FAILED]),
        ],
    ),
    &(
        "a failing sync names sectors of its own device, with 0 or 1",
        &[
            Line::Does(Act::Open(0, Mode::Writeback), What::Started),
            Line::Does(Act::FaultOf(0, Dev::Cache, 0, 1), What::Skipped),
            Line::Does(Act::FaultOf(0, Dev::Metadata, 4, 1), What::Skipped),
            Line::Does(Act::Step(1), What::Skipped),
            Line::Does(Act::FaultOf(0, Dev::Metadata, 3, 2), What::Skipped),
            Line::Does(
                Act::FaultOf(0, Dev::Metadata, 3, 1),
                What::Stepped(METADATA, Got::Fault),
            ),
        ],
    ),
    &(
        "a write of the root that fails has landed where it is said",
        &[
            Line::Begins(0, Task::Open, 5),
            Line::Does(
                Act::FaultOf(0, Dev::Metadata, 1, 1),
                What::Stepped(ROOT, Got::Fault),
            ),
            Line::Does(Act::CrashOf(Dev::Metadata, 1, 2), What::Skipped),
            Line::Takes(0, &[METADATA_FAILED]),
            Line::Does(Act::Step(0), What::Skipped),
            Line::Does(Act::CrashOf(Dev::Metadata, 1, 1), What::Stopped),
        ],
    ),
    &(
        "a write of the root that fails has not landed where it is said",
        &[
            Line::Begins(0, Task::Open, 5),
            Line::Does(Act::FaultOf(0, Dev::Cache, 1, 0), What::Skipped),
            Line::Does(
                Act::FaultOf(0, Dev::Metadata, 1, 0),
                What::Stepped(ROOT, Got::Fault),
            ),
            Line::Does(Act::CrashOf(Dev::Metadata, 1, 1), What::Skipped),
            Line::Takes(0, &[METADATA_FAILED]),
        ],
    ),
];

/// Requests of which the step on a device fails.
pub const REQUESTS: [&Row; 3] = [
    &(
        "a read that fails gives its block back",
        &[
            Line::Begins(0, Task::Open, 8),
            Line::Does(Act::Read(0, FIRST_SECTOR), What::Started),
            Line::Does(Act::Fault(0, Base::Newest), What::Skipped),
            Line::Steps(0, Task::Read, 5),
            Line::Does(Act::FaultOf(0, Dev::Cache, 0, 1), What::Skipped),
            Line::Does(
                Act::Fault(0, Base::Newest),
                What::Stepped(READ_FIRST, Got::Fault),
            ),
            Line::Takes(0, &[SHARE_NO_MORE, ORIGIN_FAILED]),
            Line::Does(Act::Write(0, FIRST_SECTOR), What::Started),
        ],
    ),
    &(
        "a write that fails keeps its block, and fails the target, over which then an opening starts",
        &[
            Line::Begins(0, Task::Open, 8),
            Line::Begins(1, Task::Write, 5),
            Line::Does(
                Act::FaultOf(1, Dev::Origin, 0, 1),
                What::Stepped(WRITE_FIRST, Got::Fault),
            ),
            Line::Does(Act::Open(2, Mode::Writeback), What::Skipped),
            Line::Takes(1, &[SET_FAILED, ORIGIN_FAILED]),
            Line::Does(Act::Read(2, FIRST_SECTOR), What::Started),
            Line::Sees(2, &[(LOOK_FAIL, 1)]),
            Line::Takes(2, &[FAILED]),
            Line::Does(Act::Open(2, Mode::Writeback), What::Started),
            Line::Does(Act::Step(1), What::Skipped),
            Line::Does(Act::CrashOf(Dev::Origin, 0, 1), What::Stopped),
        ],
    ),
    &(
        "a write that fails has not landed where it is said",
        &[
            Line::Begins(0, Task::Open, 8),
            Line::Begins(1, Task::Write, 5),
            Line::Does(Act::CrashOf(Dev::Origin, 0, 1), What::Skipped),
            Line::Does(
                Act::FaultOf(1, Dev::Origin, 0, 0),
                What::Stepped(WRITE_FIRST, Got::Fault),
            ),
            Line::Does(Act::CrashOf(Dev::Origin, 0, 1), What::Skipped),
        ],
    ),
];
