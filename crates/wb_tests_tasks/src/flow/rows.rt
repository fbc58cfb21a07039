//! Flushes, suspends and openings, what they meet, and what they want then.

use super::stage::Task;
use wb_tasks::{Answer, CellStep, DeskStep, DeviceStep, Want};
use wb_types::{Dev, OBlock, Refusal};
use wb_words::Word;

/// What a flush meets at the desk as it comes.
#[derive(Clone, Copy)]
pub enum Meets {
    /// No commit runs.
    Nothing,
    /// One runs; it gets a ticket, and once it asks none runs, and none has ended that covers it.
    Commit,
    /// One runs; it gets a ticket, and once it asks one has ended that covers it.
    TwoCommits,
}

#[derive(Clone, Copy)]
pub struct Row {
    pub name: &'static str,
    pub task: Task,
    /// The blocks whose orders a flush serves, or that are mapped at a suspend.
    pub serves: &'static [OBlock],
    /// The image's nodes, or those that an opening reads.
    pub nodes: u32,
    /// The nodes that an opening of metadata of another version writes anew.
    pub converts: Option<u32>,
    /// What the desk, or what was read, refuses: to lead a commit, once a flush has a ticket, if it gets one.
    pub refuses: Option<Refusal>,
    /// What a flush meets at the desk.
    pub meets: Meets,
    pub fails: Option<u32>,
    pub answer: Answer,
    /// The wants from this one on, then the steps of a commit that has begun, if any, and what comes last.
    pub from: usize,
    pub wants: &'static [Want],
    pub commit: &'static [Want],
    pub last: &'static [Want],
    /// How many of the wants are on a device.
    pub device_steps: u32,
    /// The fail word.
    pub fail: u64,
}

const FLUSH: Row = Row {
    name: "",
    task: Task::Flush,
    serves: &[OBlock(5), OBlock(7)],
    nodes: 0,
    converts: None,
    refuses: None,
    meets: Meets::Nothing,
    fails: None,
    answer: Answer::Done,
    from: 0,
    wants: &[],
    commit: &[],
    last: &[],
    device_steps: 0,
    fail: 0,
};

const SUSPEND: Row = Row {
    task: Task::Suspend,
    ..FLUSH
};

const OPEN: Row = Row {
    name: "",
    task: Task::Open,
    serves: &[],
    nodes: 0,
    converts: None,
    refuses: None,
    meets: Meets::Nothing,
    fails: None,
    answer: Answer::Done,
    from: 0,
    wants: &[],
    commit: &[],
    last: &[],
    device_steps: 0,
    fail: 0,
};

const LOOK: Want = Want::Cell(CellStep::Look(Word::Fail));

const ARRIVE: Want = Want::Desk(DeskStep::Arrive(3));

const ASK: Want = Want::Desk(DeskStep::Ask(3));

const BEGIN_CLEAN: Want = Want::Desk(DeskStep::BeginCommit(3));

const SET_SUSPENDED: Want = Want::Cell(CellStep::SetSuspended);

const SYNC_CACHE: Want = Want::Device(DeviceStep::Sync(Dev::Cache));

const SYNC_ORIGIN: Want = Want::Device(DeviceStep::Sync(Dev::Origin));

const SYNC_METADATA: Want = Want::Device(DeviceStep::Sync(Dev::Metadata));

const WRITE_ROOT: Want = Want::Device(DeviceStep::WriteRoot);

const END: Want = Want::Desk(DeskStep::EndCommit);

pub const BREAK: Want = Want::Desk(DeskStep::BreakCommit);

const GIVE_UP: [Want; 2] = [
    Want::Desk(DeskStep::ReleaseOrder(OBlock(5))),
    Want::Desk(DeskStep::ReleaseOrder(OBlock(7))),
];

/// The steps of a commit of no node, and of one.
const COMMIT: [Want; 6] = [
    SYNC_CACHE,
    SYNC_ORIGIN,
    SYNC_METADATA,
    WRITE_ROOT,
    SYNC_METADATA,
    END,
];

const COMMIT_OF_ONE: [Want; 7] = [
    SYNC_CACHE,
    SYNC_ORIGIN,
    Want::Device(DeviceStep::WriteNode(0)),
    SYNC_METADATA,
    WRITE_ROOT,
    SYNC_METADATA,
    END,
];

const THREE_NODES: [Want; 3] = [
    Want::Device(DeviceStep::WriteNode(0)),
    Want::Device(DeviceStep::WriteNode(1)),
    Want::Device(DeviceStep::WriteNode(2)),
];

/// The root behind nodes that were written.
const ROOT_BEHIND: [Want; 3] = [SYNC_METADATA, WRITE_ROOT, SYNC_METADATA];

pub const ROWS: [&Row; 10] = [
    &Row {
        name: "a flush of one node writes its root at the seventh step and syncs it at the eighth",
        nodes: 1,
        wants: &[LOOK, ARRIVE],
        commit: &COMMIT_OF_ONE,
        device_steps: 6,
        ..FLUSH
    },
    &Row {
        name: "a flush without nodes syncs all the same",
        from: 2,
        commit: &COMMIT,
        device_steps: 5,
        ..FLUSH
    },
    &Row {
        name: "the nodes of a flush are written rising",
        nodes: 3,
        from: 4,
        wants: &THREE_NODES,
        commit: &ROOT_BEHIND,
        last: &[END],
        device_steps: 8,
        ..FLUSH
    },
    &Row {
        name: "a failed target is not flushed",
        answer: Answer::Refused(Refusal::Failed),
        wants: &[LOOK],
        fail: 1,
        ..FLUSH
    },
    &Row {
        name: "a flush where commits are broken keeps the orders that it serves",
        refuses: Some(Refusal::Failed),
        answer: Answer::Refused(Refusal::Failed),
        wants: &[LOOK, ARRIVE],
        ..FLUSH
    },
    &Row {
        name: "a flush without memory gives each order up",
        refuses: Some(Refusal::Memory),
        answer: Answer::Refused(Refusal::Memory),
        from: 2,
        wants: &GIVE_UP,
        ..FLUSH
    },
    &Row {
        name: "a flush after the last generation gives each order up",
        refuses: Some(Refusal::GenerationEnd),
        answer: Answer::Refused(Refusal::GenerationEnd),
        from: 2,
        wants: &GIVE_UP,
        ..FLUSH
    },
    &Row {
        name: "an opening syncs, reads both slots and a node, and writes its root",
        nodes: 1,
        wants: &[
            SYNC_METADATA,
            SYNC_CACHE,
            SYNC_ORIGIN,
            Want::Device(DeviceStep::ReadMetadata(4)),
            Want::Device(DeviceStep::ReadMetadata(3)),
            Want::Device(DeviceStep::ReadMetadata(2)),
            WRITE_ROOT,
            SYNC_METADATA,
        ],
        device_steps: 8,
        ..OPEN
    },
    &Row {
        name: "an opening of another version writes two nodes anew, and syncs them before its root",
        nodes: 1,
        converts: Some(2),
        from: 5,
        wants: &[
            Want::Device(DeviceStep::ReadMetadata(2)),
            Want::Device(DeviceStep::WriteNode(0)),
            Want::Device(DeviceStep::WriteNode(1)),
        ],
        last: &ROOT_BEHIND,
        device_steps: 11,
        ..OPEN
    },
    &Row {
        name: "an opening without a root writes none",
        refuses: Some(Refusal::NotFormatted),
        answer: Answer::Refused(Refusal::NotFormatted),
        from: 3,
        wants: &[
            Want::Device(DeviceStep::ReadMetadata(4)),
            Want::Device(DeviceStep::ReadMetadata(3)),
        ],
        device_steps: 5,
        ..OPEN
    },
];

/// An opening whose second node cannot be written.
pub const UNWRITTEN: Row = Row {
    name: "an opening that cannot write a node writes no root, and says so of the metadata",
    nodes: 1,
    converts: Some(2),
    fails: Some(7),
    answer: Answer::Refused(Refusal::Io(Dev::Metadata)),
    from: 5,
    wants: &[
        Want::Device(DeviceStep::ReadMetadata(2)),
        Want::Device(DeviceStep::WriteNode(0)),
        Want::Device(DeviceStep::WriteNode(1)),
    ],
    ..OPEN
};

/// Flushes that come while a commit runs. They do nothing but ask until they lead one, or are served.
pub const TICKETS: [&Row; 5] = [
    &Row {
        name: "a flush that gets a ticket asks with it, and is answered where it is served",
        nodes: 1,
        meets: Meets::TwoCommits,
        wants: &[LOOK, ARRIVE, ASK],
        ..FLUSH
    },
    &Row {
        name: "or leads the next commit, whole",
        nodes: 1,
        meets: Meets::Commit,
        wants: &[LOOK, ARRIVE, ASK],
        commit: &COMMIT_OF_ONE,
        device_steps: 6,
        ..FLUSH
    },
    &Row {
        name: "where the commit that runs is broken then, it keeps the orders that it serves",
        refuses: Some(Refusal::Failed),
        meets: Meets::Commit,
        answer: Answer::Refused(Refusal::Failed),
        wants: &[LOOK, ARRIVE, ASK],
        ..FLUSH
    },
    &Row {
        name: "without memory to lead one then it gives each order up",
        refuses: Some(Refusal::Memory),
        meets: Meets::Commit,
        answer: Answer::Refused(Refusal::Memory),
        from: 2,
        wants: &[ASK],
        last: &GIVE_UP,
        ..FLUSH
    },
    &Row {
        name: "and so it does after the last generation",
        refuses: Some(Refusal::GenerationEnd),
        meets: Meets::Commit,
        answer: Answer::Refused(Refusal::GenerationEnd),
        from: 2,
        wants: &[ASK],
        last: &GIVE_UP,
        ..FLUSH
    },
];

pub const SUSPENDS: [&Row; 5] = [
    &Row {
        name: "a suspend looks at each seal, commits a clean root, and sets its bit last",
        nodes: 1,
        wants: &[
            LOOK,
            Want::Cell(CellStep::Look(Word::Seal(OBlock(5)))),
            Want::Cell(CellStep::Look(Word::Seal(OBlock(7)))),
            BEGIN_CLEAN,
        ],
        commit: &COMMIT_OF_ONE,
        last: &[SET_SUSPENDED],
        device_steps: 6,
        ..SUSPEND
    },
    &Row {
        name: "a suspend of an empty cache looks at no seal",
        serves: &[],
        wants: &[LOOK, BEGIN_CLEAN],
        commit: &COMMIT,
        last: &[SET_SUSPENDED],
        device_steps: 5,
        ..SUSPEND
    },
    &Row {
        name: "a failed or suspended target is not suspended",
        answer: Answer::Refused(Refusal::Failed),
        wants: &[LOOK],
        fail: 2,
        ..SUSPEND
    },
    &Row {
        name: "a suspend that meets a commit is busy",
        refuses: Some(Refusal::Busy),
        answer: Answer::Refused(Refusal::Busy),
        from: 3,
        wants: &[BEGIN_CLEAN],
        ..SUSPEND
    },
    &Row {
        name: "a suspend without memory sets no bit",
        refuses: Some(Refusal::Memory),
        answer: Answer::Refused(Refusal::Memory),
        from: 3,
        wants: &[BEGIN_CLEAN],
        ..SUSPEND
    },
];
