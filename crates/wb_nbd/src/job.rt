//! What has to be done for a request.

ghost use Rattle.std.specs.Prelude.{◌≡◌, ◌≤◌, ◌*◌, ◌⊎◌, ℕ, List, IfOk, OnOk, IfSome, IfNone, length, []};
ghost use Rattle.std.specs.Io.KnownBytes.{Consumes};
ghost use Rattle.wb_nbd.specs.declared.request.Command.TheVariants.{Write as WriteCommand, Disconnect as DisconnectCommand};
ghost use Rattle.wb_nbd.specs.declared.request.Flags.TheVariants.{Other as OtherFlags};
ghost use Rattle.wb_nbd.specs.declared.job.Task.TheVariants.{Refuse};
ghost use Rattle.wb_nbd.specs.Requests.{SpellsRequest};
ghost use Rattle.wb_nbd.specs.Replies.{joined_sectors};
ghost use Rattle.wb_nbd.specs.Jobs.{BytesAsk, IsTask, AreSectors, IsOutsideExport, Writes, most_bytes, payload_size};

use crate::broken::Broken;
use crate::errno::Errno;
use crate::input::{begin, fill, skip};
use crate::request::{Command, Cookie, Flags, Request};
use crate::words::{MOST_BYTES, REQUEST_BYTES};
use std::alloc::Global;
use std::io::Read;
use wb_types::{Content, SECTOR_BYTES, Sector};

/// A task on an export.
#[derive(Drop)]
pub enum Task {
    /// To read so many sectors, at least one, from a place on.
    Read(Sector, u64),
    /// To write sectors, at least one, from a place on; durable before it is answered, where that is wanted.
    Write(Sector, Vec<Content>, bool),
    /// To write zeros to so many sectors, at least one, from a place on; durable as well, where that is wanted.
    Zeroes(Sector, u64, bool),
    Flush,
    /// Nothing but to tell why the request is not served.
    Refuse(Errno),
}

/// A task, and what its answer is called by.
#[derive(Drop)]
pub struct Job {
    pub cookie: Cookie,
    pub task: Task,
}

/// Takes the next request in, with what it writes, and gives the job that it is on an export of so many sectors; none where the
/// client ends the connection. What the client sends of a write that is not served is passed over.
///
/// A request is to be refused as `Invalid` where it is none that is served, as `Space` where it writes past the end, and as `Memory` where
/// there is none for what it writes. `Gone` where nothing more is there, `Reader` where no more can be read, `Magic` where the bytes spell no request.
pub fn take_job<R: Read>(alloc: Global, size: u64, reader: &mut R) -> Result<Option<Job>, Broken>
    ensures { IfOk result (λ asked. (bytes : List ℕ) × Consumes (R.remaining reader.old) (R.remaining reader.new) bytes × BytesAsk size bytes asked) }
{
    let request = read_request(reader)?;
    if request.command == Command::Disconnect {
        return Ok(None);
    }
    let task = take_task(alloc, size, &request, reader)?;
    Ok(Some(Job {
        cookie: request.cookie,
        task,
    }))
}

/// Takes in what follows a request, and gives its task.
fn take_task<R: Read>(
    alloc: Global,
    size: u64,
    request: &Request,
    reader: &mut R,
) -> Result<Task, Broken>
    requires { request.now.command ≡ DisconnectCommand → ⊥ }
    ensures { IfOk result (λ task. (payload : List ℕ) × Consumes (R.remaining reader.old) (R.remaining reader.new) payload × IsTask size request.now payload task) }
{
    if request.command == Command::Write {
        take_write(alloc, size, request, reader)
    } else {
        Ok(task_of(size, request))
    }
}

/// Reads a request without what it writes.
fn read_request<R: Read>(reader: &mut R) -> Result<Request, Broken>
    ensures { IfOk result (λ request. (bytes : List ℕ) × Consumes (R.remaining reader.old) (R.remaining reader.new) bytes × SpellsRequest bytes request) }
{
    let mut header = [0; REQUEST_BYTES];
    let (first, others) = header.split_at_mut(1);
    begin(reader, first, others)?;
    Request::read(&header).ok_or(Broken::Magic)
}

/// The task of a request that writes nothing.
fn task_of(size: u64, request: &Request) -> Task
    requires write { request.now.command ≡ WriteCommand → ⊥ }
    requires disconnect { request.now.command ≡ DisconnectCommand → ⊥ }
    ensures { IsTask size request.now [] result }
{
    if request.flags == Flags::Other {
        return Task::Refuse(Errno::Invalid);
    }
    match request.command {
        Command::Read => match find_sectors(size, request) {
            Some((at, count)) => Task::Read(at, count),
            None => Task::Refuse(Errno::Invalid),
        },
        Command::Zeroes => match find_sectors(size, request) {
            Some((at, count)) => Task::Zeroes(at, count, request.flags == Flags::Durable),
            None => Task::Refuse(reason_of(size, request)),
        },
        Command::Flush if request.offset == 0 && request.length == 0 => Task::Flush,
        _ => Task::Refuse(Errno::Invalid),
    }
}

/// Takes in what a request writes, and gives its task.
fn take_write<R: Read>(
    alloc: Global,
    size: u64,
    request: &Request,
    reader: &mut R,
) -> Result<Task, Broken>
    requires { request.now.command ≡ WriteCommand }
    ensures { IfOk result (λ task. (payload : List ℕ) × Consumes (R.remaining reader.old) (R.remaining reader.new) payload × IsTask size request.now payload task) }
{
    let durable = request.flags == Flags::Durable;
    let (false, Some((at, count))) = (request.flags == Flags::Other, find_sectors(size, request))
    else {
        skip(reader, request.length)?;
        return Ok(Task::Refuse(reason_of(size, request)));
    };
    let Ok(room) = Vec::with_capacity(alloc, count as usize) else {
        skip(reader, request.length)?;
        return Ok(Task::Refuse(Errno::Memory));
    };
    let content = take_content(reader, count, room)?;
    Ok(Task::Write(at, content, durable))
}

/// Why a write is not served whose flags are not, or whose bytes are no sectors of the export.
fn reason_of(size: u64, request: &Request) -> Errno
    requires write { Writes request.now }
    requires unserved { (request.now.flags ≡ OtherFlags) ⊎ IsOutsideExport size request.now }
    ensures { (payload : List ℕ) → length payload ≡ payload_size request.now → IsTask size request.now payload (Refuse result) }
{
    if request.flags == Flags::Other {
        return Errno::Invalid;
    }
    let end = u128::from(request.offset) + u128::from(request.length);
    if end > u128::from(size) * SECTOR_BYTES as u128 {
        Errno::Space
    } else {
        Errno::Invalid
    }
}

/// The sectors that a request speaks of, the first and how many; none where they are no whole ones, none at all, more than one
/// request may have, or not of the export.
fn find_sectors(size: u64, request: &Request) -> Option<(Sector, u64)>
    ensures found { IfSome result (λ found. AreSectors size (most_bytes request.now.command) request.now.offset request.now.length found.0.0 found.1) }
    ensures none { IfNone result (IsOutsideExport size request.now) }
{
    let sector = SECTOR_BYTES as u64;
    let bytes = u64::from(request.length);
    let (at, count) = (request.offset / sector, bytes / sector);
    let whole = request.offset % sector == 0 && bytes % sector == 0;
    let few = request.command == Command::Zeroes || request.length <= MOST_BYTES;
    if whole && count > 0 && few && at <= size && count <= size - at {
        Some((Sector(at), count))
    } else {
        None
    }
}

/// Takes so many sectors in.
fn take_content<R: Read>(
    reader: &mut R,
    count: u64,
    room: Vec<Content>,
) -> Result<Vec<Content>, Broken>
    requires empty { room.items ≡ [] }
    ensures many { IfOk result (λ content. length content.items ≡ count) }
    ensures taken { IfOk result (λ content. Consumes (R.remaining reader.old) (R.remaining reader.new) (joined_sectors content.items)) }
{
    let mut content = room;
    for _ in 0..count {
        let mut sector = [0; SECTOR_BYTES];
        fill(reader, &mut sector)?;
        content.push(sector).map_err(|_| Broken::Memory)?;
    }
    Ok(content)
}
