//! Answers.

ghost use Rattle.std.specs.Prelude.{◌≡◌, ◌++◌, OnOk, IfErr};
ghost use Rattle.std.specs.Io.KnownBytes.{Appends};
ghost use Rattle.wb_nbd.specs.Answers.{spelling, IsAnswered};
ghost use Rattle.wb_nbd.specs.Replies.{reply_header, error_number, joined_sectors};

use crate::broken::Broken;
use crate::errno::Errno;
use crate::export::Export;
use crate::job::Job;
use crate::request::Cookie;
use crate::words::REPLY_MAGIC;
use byteorder::{BigEndian, WriteBytesExt};
use std::io;
use std::io::Write;
use wb_types::Content;

/// What is told of a request.
#[derive(Drop)]
pub struct Answer {
    /// The request's.
    pub cookie: Cookie,
    /// The sectors that were read, none where nothing was to be; or why the request is not served.
    pub told: Result<Vec<Content>, Errno>,
}

impl Answer {
    /// Writes the reply to a job that was done, or refused, on an export which stands as that left it. `Writer` where the writer
    /// fails, and then some of it may be written.
    pub fn send<E: Export, W: Write>(
        &self,
        _export: &E,
        _job: &Job,
        writer: &mut W,
    ) -> Result<(), Broken>
        requires answered { IsAnswered E.acts _job.now self.now _export.now }
        ensures sent { OnOk result (Appends (W.contents writer.old) (W.contents writer.new) (spelling self.now)) }
        ensures refused { IfErr result (λ broken. broken ≡ Broken.Writer) }
    {
        self.write(writer).map_err(|_| Broken::Writer)
    }

    fn write<W: Write>(&self, writer: &mut W) -> io::Result<()>
        ensures sent { OnOk result (Appends (W.contents writer.old) (W.contents writer.new) (spelling self.now)) }
    {
        match &self.told {
            Ok(content) => write_content(writer, self.cookie, content.as_slice()),
            Err(errno) => write_error(writer, self.cookie, *errno),
        }
    }
}

/// Writes a reply without an error, and sees that it is out.
fn write_content<W: Write>(writer: &mut W, cookie: Cookie, content: &[Content]) -> io::Result<()>
    ensures sent { OnOk result (Appends (W.contents writer.old) (W.contents writer.new) (reply_header 0 cookie.0 ++ joined_sectors content.now)) }
{
    write_header(writer, 0, cookie)?;
    writer.write_all(content.as_flattened())?;
    writer.flush()?;
    Ok(())
}

/// Writes a reply with an error, and sees that it is out.
fn write_error<W: Write>(writer: &mut W, cookie: Cookie, errno: Errno) -> io::Result<()>
    ensures sent { OnOk result (Appends (W.contents writer.old) (W.contents writer.new) (reply_header (error_number errno) cookie.0)) }
{
    write_header(writer, errno.number(), cookie)?;
    writer.flush()?;
    Ok(())
}

/// Writes the first bytes of a reply.
fn write_header<W: Write>(writer: &mut W, error: u32, cookie: Cookie) -> io::Result<()>
    ensures sent { OnOk result (Appends (W.contents writer.old) (W.contents writer.new) (reply_header error cookie.0)) }
{
    let Cookie(cookie) = cookie;
    writer.write_u32::<BigEndian>(REPLY_MAGIC)?;
    writer.write_u32::<BigEndian>(error)?;
    writer.write_u64::<BigEndian>(cookie)?;
    Ok(())
}
