//! The arguments of the program.

use clap::ArgMatches;
use wb_arguments::{ACCEPT_OLDER, FromWords, NO_VERIFY, Named, NoTask, Program};

/// What is asked of who calls the program otherwise.
pub const USAGE: &str =
    "usage: wbnbd [-q] [--wait SECONDS] [--control FILE] [--no-verify] [--accept-older] TABLE";

const ABOUT: &str =
    "Serves a write-back cache over three files as a network block device, to one client on standard input and output.";

const TEXTS: &str = "\
TABLE is one argument, words parted by spaces, as 'wbcache format' takes it:
  cache <metadata> <cache> <origin> <block size> 0 tinylfu 0
with other features, policies and keys as 'wbcache --help' lists them.
The client gets the origin, by whatever name. What it wrote is durable once it
has flushed, or written with FUA; when the connection ends all is flushed.
Status: 0 the client ended it, or went between two requests, and all was
flushed; 1 the files cannot serve, 2 the arguments, 3 a device failed, a file
is held or the last flush was refused, 4 the connection broke. Of the first
failure of each device standard error tells at once; where a file system is
full the client is told ENOSPC.

Nobody else may write the three files, also while nothing is served: detach the
cache ('wbmeta detach TABLE') before the origin is used alone. Where the cache
was left clean, up to 64 of its blocks are compared with the origin before
anything is written, and one that differs refuses the opening.
After a failed write or sync the file METADATA.failed is left, and the next
opening is refused until 'wbmeta cleared TABLE': the system may show data that
the disk does not have. Drop it first: dd if=FILE iflag=nocache count=0 for
each of the three files.
A client that connects again by itself after this program was killed goes on
with a disk that went back to its last flush: do not have it do so.

A line that is added to the control FILE (status, flush, tick, or message TEXT
as in a script of wbcache) is answered on standard error: echo status >>FILE.

To stop it in order, end the client. A signal ends it at once, and what was not
flushed is lost then. All three files are locked as long as it runs, against
programs that lock them too.

It takes no listening socket (so 'nbdinfo -- [ wbnbd TABLE ]' fails): it is for
who accepts a client, as 'systemd-socket-activate --inetd -a' does. Examples,
with files that 'wbcache format' has made a cache of:
  nbdfuse dir/disk --command wbnbd 'cache m c o 64 0 tinylfu 0'
  systemd-socket-activate --inetd -a -l /run/wbnbd.sock wbnbd TABLE
  nbdcopy image 'nbd+unix:///?socket=/run/wbnbd.sock'";

/// How many seconds files that another program holds are waited for, where that is not said.
const WAIT: u32 = 5;

/// What the program is asked to do.
#[derive(Clone, Copy)]
pub struct Asked<'a> {
    pub table: &'a str,
    /// The seconds that files which another program holds are waited for.
    pub wait: u32,
    /// Whether only what went wrong is to be told.
    pub quiet: bool,
    /// The file whose lines are answered while the client is served.
    pub control: Option<&'a str>,
    /// Whether blocks of a clean cache are compared with the origin first.
    pub verifies: bool,
    /// Whether a cache is opened where the root of the last commit cannot be read.
    pub accepts_older: bool,
}

impl<'a> FromWords<'a> for Asked<'a> {
    fn from_words(given: &ArgMatches<'a>) -> Option<Asked<'a>> {
        let wait = match given.get_str("wait") {
            Some(seconds) => seconds.parse().ok()?,
            None => WAIT,
        };
        Some(Asked {
            table: given.get_str("TABLE")?,
            wait,
            quiet: given.get_flag("quiet"),
            control: given.get_str("control"),
            verifies: !given.get_flag("no-verify"),
            accepts_older: given.get_flag("accept-older"),
        })
    }
}

const WAITS: Named = Named {
    name: "wait",
    short: None,
    help: "Seconds to wait for files that another program holds [default: 5]",
    takes_value: true,
    is_global: false,
};

const CONTROL: Named = Named {
    name: "control",
    short: None,
    help: "Answer the lines that are added to this file, as below",
    takes_value: true,
    is_global: false,
};

const QUIET: Named = Named {
    name: "quiet",
    short: Some('q'),
    help: "Say on standard error only what went wrong",
    takes_value: false,
    is_global: false,
};

const PROGRAM: Program = Program {
    name: "wbnbd",
    about: ABOUT,
    texts: TEXTS,
    usage: USAGE,
    options: &[&WAITS, &CONTROL, &NO_VERIFY, &ACCEPT_OLDER, &QUIET],
    subcommands: &[],
};

/// Reads the words of the command line, the program's name first.
pub fn read_arguments<'a, R: AllocGlobal + Print + Eprint>(
    rt: &R,
    words: &'a [String],
) -> Result<Asked<'a>, NoTask> {
    PROGRAM.asked(rt, words)
}
