//! The arguments of the program.

use clap::ArgMatches;
use wb_arguments::{ACCEPT_OLDER, FromWords, NO_VERIFY, Named, NoTask, Program, Subcommand};

const ABOUT: &str =
    "Tells what lies on the metadata of a write-back cache over three files, or has what is dirty written home.";

const TEXTS: &str = "\
TABLE is one argument, words parted by spaces, as 'wbcache format' takes it:
  cache <metadata> <cache> <origin> <block size> 0 tinylfu 0
check prints 'ok <generation> <clean|unclean> <mapped> <dirty>', as an opening
of the table would count it: what was not left clean is dirty. Or it prints
the refusal that an opening would meet, as 'refused 11 Damaged 3', with the
sector that is damaged.
dump prints a line for each mapped block: '<cache block> <origin block>
<clean|dirty> <hint>', and to a terminal how many blocks have each hint.
verify compares each mapped block that is clean with the origin. It prints
'ok <blocks>', how many were compared, or a line for each that is another:
'<cache block> <origin block> differs', with status 1. What is dirty is not
compared: over a cache that was not left clean it prints 'ok 0'.
These three read the files and change nothing. They take files that may only be
read, and go on beside a program that holds the cache, which standard error
says then: what they tell is what was committed last.
writeback writes all dirty blocks to the origin, prints 'ok <blocks>' and leaves
the cache clean. THE MAPPING IS KEPT: while the origin is used alone the cache
grows stale, and a later opening would show old blocks, or write them over new
ones. Before the origin is used alone, detach the cache.
detach does the same, and then takes all blocks out of the cache: the origin can
be used alone, and the cache served again later, cold. It prints 'ok <blocks>',
how many were written home. Where one cannot be, none is taken out.
Both open the cache whatever mode and policy the table says. Either may be
interrupted: a later call goes on where the last round ended, of at most 4,096
blocks or 1 GiB. A block that cannot be read is passed over and named on
standard error: it stays dirty, and the status is 3.
Before they write anything they compare up to 64 blocks of a clean cache with
the origin, and refuse where one differs: see verify. They are refused also
where the newest root may be lost, and while METADATA.failed tells of a write
or a sync that failed: the system may show data that the disk does not have.
Drop it first, with 'dd if=FILE iflag=nocache count=0' for each of the three
files, and then call cleared.
These two lock the three files; what another program holds is waited for.
Status: 0 it was done, 1 it was refused, or blocks differ, 2 the arguments, 3 a
device failed, a file is held or a block stayed dirty, 4 the output failed.";

/// What is asked of who calls the program otherwise.
pub const USAGE: &str =
    "usage: wbmeta check TABLE | dump TABLE | verify TABLE | writeback TABLE | detach TABLE | cleared TABLE";

/// How many seconds files that another program holds are waited for, where that is not said.
const WAIT: u32 = 1;

/// What the program is asked to do.
#[derive(Clone, Copy)]
pub enum Task {
    /// To tell whether the metadata over the files of a table can be opened.
    Check,
    /// To list what they map.
    Dump,
    /// To compare what is clean with the origin.
    Verify,
    /// To have all that is dirty written home.
    Writeback,
    /// To have it written home, and to take all blocks out of the cache.
    Detach,
    /// To take away the mark of a device that failed.
    Cleared,
}

/// That, over the files of which table, and how.
#[derive(Clone, Copy)]
pub struct Asked<'a> {
    pub task: Task,
    pub table: &'a str,
    /// The seconds that files which another program holds are waited for.
    pub wait: u32,
    /// Whether blocks of a clean cache are compared with the origin first.
    pub verifies: bool,
    /// Whether an older state is opened where the newest root cannot be read.
    pub accepts_older: bool,
}

impl<'a> FromWords<'a> for Asked<'a> {
    fn from_words(given: &ArgMatches<'a>) -> Option<Asked<'a>> {
        let (name, given) = given.subcommand()?;
        let task = match name {
            "check" => Task::Check,
            "dump" => Task::Dump,
            "verify" => Task::Verify,
            "writeback" => Task::Writeback,
            "detach" => Task::Detach,
            "cleared" => Task::Cleared,
            _ => return None,
        };
        let wait = match given.get_str("wait") {
            Some(seconds) => seconds.parse().ok()?,
            None => WAIT,
        };
        Some(Asked {
            task,
            table: given.get_str("TABLE")?,
            wait,
            verifies: !given.get_flag("no-verify"),
            accepts_older: given.get_flag("accept-older"),
        })
    }
}

const WAITS: Named = Named {
    name: "wait",
    short: None,
    help: "Seconds to wait for files that another program holds [default: 1]",
    takes_value: true,
    is_global: true,
};

const CLEARED: Subcommand = Subcommand {
    name: "cleared",
    about: "Take away the mark of a device that failed, once its pages are dropped",
    texts: None,
    takes_table: true,
    options: &[],
};

const CHECK: Subcommand = Subcommand {
    name: "check",
    about: "Tell whether the cache can be opened, and how it stands",
    texts: None,
    takes_table: true,
    options: &[],
};

const DUMP: Subcommand = Subcommand {
    name: "dump",
    about: "List the blocks that are cached",
    texts: None,
    takes_table: true,
    options: &[],
};

const VERIFY: Subcommand = Subcommand {
    name: "verify",
    about: "Compare each clean block with the origin",
    texts: None,
    takes_table: true,
    options: &[],
};

const WRITEBACK: Subcommand = Subcommand {
    name: "writeback",
    about: "Write all dirty blocks to the origin, and leave the cache clean",
    texts: None,
    takes_table: true,
    options: &[&NO_VERIFY, &ACCEPT_OLDER],
};

const DETACH: Subcommand = Subcommand {
    name: "detach",
    about: "Write all dirty blocks to the origin, and leave the cache empty",
    texts: None,
    takes_table: true,
    options: &[&NO_VERIFY, &ACCEPT_OLDER],
};

const PROGRAM: Program = Program {
    name: "wbmeta",
    about: ABOUT,
    texts: TEXTS,
    usage: USAGE,
    options: &[&WAITS],
    subcommands: &[&CHECK, &DUMP, &VERIFY, &WRITEBACK, &DETACH, &CLEARED],
};

/// Reads the words of the command line, the program's name first.
pub fn read_arguments<'a, R: AllocGlobal + Print + Eprint>(
    rt: &R,
    words: &'a [String],
) -> Result<Asked<'a>, NoTask> {
    PROGRAM.asked(rt, words)
}
