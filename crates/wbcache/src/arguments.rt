//! The arguments of the program.

use crate::help::{ABOUT, REPLAYS};
use clap::ArgMatches;
use wb_arguments::{FromWords, NO_VERIFY, Named, NoTask, Program, Subcommand};
use wb_script::Wishes;

/// What is asked of who calls the program otherwise.
pub const USAGE: &str = "usage: wbcache format [--force] [--careful] TABLE | run TABLE | replay";

/// What the program is asked to do.
#[derive(Clone, Copy)]
pub enum Task<'a> {
    /// To format the metadata over the files of a table, with these wishes.
    Format(&'a str, Wishes),
    /// To run a script over the files of a table; whether blocks of a clean cache are compared with the origin first.
    Run(&'a str, bool),
    /// To play a replay, in memory.
    Replay,
}

/// How many seconds files that another program holds are waited for, where that is not said.
const WAIT: u32 = 1;

/// That, and how it is done.
#[derive(Clone, Copy)]
pub struct Asked<'a> {
    pub task: Task<'a>,
    pub verbose: bool,
    /// The seconds that files which another program holds are waited for.
    pub wait: u32,
}

impl<'a> FromWords<'a> for Asked<'a> {
    fn from_words(given: &ArgMatches<'a>) -> Option<Asked<'a>> {
        let (name, given) = given.subcommand()?;
        let task = match name {
            "format" => Task::Format(given.get_str("TABLE")?, wishes(given)),
            "run" => Task::Run(given.get_str("TABLE")?, !given.get_flag("no-verify")),
            "replay" => Task::Replay,
            _ => return None,
        };
        let wait = match given.get_str("wait") {
            Some(seconds) => seconds.parse().ok()?,
            None => WAIT,
        };
        Some(Asked {
            task,
            verbose: given.get_flag("verbose"),
            wait,
        })
    }
}

/// What is wished of a formatting.
fn wishes(given: &ArgMatches<'_>) -> Wishes {
    Wishes {
        force: given.get_flag("force"),
        yes: given.get_flag("yes"),
        careful: given.get_flag("careful"),
    }
}

const VERBOSE: Named = Named {
    name: "verbose",
    short: Some('v'),
    help: "Say on standard error what was opened, and how far a long request has come",
    takes_value: false,
    is_global: true,
};

const WAITS: Named = Named {
    name: "wait",
    short: None,
    help: "Seconds to wait for files that another program holds [default: 1]",
    takes_value: true,
    is_global: true,
};

const YES: Named = Named {
    name: "yes",
    short: None,
    help: "Do not ask, on a terminal, before what the metadata file holds is given up",
    takes_value: false,
    is_global: false,
};

const FORCE: Named = Named {
    name: "force",
    short: None,
    help: "Do not ask, and format also a metadata file that holds something else, or cannot be read",
    takes_value: false,
    is_global: false,
};

const CAREFUL: Named = Named {
    name: "careful",
    short: None,
    help: "Where nobody can be asked, do not give up a cache with a block that is not on the origin",
    takes_value: false,
    is_global: false,
};

const FORMAT: Subcommand = Subcommand {
    name: "format",
    about: "Make the metadata those of an empty cache",
    texts: None,
    takes_table: true,
    options: &[&YES, &FORCE, &CAREFUL],
};

const RUN: Subcommand = Subcommand {
    name: "run",
    about: "Run a script over the files",
    texts: None,
    takes_table: true,
    options: &[&NO_VERIFY],
};

const REPLAY: Subcommand = Subcommand {
    name: "replay",
    about: "Play a replay",
    texts: Some(REPLAYS),
    takes_table: false,
    options: &[],
};

/// Its help ends with texts that are put together as it runs.
const PROGRAM: Program = Program {
    name: "wbcache",
    about: ABOUT,
    texts: "",
    usage: USAGE,
    options: &[&VERBOSE, &WAITS],
    subcommands: &[&FORMAT, &RUN, &REPLAY],
};

/// Reads the words of the command line, the program's name first: what is asked. The program's help ends with these texts.
pub fn read_arguments<'a, R: AllocGlobal + Print + Eprint>(
    rt: &R,
    words: &'a [String],
    texts: &'a str,
) -> Result<Asked<'a>, NoTask> {
    let program = Program { texts, ..PROGRAM };
    program.asked(rt, words)
}
