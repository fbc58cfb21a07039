//! The words that a program is called with, and what is said where they ask for nothing.

use crate::program::Program;
use clap::error::ErrorKind;
use clap::{ArgMatches, Error};
use std::alloc::Global;
use std::env::Env;
use std::{env, io};

/// The exit status of a standard stream that failed.
pub const STREAM_FAILED: u8 = 4;

/// The exit status where the words of the command line ask for nothing that a program does.
const MISTAKEN: u8 = 2;

/// Why a program has no task.
#[derive(Clone, Copy)]
pub enum NoTask {
    /// There is no memory, which each program tells in its own way.
    Memory,
    /// Help or the version was asked for and given, or its words ask for nothing that it does, and it was said what it takes: it ends with
    /// this status.
    Told(u8),
}

/// What a program can be asked to do, read from its words.
pub trait FromWords<'a>: Sized {
    /// What they ask; nothing where that is nothing that it does.
    fn from_words(given: &ArgMatches<'a>) -> Option<Self>;
}

/// The words of the command line, the program's name first.
pub fn command_words<R: Env + AllocGlobal + Eprint>(
    rt: &R,
    usage: &str,
) -> Result<Vec<String>, NoTask> {
    match env::args(rt) {
        Ok(words) => words.collect(rt.alloc()).map_err(|_| NoTask::Memory),
        Err(error) if error.kind() == io::ErrorKind::OutOfMemory => Err(NoTask::Memory),
        Err(_) => Err(told_usage(rt, usage)),
    }
}

impl<'a> Program<'a> {
    /// What the words of the command line ask. Where they ask for help or the version, that is given; where they ask for nothing that the
    /// program does, it is said what it takes.
    pub fn asked<A: FromWords<'a>, R: AllocGlobal + Print + Eprint>(
        &self,
        rt: &R,
        words: &'a [String],
    ) -> Result<A, NoTask> {
        match self.read(rt.alloc(), words) {
            Ok(Some(asked)) => Ok(asked),
            Ok(None) => Err(told_usage(rt, self.usage)),
            Err(error) => Err(self.told(rt, words, &error)),
        }
    }

    fn read<A: FromWords<'a>>(
        &self,
        alloc: Global,
        words: &'a [String],
    ) -> Result<Option<A>, Error> {
        let matches = self.command(alloc)?.try_get_matches_from(words)?;
        Ok(A::from_words(&matches))
    }

    /// Gives help or the version where they are asked for, and else says which word asks for nothing, and what the program takes.
    fn told<R: AllocGlobal + Print + Eprint>(
        &self,
        rt: &R,
        words: &[String],
        error: &Error,
    ) -> NoTask {
        match error.kind() {
            ErrorKind::DisplayHelp | ErrorKind::DisplayVersion => match error.print(rt) {
                Ok(()) => NoTask::Told(0),
                Err(_) => NoTask::Told(STREAM_FAILED),
            },
            ErrorKind::OutOfMemory => NoTask::Memory,
            kind => {
                self.tell_reason(rt, error);
                if kind == ErrorKind::UnknownArgument && has_bare_table(words) {
                    let _ = eprintln!(rt;
                        "{}: a table is one argument: put it in quotes",
                        self.name
                    );
                }
                told_usage(rt, self.usage)
            }
        }
    }

    /// Says in a line why the words ask for nothing.
    fn tell_reason<R: AllocGlobal + Eprint>(&self, rt: &R, error: &Error) {
        if let Ok(text) = format!(in rt.alloc(); "{error}") {
            let line = text.as_str().lines().next().unwrap_or("");
            let reason = line.strip_prefix("error: ").unwrap_or(line);
            let _ = eprintln!(rt; "{}: {reason}", self.name);
        }
    }
}

/// Whether the words of a table stand by themselves.
fn has_bare_table(words: &[String]) -> bool {
    words.iter().any(|word| word.as_str() == "cache")
}

fn told_usage<R: Eprint>(rt: &R, usage: &str) -> NoTask {
    let _ = eprintln!(rt; "{usage}");
    NoTask::Told(MISTAKEN)
}
