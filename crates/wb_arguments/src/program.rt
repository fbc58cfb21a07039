//! What a program takes, as its help lists it.

use clap::{Arg, ArgAction, Command, Error};
use std::alloc::Global;

/// The programs' version.
const VERSION: &str = "0.1.0";

/// A program over the files of a table.
#[derive(Clone, Copy)]
pub struct Program<'a> {
    pub name: &'a str,
    pub about: &'a str,
    /// What its help ends with.
    pub texts: &'a str,
    /// What is said where its words ask for nothing.
    pub usage: &'a str,
    pub options: &'a [&'a Named<'a>],
    /// What it can be asked to do; none where it does one thing alone, and takes the table for that itself.
    pub subcommands: &'a [&'a Subcommand<'a>],
}

/// A thing that a program can be asked to do.
#[derive(Clone, Copy)]
pub struct Subcommand<'a> {
    pub name: &'a str,
    pub about: &'a str,
    /// What its help ends with, where that is not what the program's ends with.
    pub texts: Option<&'a str>,
    pub takes_table: bool,
    pub options: &'a [&'a Named<'a>],
}

/// An argument that a word of its own names: a flag, or one that a value follows.
#[derive(Clone, Copy)]
pub struct Named<'a> {
    pub name: &'a str,
    pub short: Option<char>,
    pub help: &'a str,
    pub takes_value: bool,
    /// Whether it may stand behind each subcommand, too.
    pub is_global: bool,
}

impl<'a> Program<'a> {
    /// What reads its words.
    pub(crate) fn command(&self, alloc: Global) -> Result<Command<'a>, Error> {
        let command = Command::new(alloc, self.name)
            .about(self.about)
            .version(VERSION)
            .after_help(self.texts);
        let mut command = with_named(alloc, command, self.options)?;
        if self.subcommands.is_empty() {
            return Ok(command.arg(table_argument(alloc))?);
        }
        for subcommand in self.subcommands {
            command = command.subcommand(subcommand.command(alloc, self.texts)?)?;
        }
        Ok(
            command
                .disable_help_subcommand(true)
                .subcommand_required(true),
        )
    }
}

impl<'a> Subcommand<'a> {
    /// What reads its words, of a program whose help ends with these texts.
    fn command(&self, alloc: Global, texts: &'a str) -> Result<Command<'a>, Error> {
        let command = Command::new(alloc, self.name)
            .about(self.about)
            .after_help(self.texts.unwrap_or(texts));
        let command = if self.takes_table {
            command.arg(table_argument(alloc))?
        } else {
            command
        };
        with_named(alloc, command, self.options)
    }
}

/// A command that takes these, too.
fn with_named<'a>(
    alloc: Global,
    command: Command<'a>,
    options: &'a [&'a Named<'a>],
) -> Result<Command<'a>, Error> {
    let mut command = command;
    for named in options {
        command = command.arg(named.argument(alloc))?;
    }
    Ok(command)
}

impl<'a> Named<'a> {
    fn argument(&self, alloc: Global) -> Arg<'a> {
        let action = if self.takes_value {
            ArgAction::Set
        } else {
            ArgAction::SetTrue
        };
        let argument = Arg::new(alloc, self.name)
            .long(self.name)
            .help(self.help)
            .action(action)
            .global(self.is_global);
        match self.short {
            Some(short) => argument.short(short),
            None => argument,
        }
    }
}

/// The argument that is a table.
fn table_argument<'a>(alloc: Global) -> Arg<'a> {
    Arg::new(alloc, "TABLE")
        .help("The three files and the size of a block, as below")
        .required(true)
        .action(ArgAction::Set)
}
