//! Why the files of a table cannot serve, for who reads standard error.

use crate::sizes::SizeFault;
use std::fmt::{Display, Formatter};
use std::{fmt, io};
use wb_table::TableFault;
use wb_types::{Dev, Refusal};

/// Why the files of a table cannot serve.
#[derive(Drop)]
pub enum Unopened<'a> {
    Table(TableFault<'a>),
    /// A file cannot be opened, locked or measured.
    File {
        device: Dev,
        path: &'a str,
        trouble: Trouble,
    },
    Size(SizeFault),
}

/// What is the trouble with a file.
#[derive(Drop)]
pub enum Trouble {
    System(io::Error),
    /// It is locked: by another program, or as another device of the same table.
    Locked,
}

impl<'a> Unopened<'a> {
    /// What is printed for it.
    pub fn refusal(&self) -> Refusal {
        match self {
            Unopened::Table(_) => Refusal::BadTable,
            Unopened::File { device, .. } => Refusal::Io(*device),
            Unopened::Size(_) => Refusal::Geometry,
        }
    }
}

impl<'a> Display for Unopened<'a> {
    fn fmt<W: fmt::Write>(&self, f: &mut Formatter<W>) -> fmt::Result {
        match self {
            Unopened::Table(fault) => write!(f, "{fault}"),
            Unopened::File {
                device,
                path,
                trouble,
            } => write!(f, "{device} file {path}: {trouble}"),
            Unopened::Size(fault) => write!(f, "{fault}"),
        }
    }
}

impl Display for Trouble {
    fn fmt<W: fmt::Write>(&self, f: &mut Formatter<W>) -> fmt::Result {
        match self {
            Trouble::System(error) => write!(f, "{error}"),
            Trouble::Locked => write!(
                f,
                "locked, by another program or as another device of the table"
            ),
        }
    }
}
