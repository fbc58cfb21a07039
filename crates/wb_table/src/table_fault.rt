//! Where a text is no table, for who reads standard error.

use crate::number::read_number;
use crate::policy::{PolicyName, WANTED, read_policy};
use crate::table::{read_block_size, read_key_of, read_mode};
use crate::words::SplitSpaces;
use std::fmt;
use std::fmt::{Display, Formatter};
use wb_types::Key;

/// Where a text is no table.
#[derive(Clone, Copy)]
pub enum TableFault<'a> {
    /// A word that is none of a table's at its place: what is wanted there.
    Word {
        number: usize,
        found: &'a str,
        wanted: &'static str,
    },
    /// The text ends before this word.
    End {
        number: usize,
        wanted: &'static str,
    },
    /// A word after the last.
    More {
        found: &'a str,
    },
}

/// What is wanted of a table's next word.
#[derive(Clone, Copy)]
enum Wanted {
    Name,
    Metadata,
    Cache,
    Origin,
    BlockSize,
    FeatureCount,
    Feature,
    /// The first of two.
    EitherFeature,
    /// The mode, behind `metadata2`.
    Mode,
    /// `metadata2`, behind the mode.
    Metadata2,
    Policy,
    /// How many arguments the policy has.
    ArgumentCount(PolicyName),
    /// A key, where so many arguments are left.
    Key(PolicyName, u64),
    /// Its value, where so many are left.
    Value(PolicyName, u64),
    /// That there is none.
    Nothing,
}

impl Wanted {
    /// What is wanted behind this word; None where it is not what is wanted itself.
    fn after(self, word: &str) -> Option<Wanted> {
        match self {
            Wanted::Name if word == "cache" => Some(Wanted::Metadata),
            Wanted::Metadata => Some(Wanted::Cache),
            Wanted::Cache => Some(Wanted::Origin),
            Wanted::Origin => Some(Wanted::BlockSize),
            Wanted::BlockSize => read_block_size(word).map(|_| Wanted::FeatureCount),
            Wanted::FeatureCount => match read_number(word)? {
                0 => Some(Wanted::Policy),
                1 => Some(Wanted::Feature),
                2 => Some(Wanted::EitherFeature),
                _ => None,
            },
            Wanted::Feature if word == "metadata2" => Some(Wanted::Policy),
            Wanted::EitherFeature if word == "metadata2" => Some(Wanted::Mode),
            Wanted::EitherFeature => read_mode(word).map(|_| Wanted::Metadata2),
            Wanted::Metadata2 if word == "metadata2" => Some(Wanted::Policy),
            Wanted::Feature | Wanted::Mode => read_mode(word).map(|_| Wanted::Policy),
            Wanted::Policy => Some(Wanted::ArgumentCount(read_policy(word)?)),
            Wanted::ArgumentCount(policy) => match read_number(word)? {
                count if count % 2 == 0 => Some(Wanted::argument(policy, count)),
                _ => None,
            },
            Wanted::Key(policy, left) => {
                read_key_of(word, policy)?;
                Some(Wanted::Value(policy, left.saturating_sub(1)))
            }
            Wanted::Value(policy, left) => {
                read_number(word)?;
                Some(Wanted::argument(policy, left.saturating_sub(1)))
            }
            _ => None,
        }
    }

    /// What is wanted where so many arguments are left.
    fn argument(policy: PolicyName, left: u64) -> Wanted {
        match left {
            0 => Wanted::Nothing,
            _ => Wanted::Key(policy, left),
        }
    }

    fn text(self) -> &'static str {
        match self {
            Wanted::Name => "'cache'",
            Wanted::Metadata => "the metadata file",
            Wanted::Cache => "the cache file",
            Wanted::Origin => "the origin file",
            Wanted::BlockSize => "the sectors of a block, 64 to 2097152, a multiple of 64",
            Wanted::FeatureCount => "the number of features, 0, 1 or 2",
            Wanted::Feature | Wanted::EitherFeature => {
                "a feature, 'metadata2', 'writeback', 'writethrough' or 'passthrough'"
            }
            Wanted::Mode => "the mode, 'writeback', 'writethrough' or 'passthrough'",
            Wanted::Metadata2 => "the other feature, 'metadata2'",
            Wanted::Policy => WANTED,
            Wanted::ArgumentCount(_) => "the number of policy arguments, two for each key",
            Wanted::Key(policy, _) if policy.has_key(Key::PromoteMin) => {
                "a key, 'migration_threshold' or 'promote_min'"
            }
            Wanted::Key(_, _) => "a key, 'migration_threshold'",
            Wanted::Value(_, _) => "the value of the key before it, a number below 2^64",
            Wanted::Nothing => "the end",
        }
    }
}

/// The first fault of a text that is no table.
pub fn find_table_fault(text: &str) -> TableFault<'_> {
    let mut wanted = Wanted::Name;
    let mut number: usize = 0;
    for found in SplitSpaces(text) {
        if matches!(wanted, Wanted::Nothing) {
            return TableFault::More { found };
        }
        match wanted.after(found) {
            Some(next) => wanted = next,
            None => {
                return TableFault::Word {
                    number,
                    found,
                    wanted: wanted.text(),
                };
            }
        }
        number = number.saturating_add(1);
    }
    TableFault::End {
        number,
        wanted: wanted.text(),
    }
}

impl<'a> Display for TableFault<'a> {
    fn fmt<W: fmt::Write>(&self, f: &mut Formatter<W>) -> fmt::Result {
        match self {
            TableFault::Word {
                number,
                found,
                wanted,
            } => {
                let place = number.saturating_add(1);
                write!(
                    f,
                    "word {place} of the table is '{found}', and has to be {wanted}"
                )
            }
            TableFault::End { number, wanted } => {
                let place = number.saturating_add(1);
                write!(f, "the table ends before word {place}, {wanted}")
            }
            TableFault::More { found } => write!(
                f,
                "the table goes on after its last word, with '{found}'"
            ),
        }
    }
}
