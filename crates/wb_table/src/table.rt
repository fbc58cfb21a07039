//! The constructor line of a target.

ghost use Rattle.std.specs.Prelude.{◌≡◌, ◌++◌, ℕ, Bool, List, IfOk, IfErr, IfSome, IfNone};
ghost use Rattle.wb_types.specs.declared.message.Key.{Key as KeyName};
ghost use Rattle.wb_types.specs.declared.mode.Mode.{Mode as ModeTerm};
ghost use Rattle.wb_table.specs.Table.{IsTable, IsBlockSize, IsChosenByOne, IsChosenByTwo, SpellsFeatures, SpellsArguments, SpellsKey, NamesKey, no_keys, with_key};
ghost use Rattle.wb_table.specs.Status.{mode_name};
ghost use Rattle.wb_table.specs.Words.{words_of};
ghost use Rattle.wb_table.specs.declared.table.Keys.{Keys as KeysTerm};
ghost use Rattle.wb_table.specs.declared.table.Table.{Table as TableTerm};

use crate::number::read_number;
use crate::policy::{PolicyName, read_policy};
use crate::words::SplitSpaces;
use wb_types::{Key, Mode, Refusal};

/// The files of a target, the size of its blocks, its mode, and its policy with the keys that are given.
#[derive(Clone, Copy, PartialEq, Eq)]
pub struct Table<'a> {
    pub metadata: &'a str,
    pub cache: &'a str,
    pub origin: &'a str,
    /// Sectors of a block: 64 to 2,097,152, a multiple of 64.
    pub block: u64,
    pub mode: Mode,
    /// Whether the metadata are of version 2.
    pub metadata2: bool,
    pub policy: PolicyName,
    pub keys: Keys,
}

/// The keys that a table gives, each with the last value that it was given.
#[derive(Clone, Copy, PartialEq, Eq)]
pub struct Keys {
    pub migration_threshold: Option<u64>,
    pub promote_min: Option<u64>,
}

impl Keys {
    /// None is given.
    pub fn new() -> Keys
        ensures { result ≡ no_keys }
    {
        Keys {
            migration_threshold: None,
            promote_min: None,
        }
    }

    /// These, and then this key.
    fn with(self, key: Key, value: u64) -> Keys
        ensures { result ≡ with_key self key value }
    {
        match key {
            Key::MigrationThreshold => Keys {
                migration_threshold: Some(value),
                promote_min: self.promote_min,
            },
            Key::PromoteMin => Keys {
                migration_threshold: self.migration_threshold,
                promote_min: Some(value),
            },
        }
    }
}

/// Reads `cache <metadata> <cache> <origin> <block size> <#features> <feature>* <policy> <#arguments> [<key> <value>]*` (the
/// constructor of the kernel's `cache.rst`), with nothing after it: words parted by spaces. The features are the mode, `writeback`,
/// `writethrough` or `passthrough`, where none means the first, and `metadata2`, each at most once, in any order; the policy `tinylfu`, `default` (the same) or `cleaner`; a key
/// `migration_threshold`, and under TinyLFU `promote_min`. Anything else is `BadTable`. A value that is no value of its key is read.
pub fn read_table(text: &str) -> Result<Table<'_>, Refusal>
    ensures found { IfOk result (IsTable (words_of text.now)) }
    ensures refused { IfErr result (λ refusal. refusal ≡ Refusal.BadTable) }
    ensures outside { IfErr result (λ _. (table : TableTerm) → ¬ IsTable (words_of text.now) table) }
{
    read_words(SplitSpaces(text)).ok_or(Refusal::BadTable)
}

fn read_words(mut words: SplitSpaces<'_>) -> Option<Table<'_>>
    ensures found { IfSome result (IsTable (words_of words.entry.0.now)) }
    ensures outside { IfNone result ((table : TableTerm) → ¬ IsTable (words_of words.entry.0.now) table) }
{
    words.expect("cache")?;
    let metadata = words.next()?;
    let cache = words.next()?;
    let origin = words.next()?;
    let block = read_block_size(words.next()?)?;
    let (mode, metadata2) = read_features(&mut words)?;
    let policy = read_policy(words.next()?)?;
    let keys = read_arguments(words, policy)?;
    Some(Table {
        metadata,
        cache,
        origin,
        block,
        mode,
        metadata2,
        policy,
        keys,
    })
}

/// Reads the size of a block.
pub(crate) fn read_block_size(word: &str) -> Option<u64>
    ensures found { IfSome result (IsBlockSize word.now) }
    ensures none { IfNone result ((block : ℕ) → ¬ IsBlockSize word.now block) }
{
    let block = read_number(word)?;
    if (64..=2_097_152).contains(&block) && block % 64 == 0 {
        Some(block)
    } else {
        None
    }
}

/// Takes the number of features, and these: which mode they choose, and whether metadata of version 2.
fn read_features(words: &mut SplitSpaces<'_>) -> Option<(Mode, bool)>
    ensures found { IfSome result (λ read. (taken : List (List ℕ)) × (words_of words.old.0.now ≡ taken ++ words_of words.new.0.now) × SpellsFeatures taken read.0 read.1) }
    ensures only { IfSome result (λ _. (taken rest : List (List ℕ)) (mode : ModeTerm) (metadata2 : Bool) → words_of words.old.0.now ≡ taken ++ rest → SpellsFeatures taken mode metadata2 → rest ≡ words_of words.new.0.now) }
    ensures none { IfNone result ((taken rest : List (List ℕ)) (mode : ModeTerm) (metadata2 : Bool) → words_of words.old.0.now ≡ taken ++ rest → ¬ SpellsFeatures taken mode metadata2) }
{
    match read_number(words.next()?)? {
        0 => Some((Mode::Writeback, false)),
        1 => read_feature(words.next()?),
        2 => {
            let first = words.next()?;
            let second = words.next()?;
            read_two_features(first, second)
        }
        _ => None,
    }
}

/// Reads a feature that stands alone.
fn read_feature(word: &str) -> Option<(Mode, bool)>
    ensures found { IfSome result (λ read. IsChosenByOne word.now read.0 read.1) }
    ensures none { IfNone result ((mode : ModeTerm) (metadata2 : Bool) → ¬ IsChosenByOne word.now mode metadata2) }
{
    match word {
        "metadata2" => Some((Mode::Writeback, true)),
        _ => match read_mode(word) {
            Some(mode) => Some((mode, false)),
            None => None,
        },
    }
}

/// Reads two features, a mode and `metadata2`.
fn read_two_features(first: &str, second: &str) -> Option<(Mode, bool)>
    ensures found { IfSome result (λ read. IsChosenByTwo first.now second.now read.0 read.1) }
    ensures none { IfNone result ((mode : ModeTerm) (metadata2 : Bool) → ¬ IsChosenByTwo first.now second.now mode metadata2) }
{
    let mode = match (first, second) {
        ("metadata2", _) => read_mode(second)?,
        (_, "metadata2") => read_mode(first)?,
        _ => return None,
    };
    Some((mode, true))
}

/// Reads the name of a mode: `writeback`, `writethrough` or `passthrough`. None is any other word.
pub fn read_mode(word: &str) -> Option<Mode>
    ensures found { IfSome result (λ mode. word.now ≡ mode_name mode) }
    ensures none { IfNone result ((mode : ModeTerm) → ¬ (word.now ≡ mode_name mode)) }
{
    match word {
        "writeback" => Some(Mode::Writeback),
        "writethrough" => Some(Mode::Writethrough),
        "passthrough" => Some(Mode::Passthrough),
        _ => None,
    }
}

/// Reads the number of a policy's arguments, and these up to the end: which keys they give.
fn read_arguments(mut words: SplitSpaces<'_>, policy: PolicyName) -> Option<Keys>
    ensures found { IfSome result (SpellsArguments policy (words_of words.entry.0.now)) }
    ensures none { IfNone result ((keys : KeysTerm) → ¬ SpellsArguments policy (words_of words.entry.0.now) keys) }
{
    let mut left = read_number(words.next()?)?;
    let mut keys = Keys::new();
    while let Some(word) = words.next() {
        let key = read_key_of(word, policy)?;
        let value = read_number(words.next()?)?;
        keys = keys.with(key, value);
        left = left.checked_sub(2)?;
    }
    if left == 0 { Some(keys) } else { None }
}

/// Reads the name of a key that can be given under a policy.
pub(crate) fn read_key_of(word: &str, policy: PolicyName) -> Option<Key>
    ensures found { IfSome result (NamesKey policy word.now) }
    ensures only { IfSome result (λ key. (named : KeyName) → NamesKey policy word.now named → named ≡ key) }
    ensures none { IfNone result ((key : KeyName) → ¬ NamesKey policy word.now key) }
{
    let key = read_key(word)?;
    if policy.has_key(key) { Some(key) } else { None }
}

/// Reads the name of a key.
pub(crate) fn read_key(word: &str) -> Option<Key>
    ensures found { IfSome result (SpellsKey word.now) }
    ensures only { IfSome result (λ key. (named : KeyName) → SpellsKey word.now named → named ≡ key) }
    ensures none { IfNone result ((key : KeyName) → ¬ SpellsKey word.now key) }
{
    match word {
        "migration_threshold" => Some(Key::MigrationThreshold),
        "promote_min" => Some(Key::PromoteMin),
        _ => None,
    }
}
