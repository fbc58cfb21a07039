//! Constructor lines: what they give. Which are none stands in scripts/cases/tables.txt.

use wb_table::{Keys, PolicyName, Table, read_table};
use wb_types::Mode;

/// A table of the files m, c and o with blocks of 64 sectors, in this mode, with metadata of version 2 or not, this policy and these keys.
fn table_of(mode: Mode, metadata2: bool, policy: PolicyName, keys: Keys) -> Table<'static> {
    Table {
        metadata: "m",
        cache: "c",
        origin: "o",
        block: 64,
        mode,
        metadata2,
        policy,
        keys,
    }
}

/// Whether a line is this table.
fn gives(line: &str, table: Table<'_>) -> bool {
    match read_table(line) {
        Ok(read) => read == table,
        Err(_) => false,
    }
}

#[test]
fn a_line_gives_mode_policy_and_keys(rt: HostRuntime) {
    let (writeback, tinylfu) = (Mode::Writeback, PolicyName::TinyLfu);
    for (line, mode, policy, migration_threshold, promote_min) in [
        ("cache m c o 64 0 tinylfu 0", writeback, tinylfu, None, None),
        (
            "cache m c o 64 1 writeback default 0",
            writeback,
            tinylfu,
            None,
            None,
        ),
        (
            "  cache m  c o 0064 01 writethrough cleaner 00 ",
            Mode::Writethrough,
            PolicyName::Cleaner,
            None,
            None,
        ),
        (
            "cache m c o 64 1 passthrough tinylfu 2 promote_min 18",
            Mode::Passthrough,
            tinylfu,
            None,
            Some(18),
        ),
        (
            "cache m c o 64 0 default 6 promote_min 1 migration_threshold 5 promote_min 3",
            writeback,
            tinylfu,
            Some(5),
            Some(3),
        ),
        (
            "cache m c o 64 0 cleaner 2 migration_threshold 18446744073709551615",
            writeback,
            PolicyName::Cleaner,
            Some(u64::MAX),
            None,
        ),
    ] {
        let keys = Keys {
            migration_threshold,
            promote_min,
        };
        assert!(rt; gives(line, table_of(mode, false, policy, keys)));
    }
}

#[test]
fn metadata2_stands_once_before_or_behind_a_mode(rt: HostRuntime) {
    for (line, mode) in [
        ("cache m c o 64 1 metadata2 tinylfu 0", Mode::Writeback),
        (
            "cache m c o 64 2 metadata2 writeback tinylfu 0",
            Mode::Writeback,
        ),
        (
            "cache m c o 64 2 metadata2 writethrough tinylfu 0",
            Mode::Writethrough,
        ),
        (
            "cache m c o 64 2 passthrough metadata2 tinylfu 0",
            Mode::Passthrough,
        ),
    ] {
        assert!(rt; gives(line, table_of(mode, true, PolicyName::TinyLfu, Keys::new())));
    }
}
