//! Messages: what they say. Texts that are none stand in scripts/cases/stories.txt.

use std::alloc::Global;
use wb_table::read_message;
use wb_types::{CBlockRange, Key, Message};

/// Whether a text gives a key this value.
fn sets(alloc: Global, text: &str, key: Key, value: u64) -> bool {
    let Ok(Message::Set(told, given)) = read_message(alloc, text) else {
        return false;
    };
    let is_that = match key {
        Key::MigrationThreshold => matches!(told, Key::MigrationThreshold),
        Key::PromoteMin => matches!(told, Key::PromoteMin),
    };
    is_that && given == value
}

/// Whether a text names these ranges of cache blocks, each from one up to, and without, another.
fn names(alloc: Global, text: &str, ranges: &[(u32, u32)]) -> bool {
    match read_message(alloc, text) {
        Ok(Message::InvalidateCblocks(told)) => are(told.into_vec(), ranges),
        _ => false,
    }
}

fn are(told: Vec<CBlockRange>, ranges: &[(u32, u32)]) -> bool {
    told.len() == ranges.len()
        && told.as_slice().iter().zip(ranges).all(|(range, (begin, end))| range.begin.0 == *begin
            && range.end.0 == *end)
}

#[test]
fn a_key_gets_its_value(rt: HostRuntime) {
    for (text, key, value) in [
        ("migration_threshold 63", Key::MigrationThreshold, 63),
        ("  migration_threshold   0064 ", Key::MigrationThreshold, 64),
        (
            "promote_min 18446744073709551615",
            Key::PromoteMin,
            u64::MAX,
        ),
    ] {
        assert!(rt; sets(rt.alloc(), text, key, value));
    }
}

#[test]
fn ranges_are_named_in_their_order(rt: HostRuntime) {
    assert!(rt; names(rt.alloc(), "invalidate_cblocks", &[]));
    assert!(rt; names(rt.alloc(), " invalidate_cblocks 3 ", &[(3, 4)]));
    assert!(rt;
        names(
            rt.alloc(),
            "invalidate_cblocks 5-10 0 07-8",
            &[(5, 10), (0, 1), (7, 8)]
        )
    );
    assert!(rt;
        names(
            rt.alloc(),
            "invalidate_cblocks 4294967294",
            &[(4_294_967_294, 4_294_967_295)]
        )
    );
}
