//! Status lines of worked examples.

use std::alloc::Global;
use std::test::Fail;
use wb_table::{Fields, status_text};
use wb_types::{Mode, Refusal};

/// A target of four cache blocks of 64 sectors, just opened over formatted devices.
fn opened() -> Fields<'static> {
    Fields {
        failed: false,
        used_metadata: 2,
        metadata: 4,
        block: 64,
        mapped: 0,
        cache_blocks: 4,
        read_hits: 0,
        read_misses: 0,
        write_hits: 0,
        write_misses: 0,
        demotions: 0,
        promotions: 0,
        dirty: 0,
        mode: Mode::Writeback,
        metadata2: false,
        threshold: 2048,
        policy: "tinylfu",
        promote_min: Some(2),
    }
}

/// Whether this is the line.
fn is_told(alloc: Global, fields: &Fields<'_>, line: &str) -> Result<bool, Refusal> {
    let mut text = String::new(alloc);
    status_text(fields, &mut text)?;
    Ok(text.as_str() == line)
}

#[test]
fn each_figure_has_its_place(rt: HostRuntime) -> Result<(), Fail> {
    let mut told = opened();
    told.used_metadata = 3;
    told.mapped = 1;
    (told.read_hits, told.read_misses) = (5, 6);
    (told.write_hits, told.write_misses) = (7, 8);
    (told.demotions, told.promotions, told.dirty) = (9, 10, 11);
    let line =
        "1 3/4 64 1/4 5 6 7 8 9 10 11 1 writeback 2 migration_threshold 2048 tinylfu 2 promote_min 2 rw -";
    assert!(rt; is_told(rt.alloc(), &told, line)?);
    told.metadata2 = true;
    let line =
        "1 3/4 64 1/4 5 6 7 8 9 10 11 2 metadata2 writeback 2 migration_threshold 2048 tinylfu 2 promote_min 2 rw -";
    assert!(rt; is_told(rt.alloc(), &told, line)?);
    told.failed = true;
    assert!(rt; is_told(rt.alloc(), &told, "Fail")?);
    Ok(())
}

#[test]
fn a_policy_without_arguments_has_none(rt: HostRuntime) -> Result<(), Fail> {
    let mut told = opened();
    (told.policy, told.promote_min) = ("cleaner", None);
    told.mode = Mode::Passthrough;
    let line = "1 2/4 64 0/4 0 0 0 0 0 0 0 1 passthrough 2 migration_threshold 2048 cleaner 0 rw -";
    assert!(rt; is_told(rt.alloc(), &told, line)?);
    Ok(())
}
