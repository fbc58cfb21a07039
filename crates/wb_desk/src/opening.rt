//! What an opened desk makes of the entries that were read, and of the settings.

ghost use Rattle.std.specs.Prelude.{◌≡◌, ◌≤◌, ◌<◌, ◌^◌, IfOk, IfErr, OnOk, OnErr, is_some, length, map};
ghost use Rattle.std.specs.List.{count_by};
ghost use Rattle.wb_tree.specs.Mapping.{IsMapping, IsPlaceOf};
ghost use Rattle.wb_space.specs.Places.{HaveLeft, noted, place_count, unused};
ghost use Rattle.wb_policy.specs.Law.{Holdings, origins};
ghost use Rattle.wb_desk.specs.Fields.{IsIndex};
ghost use Rattle.wb_desk.specs.Opening.{is_key, last_value as value_of, IsSet, IsBad};

use std::alloc::{AllocError, Global};
use wb_bits::BitSet;
use wb_policy::Policy;
use wb_space::{left_of, place_count};
use wb_tree::Tree;
use wb_types::{CBlock, Geometry, Key, OBlock, Place, Refusal};

/// Whether each cache block has an entry.
pub(crate) fn mapped_blocks(
    alloc: Global,
    tree: &Tree<Global>,
    geometry: &Geometry,
) -> Result<Vec<bool>, AllocError>
    requires { length tree.now.entries ≡ geometry.now.cache_blocks }
    ensures { IfOk result (λ v. v.items ≡ map is_some tree.now.entries) }
{
    let mut mapped = vec![in alloc; false; geometry.cache_blocks as usize]?;
    for c in 0..geometry.cache_blocks {
        mapped[c as usize] = tree.get(CBlock(c)).is_some();
    }
    Ok(mapped)
}

/// How many of them have one.
pub(crate) fn count_mapped(mapped: &[bool]) -> u32
    requires { length mapped.now < 2 ^ 32 }
    ensures { result ≡ count_by (λ m. m) mapped.now }
{
    mapped.iter().filter(|m| **m).count() as u32
}

/// Where each origin block is cached.
pub(crate) fn cached_blocks(
    alloc: Global,
    tree: &Tree<Global>,
    geometry: &Geometry,
) -> Result<Vec<Option<CBlock>>, AllocError>
    requires { IsMapping geometry.now.cache_blocks geometry.now.origin_blocks tree.now.entries }
    ensures { IfOk result (λ v. IsIndex geometry.now.origin_blocks (origins tree.now.entries) v.items) }
{
    let mut cached = vec![in alloc; None; geometry.origin_blocks as usize]?;
    for c in 0..geometry.cache_blocks {
        if let Some(entry) = tree.get(CBlock(c)) {
            let OBlock(b) = entry.origin;
            cached[b as usize] = Some(CBlock(c));
        }
    }
    Ok(cached)
}

/// The places that are used, of those that can ever be handed out, but for those where a node of the tree is known to stand.
pub(crate) fn left_places(
    alloc: Global,
    tree: &Tree<Global>,
    geometry: &Geometry,
    used: &[Place],
) -> Result<BitSet, Refusal>
    ensures left { IfOk result (λ left. HaveLeft (IsPlaceOf tree.now) (noted used.now (unused (place_count geometry.now))) left) }
    ensures refused { IfErr result (λ e. e ≡ Refusal.Memory) }
{
    let known = tree.places(alloc)?;
    let left = left_of(alloc, place_count(geometry), used, &known)?;
    Ok(left)
}

/// The last value that a key is given, if any.
pub(crate) fn last_value(keys: &[(Key, u64)], wanted: Key) -> Option<u64>
    ensures { result ≡ value_of wanted keys.now }
{
    let mut found = None;
    for entry in keys {
        let (key, value) = *entry;
        if is_same(wanted, key) {
            found = Some(value);
        }
    }
    found
}

fn is_same(wanted: Key, key: Key) -> bool
    ensures { result ≡ is_key wanted key }
{
    match wanted {
        Key::MigrationThreshold => match key {
            Key::MigrationThreshold => true,
            Key::PromoteMin => false,
        },
        Key::PromoteMin => match key {
            Key::MigrationThreshold => false,
            Key::PromoteMin => true,
        },
    }
}

/// Gives the policy the value of its setting, if one is named; `BadMessage` where it does not take it.
pub(crate) fn set_policy<P: Policy>(policy: &mut P, value: Option<u64>) -> Result<(), Refusal>
    ensures ok { OnOk result (IsSet P.with_setting policy.old value policy.new) }
    ensures bad { OnErr result (IsBad P.with_setting policy.old value) }
    ensures refused { IfErr result (λ e. e ≡ Refusal.BadMessage) }
    ensures knows { (m : Holdings) → P.knows policy.old m → P.knows policy.new m }
{
    match value {
        Some(value) => policy.set(Key::PromoteMin, value),
        None => Ok(()),
    }
}
