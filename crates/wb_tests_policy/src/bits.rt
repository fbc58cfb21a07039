//! Sets of numbers, of use alone.

ghost use Rattle.std.specs.Prelude.{◌<◌};

use std::alloc::{AllocError, Global};
use std::test::Fail;
use wb_bits::BitSet;

/// Makes a number below the bound a member or none, which then is to be seen.
fn set(members: &mut BitSet, i: usize, member: bool) -> bool {
    if i >= members.size() {
        return false;
    }
    if member {
        members.insert(i);
    } else {
        members.remove(i);
    }
    members.contains(i) == member && members.has(i) == member
}

/// Puts in numbers that fall: each is the least then.
fn fills(members: &mut BitSet, falling: &[usize]) -> bool {
    for i in falling {
        if !set(members, *i, true) || members.least() != Some(*i) {
            return false;
        }
    }
    true
}

/// Takes members out from the least on, till there is none.
fn empties(members: &mut BitSet, rising: &[usize]) -> bool {
    for i in rising {
        if members.least() != Some(*i) || !set(members, *i, false) {
            return false;
        }
    }
    members.least() == None
}

/// Whether the least member from a number on is found, where the members are 0, half the bound and the last number.
fn finds_onward(members: &BitSet, bound: usize) -> bool
    requires { 0 < bound }
{
    members.least_from(0) == Some(0)
        && members.least_from(1) == Some(bound / 2)
        && members.least_from(bound / 2) == Some(bound / 2)
        && members.least_from(bound / 2 + 1) == Some(bound - 1)
        && members.least_from(bound) == None
}

/// Whether a set below a bound serves from its greatest number to its least.
fn serves(alloc: Global, bound: u32) -> bool
    requires { 0 < bound }
{
    let bound = bound as usize;
    let Ok(mut members) = BitSet::new(alloc, bound) else {
        return false;
    };
    serves_all(&mut members, bound)
}

fn serves_all(members: &mut BitSet, bound: usize) -> bool
    requires { 0 < bound }
{
    members.size() == bound
        && fills(members, &[bound - 1, bound / 2, 0])
        && finds_onward(members, bound)
        && empties(members, &[0, bound / 2, bound - 1])
        && !members.has(bound)
}

#[test]
fn the_least_member_of_one_word_and_of_many(rt: HostRuntime) {
    for bound in [
        3, 63, 64, 65, 127, 128, 129, 4_096, 4_097, 262_145, 16_777_217,
    ] {
        assert!(rt; serves(rt.alloc(), bound), "below {bound}");
    }
}

/// Whether a set is empty once it is cleared, and serves on.
fn is_cleared(members: &mut BitSet) -> bool {
    if !fills(members, &[199, 64, 63, 0]) {
        return false;
    }
    members.clear();
    members.least() == None && !members.has(64) && fills(members, &[130])
}

fn clears(alloc: Global) -> Result<bool, AllocError> {
    let mut members = BitSet::new(alloc, 200)?;
    Ok(is_cleared(&mut members))
}

#[test]
fn a_cleared_set_has_no_member(rt: HostRuntime) -> Result<(), Fail> {
    assert!(rt; clears(rt.alloc())?);
    Ok(())
}
