//! Which metadata places the images use.

ghost use Rattle.std.specs.Prelude.{◌≡◌, ◌<◌, ◌≤◌, ◌+◌, ◌*◌, ◌^◌, ℕ, List, [], ◌∷◌, length, map, take, true, false, not, IfOk, slice_set, get_or};
ghost use Rattle.std.specs.List.{position};
ghost use Rattle.std.specs.Option.{IfSome, IfNone};
ghost use Rattle.wb_bits.specs.Leasts.{IsLeastFrom};
ghost use Rattle.wb_space.specs.Places.{unused, noted, noted_known, cleared_places, without, with_running, is_free_place, free_places, place};

use std::alloc::{AllocError, Global};
use std::marker::Model;
use std::mem;
use wb_bits::BitSet;
use wb_types::Place;

/// The metadata places below a bound that the committed and the running image use.
///
/// The newest image is the running one, or where none runs, the committed one again. `changed` marks where it differs from
/// the committed one, so that a commit begins and ends in a few words' work for each of these places. `free` has those that
/// neither of both uses.
pub struct Places {
    committed: BitSet,
    newest: BitSet,
    changed: BitSet,
    free: BitSet,
    committing: bool,
}

impl Drop for Places {
    fn drop(self) {
        let Places {
            committed,
            newest,
            changed,
            free,
            committing: _,
        } = self;
        drop(committed);
        drop(newest);
        drop(changed);
        drop(free);
    }
}

impl Model for Places {
    ghost use Rattle.wb_space.specs.Places.{PlacesNow};
    ghost use Rattle.wb_space.specs.Bounds.{AreEven, shown_places};

    ghost Value = { PlacesNow };

    ghost view = { shown_places };

    ghost invariant = { AreEven };
}

impl Places {
    /// The committed image uses these; those from the bound on are passed over.
    pub fn new(alloc: Global, bound: usize, used: &[Place]) -> Result<Places, AllocError>
        requires { bound < 2 ^ 32 }
        ensures { IfOk result (λ places. places ≡ record {
          in_use = record { committed = noted used.now (unused bound); running = unused bound };
          committing = false;
        }) }
    {
        let committed = set_of(alloc, bound, used)?;
        let newest = set_of(alloc, bound, used)?;
        let changed = BitSet::new(alloc, bound)?;
        let free = others_of(alloc, &committed)?;
        Ok(Places {
            committed,
            newest,
            changed,
            free,
            committing: false,
        })
    }

    /// The bound.
    pub fn count(&self) -> usize
        ensures count { result ≡ length self.now.in_use.committed }
        ensures small { result < 2 ^ 32 }
    {
        self.committed.size()
    }

    /// Whether a commit runs.
    pub fn is_committing(&self) -> bool
        ensures { result ≡ self.now.committing }
    {
        self.committing
    }

    /// The running image uses these, and no others; those from the bound on are passed over. A few words' work for each of
    /// them, and for each place of the committed image.
    pub fn begin(&mut self, used: &[Place])
        requires { self.old.committing ≡ false }
        ensures { self.new ≡ record {
          in_use = record self.old.in_use { running = noted used.now (unused (length self.old.in_use.running)) };
          committing = true;
        } }
    {
        self.committing = true;
        self.leave_all();
        for place in used {
            self.add(*place);
        }
    }

    /// The running image uses the places of the committed one, but those that left it, and these; those from the bound on
    /// are passed over. A few words' work for each of both. None is left then.
    pub fn begin_changed<T>(&mut self, left: &mut BitSet, added: &[(Place, T)])
        requires idle { self.old.committing ≡ false }
        requires size { length left.old ≡ length self.old.in_use.committed }
        ensures places { self.new ≡ record {
          in_use = record self.old.in_use { running = noted (map (λ node. node.0) added.now) (without left.old self.old.in_use.committed) };
          committing = true;
        } }
        ensures left { left.new ≡ unused (length left.old) }
    {
        self.committing = true;
        self.leave(left);
        for node in added {
            self.add(node.0);
        }
    }

    /// The running image is the committed one: a few words' work for each place by which they differ.
    pub fn end(&mut self)
        requires { self.old.committing ≡ true }
        ensures { self.new ≡ record {
          in_use = record { committed = self.old.in_use.running; running = unused (length self.old.in_use.committed) };
          committing = false;
        } }
    {
        mem::swap(&mut self.committed, &mut self.newest);
        follow(
            &mut self.newest,
            &mut self.free,
            &self.committed,
            &mut self.changed,
        );
        self.committing = false;
    }

    /// The so many least free places from 2 on, rising: a few words' work for each.
    pub fn free(&self, alloc: Global, n: usize) -> Result<Vec<Place>, AllocError>
        ensures { IfOk result (λ v. v.items ≡ map place (take n (free_places self.now.in_use))) }
    {
        let mut places = Vec::new(alloc);
        let mut from = 2;
        while places.len() < n {
            let Some(at) = self.least_free(from) else {
                return Ok(places);
            };
            places.push(Place(at as u32))?;
            from = at + 1;
        }
        Ok(places)
    }

    /// The least free place from this one on.
    fn least_free(&self, from: usize) -> Option<usize>
        ensures found { IfSome result (IsLeastFrom (is_free_place self.now.in_use) from) }
        ensures inside { IfSome result (λ at. at < length self.now.in_use.committed) }
        ensures small { IfSome result (λ at. at < 2 ^ 32) }
        ensures none { IfNone result ((at : ℕ) → from ≤ at → at < length self.now.in_use.committed → is_free_place self.now.in_use at ≡ false) }
    {
        self.free.least_from(from)
    }

    /// These places leave the running image, and none is left then.
    fn leave(&mut self, left: &mut BitSet)
        requires running { self.old.committing ≡ true }
        requires size { length left.old ≡ length self.old.in_use.committed }
        ensures places { self.new ≡ with_running self.old (without left.old self.old.in_use.running) }
        ensures left { left.new ≡ unused (length left.old) }
    {
        while let Some(at) = left.least() {
            left.remove(at);
            self.put(at, false);
        }
    }

    /// All places leave the running image.
    fn leave_all(&mut self)
        requires { self.old.committing ≡ true }
        ensures { self.new ≡ with_running self.old (unused (length self.old.in_use.running)) }
    {
        while let Some(at) = self.least_running() {
            self.put(at, false);
        }
    }

    fn least_running(&self) -> Option<usize>
        requires { self.now.committing ≡ true }
        ensures least { result ≡ position (λ b. b) self.now.in_use.running }
        ensures inside { IfSome result (λ at. at < length self.now.in_use.committed) }
    {
        self.newest.least()
    }

    /// The running image uses this place too; one from the bound on is passed over.
    fn add(&mut self, place: Place)
        requires { self.old.committing ≡ true }
        ensures { self.new ≡ with_running self.old (slice_set self.old.in_use.running place.0 true) }
    {
        let Place(at) = place;
        let at = at as usize;
        if at < self.newest.size() {
            self.put(at, true);
        }
    }

    /// The running image uses this place, or no more.
    fn put(&mut self, at: usize, used: bool)
        requires running { self.old.committing ≡ true }
        requires within { at < length self.old.in_use.committed }
        ensures { self.new ≡ with_running self.old (slice_set self.old.in_use.running at used) }
    {
        self.newest.set(at, used);
        self.changed.insert(at);
        let free = !self.committed.contains(at) && !used;
        self.free.set(at, free);
    }
}

/// Of the places for twice `n` nodes and `m` more behind the root slots two images leave all free but those that they use:
/// outside a commit, `n` and `m` beside an image of at most `n` nodes.
pub fn free_places_suffice()
    ensures { (n m : ℕ) (committed running : List Place) → 2 * n + m ≤
        length (free_places (record {
          committed = noted committed (unused (2 + 2 * n + m));
          running = noted running (unused (2 + 2 * n + m));
        }))
        + length committed + length running }
{}

/// The set of the places below a bound that are used, but for those where something is known to stand.
pub fn left_of(
    alloc: Global,
    bound: usize,
    used: &[Place],
    known: &[Place],
) -> Result<BitSet, AllocError>
    requires { bound < 2 ^ 32 }
    ensures { IfOk result (λ left. left ≡ cleared_places known.now (noted used.now (unused bound))) }
{
    let mut left = set_of(alloc, bound, used)?;
    for place in known {
        clear_one(&mut left, *place);
    }
    Ok(left)
}

fn clear_one(uses: &mut BitSet, place: Place)
    ensures { uses.new ≡ slice_set uses.old place.0 false }
{
    let Place(at) = place;
    let at = at as usize;
    if at < uses.size() {
        uses.remove(at);
    }
}

/// These places left too, where one is told; those from the bound of the set on are passed over.
pub fn note_left(left: &mut BitSet, places: &[Option<Place>])
    ensures { left.new ≡ noted_known places.now left.old }
{
    for place in places {
        note_one_left(left, *place);
    }
}

fn note_one_left(left: &mut BitSet, place: Option<Place>)
    ensures { left.new ≡ noted_known (place ∷ []) left.old }
{
    if let Some(place) = place {
        note_one(left, place);
    }
}

/// The set of these places below a bound.
fn set_of(alloc: Global, bound: usize, used: &[Place]) -> Result<BitSet, AllocError>
    requires { bound < 2 ^ 32 }
    ensures { IfOk result (λ set. set ≡ noted used.now (unused bound)) }
{
    let mut uses = BitSet::new(alloc, bound)?;
    note(&mut uses, used);
    Ok(uses)
}

fn note(uses: &mut BitSet, used: &[Place])
    ensures { uses.new ≡ noted used.now uses.old }
{
    for place in used {
        note_one(uses, *place);
    }
}

fn note_one(uses: &mut BitSet, place: Place)
    ensures { uses.new ≡ slice_set uses.old place.0 true }
{
    let Place(at) = place;
    let at = at as usize;
    if at < uses.size() {
        uses.insert(at);
    }
}

/// The set of the places that are not in this one.
fn others_of(alloc: Global, uses: &BitSet) -> Result<BitSet, AllocError>
    requires { length uses.now < 2 ^ 32 }
    ensures { IfOk result (λ others. others ≡ map not uses.now) }
{
    let count = uses.size();
    let mut others = BitSet::new(alloc, count)?;
    for at in 0..count {
        others.set(at, !uses.contains(at));
    }
    Ok(others)
}

/// Has one set follow another, and one have what that has not, where they may differ, and no mark is left: a few words' work
/// for each.
fn follow(follower: &mut BitSet, others: &mut BitSet, followed: &BitSet, changed: &mut BitSet)
    requires even { length follower.old ≡ length followed.now }
    requires span { length others.old ≡ length followed.now }
    requires marks { length changed.old ≡ length followed.now }
    requires elsewhere { (k : ℕ) → get_or changed.old k false ≡ false → get_or follower.old k false ≡ get_or followed.now k false }
    requires opposite { (k : ℕ) → get_or changed.old k false ≡ false → get_or others.old k false ≡ get_or (map not followed.now) k false }
    ensures follower { follower.new ≡ followed.now }
    ensures others { others.new ≡ map not followed.now }
    ensures changed { changed.new ≡ unused (length followed.now) }
{
    while let Some(at) = changed.least() {
        changed.remove(at);
        let used = followed.contains(at);
        follower.set(at, used);
        others.set(at, !used);
    }
}
