ghost use Rattle.std.specs.Prelude.{◌≡◌, ◌==◌, ◌<◌, ◌≤◌, ◌%◌, ◌^◌, [], length, reverse, IfOk, if◌then◌else◌};
ghost use Rattle.std.specs.List.{slice_get};
ghost use Rattle.psa_model.specs.Formulas.{is_same};
ghost use Rattle.psa_model.specs.Truth.{house_states, state_of};
ghost use Rattle.psa_prep.specs.States.{houses_at, is_blank, is_changed, AreEarlier, AreShared, AreStates, HasParts, IsJoined, IsMade, IsSet, IsWith};

use indexmap::IndexSet;
use psa_model::{Expanded, HouseId};
use psa_text::OutOfMemory;
use sqlite_items::at;
use std::alloc::Global;

/// The parts of a set of house events: whether the first one is in it, and the numbers of two sets that
/// have its further ones turn by turn. The house event at `2 * k + 1` is in it where that at `k` is in
/// the left part, and the one at `2 * k + 2` where that at `k` is in the right part.
#[derive(Clone, Copy, Debug, PartialEq, Eq, Hash)]
pub struct Changes {
    pub left: u64,
    pub right: u64,
    pub first: bool,
}

/// The lists of house states that paths set, each by the set of the house events whose state differs
/// from the model's. Set number 0 is empty, so list number 0 is that of the model, and equal lists have
/// equal numbers, in whatever order they were set: each set is kept once, by its parts.
#[derive(Drop)]
pub struct HouseStates {
    pub changes: IndexSet<Changes>,
}

/// A house event's number has so many bits, and a set is so many parts deep.
const NUMBER_BITS: u32 = 32;

impl HouseStates {
    /// The list of the model alone.
    pub fn new(alloc: Global) -> HouseStates
        ensures { result.changes.keys ≡ [] }
    {
        HouseStates {
            changes: IndexSet::new(alloc),
        }
    }

    /// The state of a house event in the list with the number.
    pub fn state(&self, expanded: &Expanded, number: u64, house: HouseId) -> bool
        requires earlier { AreEarlier (reverse self.now.changes.keys) }
        requires number { number ≤ length (reverse self.now.changes.keys) }
        requires house { house.0 < length expanded.now.model.houses }
        ensures { result ≡ state_of (slice_get (houses_at (house_states expanded.now.model)
            (reverse self.now.changes.keys) number) house.0) }
    {
        let state = model_state(expanded, house);
        if self.is_changed(number, house.0) {
            !state
        } else {
            state
        }
    }

    /// Whether the house event is in the set with the number.
    fn is_changed(&self, number: u64, house: u32) -> bool
        requires earlier { AreEarlier (reverse self.now.changes.keys) }
        requires number { number ≤ length (reverse self.now.changes.keys) }
        ensures { result ≡ is_changed (reverse self.now.changes.keys) number house }
    {
        let mut place = number;
        let mut left = house;
        while left > 0 {
            let parts = self.parts(place);
            place = part_of(parts, left - 1);
            left = (left - 1) / 2;
        }
        self.parts(place).first
    }

    /// The parts of the set with the number.
    fn parts(&self, number: u64) -> Changes
        requires earlier { AreEarlier (reverse self.now.changes.keys) }
        requires number { number ≤ length (reverse self.now.changes.keys) }
        ensures { HasParts (reverse self.now.changes.keys) number result }
    {
        if number == 0 {
            return Changes {
                left: 0,
                right: 0,
                first: false,
            };
        }
        match self.changes.get_index((number - 1) as usize) {
            Some(parts) => *parts,
            None => unreachable!(),
        }
    }

    /// The number of the list with the number, where the house event has the state.
    pub fn set(
        &mut self,
        expanded: &Expanded,
        number: u64,
        house: HouseId,
        state: bool,
    ) -> Result<u64, OutOfMemory>
        requires states { AreStates (house_states expanded.now.model)
            (reverse self.old.changes.keys) }
        requires number { number ≤ length (reverse self.old.changes.keys) }
        requires house { house.0 < length expanded.now.model.houses }
        ensures { IfOk result (IsSet (house_states expanded.now.model)
            (reverse self.old.changes.keys) (reverse self.new.changes.keys)
            number house.0 state) }
    {
        let changed = !is_state(model_state(expanded, house), state);
        self.with(number, house.0, changed, NUMBER_BITS)
    }

    /// The number of the set with the number, where the house event is in it or not. The recursion is at
    /// most so many bits deep as the house event's number has.
    fn with(
        &mut self,
        number: u64,
        house: u32,
        changed: bool,
        bits: u32,
    ) -> Result<u64, OutOfMemory>
        requires shared { AreShared (reverse self.old.changes.keys) }
        requires number { number ≤ length (reverse self.old.changes.keys) }
        requires few { house < 2 ^ bits }
        ensures { IfOk result (IsWith (reverse self.old.changes.keys)
            (reverse self.new.changes.keys) number house changed) }
    {
        let mut parts = self.parts(number);
        if house == 0 {
            parts.first = changed;
            return self.join(parts);
        }
        let more = house - 1;
        if more % 2 == 0 {
            parts.left = self.with(parts.left, more / 2, changed, bits - 1)?;
        } else {
            parts.right = self.with(parts.right, more / 2, changed, bits - 1)?;
        }
        self.join(parts)
    }

    /// The number of the set with these parts.
    fn join(&mut self, parts: Changes) -> Result<u64, OutOfMemory>
        requires shared { AreShared (reverse self.old.changes.keys) }
        requires left { parts.left ≤ length (reverse self.old.changes.keys) }
        requires right { parts.right ≤ length (reverse self.old.changes.keys) }
        ensures { IfOk result (IsJoined parts (reverse self.old.changes.keys)
            (reverse self.new.changes.keys)) }
    {
        if parts.is_empty() {
            Ok(0)
        } else {
            add(&mut self.changes, parts)
        }
    }
}

impl Changes {
    /// Whether no house event is in the set.
    fn is_empty(self) -> bool
        ensures { result ≡ is_blank self }
    {
        !self.first && self.left == 0 && self.right == 0
    }
}

/// The part that has a further house event.
fn part_of(parts: Changes, more: u32) -> u64
    ensures { result ≡ (if more % 2 == 0 then parts.left else parts.right) }
{
    if more % 2 == 0 {
        parts.left
    } else {
        parts.right
    }
}

/// The number of the set that the parts make.
fn add(changes: &mut IndexSet<Changes>, parts: Changes) -> Result<u64, OutOfMemory>
    ensures { IfOk result (IsMade parts (reverse changes.old.keys) (reverse changes.new.keys)) }
{
    let (index, _) = changes.insert_full(parts)?;
    let _small = changes.len();
    Ok(index as u64 + 1)
}

/// The state of a house event in the model.
fn model_state(expanded: &Expanded, house: HouseId) -> bool
    ensures { result ≡ state_of (slice_get (house_states expanded.now.model) house.0) }
{
    match at(expanded.model.houses.as_slice(), house.0 as usize) {
        Some(house) => house.state,
        None => false,
    }
}

/// Whether the two states are the same.
fn is_state(one: bool, other: bool) -> bool
    ensures { result ≡ is_same one other }
{
    if one { other } else { !other }
}
