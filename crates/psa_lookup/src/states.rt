ghost use Rattle.std.specs.Prelude.{◌≡◌, [], Some, OnOk, if◌then◌else◌};
ghost use Rattle.std.specs.Option.{option_map};
ghost use Rattle.psa_model.specs.Drafts.{path_position, stands_before};
ghost use Rattle.psa_names.specs.Outlines.{ForkState};
ghost use Rattle.psa_lookup.specs.Repeats.{lesser, same_state};
ghost use Rattle.psa_lookup.specs.States.{first_spot, fork_state, spot_position};

use indexmap::IndexMap;
use psa_model::{DraftForkPath, DraftReference};
use psa_text::OutOfMemory;
use std::alloc::Global;
use std::marker::Model;

/// A path of a fork, with its fork.
#[derive(Clone, Copy)]
pub struct State<'a> {
    pub fork: &'a DraftReference,
    pub path: &'a DraftForkPath,
}

/// The name of a state in the fork at a position.
#[derive(Clone, Copy, Debug, PartialEq, Eq, Hash)]
pub struct StateKey<'a> {
    file: u32,
    tag: u32,
    name: &'a [u8],
}

/// A position in the document.
#[derive(Clone, Copy, Debug)]
pub struct Spot {
    pub file: u32,
    pub tag: u32,
}

/// The earlier of two positions.
fn earlier_spot(first: Option<Spot>, second: Spot) -> Spot
    ensures { Some (spot_position result)
        ≡ lesser (option_map spot_position first) (spot_position second) }
{
    match first {
        Some(one) if !is_before(second, one) => one,
        _ => second,
    }
}

/// Whether a position stands before another.
pub fn is_before(first: Spot, second: Spot) -> bool
    ensures { result ≡ stands_before (spot_position first) (spot_position second) }
{
    first.file < second.file || (first.file == second.file && first.tag < second.tag)
}

/// The first position of each state of each fork. Contracts see the keys with their positions.
#[derive(Drop)]
pub struct FirstStates<'a> {
    map: IndexMap<StateKey<'a>, Spot>,
}

impl<'a> Model for FirstStates<'a> {
    ghost use Rattle.std.specs.Prelude.{List};
    ghost use Rattle.psa_lookup.specs.declared.states.StateKey.{StateKey};
    ghost use Rattle.psa_lookup.specs.declared.states.Spot.{Spot};

    ghost Value = { List (StateKey × Spot) };

    ghost view = { λ s. s.map.entries };
}

impl<'a> FirstStates<'a> {
    /// No state.
    pub fn new(alloc: Global) -> FirstStates<'a>
        ensures { result ≡ [] }
    {
        FirstStates {
            map: IndexMap::new(alloc),
        }
    }

    /// The first position of a state.
    pub fn get(&self, state: State) -> Option<Spot>
        ensures { option_map spot_position result ≡ first_spot self.now (fork_state state.entry) }
    {
        let key = StateKey {
            file: state.fork.place.file,
            tag: state.fork.tag,
            name: state.path.state.as_bytes(),
        };
        self.map.get(&key).copied()
    }

    /// Notes a state at its position.
    pub fn note(&mut self, state: State<'a>) -> Result<(), OutOfMemory>
        ensures { OnOk result ((other : ForkState) → first_spot self.new other
            ≡ (if same_state other (fork_state state.entry)
            then lesser (first_spot self.old other) (path_position state.entry.path.now)
            else first_spot self.old other)) }
    {
        let key = StateKey {
            file: state.fork.place.file,
            tag: state.fork.tag,
            name: state.path.state.as_bytes(),
        };
        let spot = Spot {
            file: state.path.place.file,
            tag: state.path.tag,
        };
        let first = earlier_spot(self.map.get(&key).copied(), spot);
        self.map.insert(key, first)?;
        Ok(())
    }
}
