ghost use Rattle.std.specs.Prelude.{◌≡◌, ◌<◌, ◌^◌, [], length, map, flat_map, IfOk};
ghost use Rattle.std.specs.Option.{option_map};
ghost use Rattle.psa_spaces.specs.Addresses.{Address, place_of};
ghost use Rattle.psa_names.specs.Outlines.{entry_of};
ghost use Rattle.psa_names.specs.PlacedFaults.{earliest};
ghost use Rattle.psa_lookup.specs.Keys.{first_with};
ghost use Rattle.psa_lookup.specs.Numbers.{IsNumbered};
ghost use Rattle.psa_lookup.specs.Repeats.{definition_repeat, repeats_from, state_repeat};
ghost use Rattle.psa_lookup.specs.Sooner.{placed_fault, sooner_of};
ghost use Rattle.psa_lookup.specs.States.{first_spot, fork_state, fork_states};

use crate::forks::collect_states;
use crate::notes::note_definition;
use crate::numbers::Numbered;
use crate::placed::{Placed, sooner};
use crate::states::{FirstStates, Spot, State, is_before};
use psa_model::{DraftDefinition, FaultKind};
use psa_spaces::Places;
use psa_text::OutOfMemory;
use std::alloc::Global;

/// The places of the names of a draft, and the first name that stands twice in a space.
#[derive(Drop)]
pub struct Noted<'a> {
    pub places: Places<'a>,
    pub first: Option<Placed<'a>>,
}

/// The fault of a definition whose name stands before it.
fn definition_fault(definition: &DraftDefinition, repeats: bool) -> Option<Placed<'_>>
    ensures { option_map placed_fault result
        ≡ earliest (definition_repeat repeats (entry_of definition.now)) }
{
    if !repeats {
        return None;
    }
    Some(Placed {
        kind: FaultKind::Duplicate,
        place: definition.place,
        tag: definition.tag,
        name: &definition.name,
    })
}

/// The fault of a state whose name stands before it in its fork.
fn state_fault<'a>(least: &FirstStates, state: State<'a>) -> Option<Placed<'a>>
    ensures { option_map placed_fault result
        ≡ earliest (state_repeat (first_spot least.now) (fork_state state.entry)) }
{
    let spot = Spot {
        file: state.path.place.file,
        tag: state.path.tag,
    };
    match least.get(state) {
        Some(first) if is_before(first, spot) => Some(Placed {
            kind: FaultKind::Duplicate,
            place: state.path.place,
            tag: state.path.tag,
            name: &state.path.state,
        }),
        _ => None,
    }
}

/// The first of a fault and those of some states.
fn soonest_of_states<'a>(
    first: Option<Placed<'a>>,
    least: &FirstStates,
    states: &[State<'a>],
) -> Option<Placed<'a>>
    ensures { option_map placed_fault result ≡ sooner_of (option_map placed_fault first.entry)
        (earliest (flat_map (state_repeat (first_spot least.now)) (fork_states states.now))) }
{
    let mut soonest = first;
    for state in states {
        soonest = sooner(soonest, state_fault(least, *state));
    }
    soonest
}

/// Notes the names of definitions, in order.
pub fn note_all<'a>(
    alloc: Global,
    definitions: &'a [DraftDefinition],
    numbered: &Numbered,
    least: &FirstStates,
) -> Result<Noted<'a>, OutOfMemory>
    requires numbered { IsNumbered numbered.now.containers numbered.now.numbers definitions.now }
    requires few { length definitions.now < 2 ^ 32 }
    ensures places { IfOk result (λ noted. (address : Address) → place_of noted.places address
        ≡ first_with numbered.now.containers (map entry_of definitions.now) address) }
    ensures first { IfOk result (λ noted. option_map placed_fault noted.first
        ≡ earliest (repeats_from numbered.now.containers (first_spot least.now) []
        (map entry_of definitions.now))) }
{
    let numbers = numbered.numbers.as_slice();
    let mut places = Places::new(alloc);
    let mut states = Vec::new(alloc);
    let mut first = None;
    for (place, definition) in definitions.iter().enumerate() {
        let repeats = note_definition(&mut places, definition, numbers[place], place as u32)?;
        let soonest = sooner(first, definition_fault(definition, repeats));
        collect_states(&mut states, &definition.body)?;
        first = soonest_of_states(soonest, least, states.as_slice());
    }
    Ok(Noted { places, first })
}
