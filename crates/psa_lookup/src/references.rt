ghost use Rattle.std.specs.Prelude.{◌≡◌, ◌++◌, Some, List, Option, IfOk, OnOk};
ghost use Rattle.std.specs.Option.{option_map, option_to_list};
ghost use Rattle.psa_names.specs.Found.{meaning_of_sense, reference_meanings};
ghost use Rattle.psa_names.specs.Meanings.{Meaning};
ghost use Rattle.psa_names.specs.NameFaults.{bad_references, has_kind, means_kind, reference_fault};
ghost use Rattle.psa_names.specs.Outlines.{entry_of};
ghost use Rattle.psa_names.specs.PlacedFaults.{PlacedFault};
ghost use Rattle.psa_lookup.specs.Asking.{asked_reference, asked_references, kind_asked};
ghost use Rattle.psa_lookup.specs.Senses.{IsAroundIn, IsNames, IsPass, Means, fault_at_reference, faults_among, meanings_among, names_entries, names_paths};
ghost use Rattle.psa_lookup.specs.Sooner.{placed_fault, sooner_of};
ghost use Rattle.psa_lookup.specs.Tables.{table_entries};

use crate::asked::{Asked, Asks};
use crate::bodies::collect_references;
use crate::names::{Around, Names, around_of, find_sense};
use crate::pass::Pass;
use crate::placed::{Placed, sooner};
use crate::table::Table;
use psa_model::{DefinitionKind, DraftDefinition, EventKind, FaultKind};
use psa_names::Sense;
use psa_text::{Items, OutOfMemory};
use sqlite_items::at;
use std::alloc::Global;

/// Whether a definition of this kind is of the kind that a name asks for.
fn is_asked(asks: Asks, kind: DefinitionKind) -> bool
    ensures { result ≡ has_kind (kind_asked asks) kind }
{
    match asks {
        Asks::Event(EventKind::Gate) => kind == DefinitionKind::Gate,
        Asks::Event(EventKind::Basic) => kind == DefinitionKind::BasicEvent,
        Asks::Event(EventKind::House) => kind == DefinitionKind::HouseEvent,
        Asks::Event(EventKind::Any)
        | Asks::Parameter
        | Asks::EventTree
        | Asks::Rule
        | Asks::Sequence
        | Asks::Branch
        | Asks::FunctionalEvent
        | Asks::InitiatingEvent
        | Asks::FunctionalEventAnywhere => true,
    }
}

/// Whether what a name stands for is of the kind that it asks for.
fn fits(table: &Table, asks: Asks, sense: Sense) -> bool
    ensures { (meaning : Meaning) → meaning_of_sense (table_entries table.now) sense ≡ Some meaning
        → result ≡ means_kind (table_entries table.now) (kind_asked asks) meaning }
{
    match sense {
        Sense::Definition(place) => match at(table.definitions, place as usize) {
            Some(one) => is_asked(asks, one.kind),
            None => false,
        },
        Sense::OfGroup(_) => is_asked(asks, DefinitionKind::BasicEvent),
    }
}

/// What is wrong with a name that stands for this, or for nothing.
fn wrong(table: &Table, asks: Asks, sense: Option<Sense>) -> Option<FaultKind>
    ensures { (meaning : Option Meaning) → Means (table_entries table.now) sense meaning
        → result ≡ reference_fault (table_entries table.now) (kind_asked asks) meaning }
{
    let Some(found) = sense else {
        return Some(FaultKind::Undefined);
    };
    if fits(table, asks, found) {
        None
    } else {
        Some(FaultKind::WrongKind)
    }
}

/// The fault of a name, where it has one.
fn fault_at_name<'a>(asked: Asked<'a>, kind: Option<FaultKind>) -> Option<Placed<'a>>
    ensures { option_map placed_fault result
        ≡ option_map (fault_at_reference (asked_reference asked.entry)) kind }
{
    match kind {
        Some(kind) => Some(Placed {
            kind,
            place: asked.written.place,
            tag: asked.written.tag,
            name: &asked.written.name,
        }),
        None => None,
    }
}

impl<'a> Pass<'a> {
    /// Goes on behind a name with this sense, or none, and this fault, or none.
    pub fn go_on(
        &mut self,
        sense: Option<Sense>,
        fault: Option<Placed<'a>>,
    ) -> Result<(), OutOfMemory>
        ensures first { OnOk result (option_map placed_fault self.new.first
            ≡ sooner_of (option_map placed_fault self.old.first) (option_map placed_fault fault.entry)) }
        ensures senses { OnOk result (self.new.senses ≡ self.old.senses ++ option_to_list sense) }
    {
        if let Some(found) = sense {
            self.senses.push(found)?;
        }
        self.first = sooner(self.first, fault);
        Ok(())
    }
}

/// Goes along the references in a definition.
fn follow<'a>(
    names: &Names,
    definition: &DraftDefinition,
    around: Around,
    asked: &[Asked<'a>],
    pass: &mut Pass<'a>,
) -> Result<(), OutOfMemory>
    requires names { IsNames names.now }
    requires around { IsAroundIn (names_paths names.now) around (entry_of definition.now) }
    ensures { OnOk result ((faults : List PlacedFault) (meanings : List (Option Meaning))
        → IsPass (names_entries names.now) pass.old faults meanings
        → IsPass (names_entries names.now) pass.new
        (faults ++ faults_among (names_entries names.now) (entry_of definition.now)
        (asked_references asked.now))
        (meanings ++ meanings_among (names_entries names.now) (entry_of definition.now)
        (asked_references asked.now))) }
{
    for one in asked {
        let sense = find_sense(names, definition, around, *one);
        let fault = fault_at_name(*one, wrong(&names.table, one.asks, sense));
        pass.go_on(sense, fault)?;
    }
    Ok(())
}

/// Goes along all references of a draft, in order.
pub fn follow_all<'a>(alloc: Global, names: &Names<'a>) -> Result<Pass<'a>, OutOfMemory>
    requires names { IsNames names.now }
    ensures { IfOk result (λ pass. IsPass (names_entries names.now) pass
        (bad_references (names_entries names.now)) (reference_meanings (names_entries names.now))) }
{
    let mut pass = Pass {
        senses: Items::new(alloc),
        first: None,
    };
    let mut asked = Vec::new(alloc);
    let numbers = names.table.numbered.numbers.as_slice();
    let definitions = names.table.definitions;
    for (place, definition) in definitions.iter().enumerate() {
        collect_references(&mut asked, definition)?;
        let around = around_of(&names.table, definition, numbers[place]);
        follow(names, definition, around, asked.as_slice(), &mut pass)?;
    }
    Ok(pass)
}
