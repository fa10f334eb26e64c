ghost use Rattle.std.specs.Prelude.{◌≡◌, ◌==◌, ◌∷◌, [], ℕ, false, Some, if◌then◌else◌};
ghost use Rattle.std.specs.Option.{option_map};
ghost use Rattle.psa_model.specs.declared.draft.DefinitionKind.TheVariants as kind_of;
ghost use Rattle.psa_names.specs.Outlines.{Entries, Entry, Reference};
ghost use Rattle.psa_names.specs.Meanings.{definition, meaning_of};
ghost use Rattle.psa_names.specs.Ids.{basic_id, id_of_meaning, kind_number};
ghost use Rattle.psa_names.specs.Found.{meaning_of_sense};
ghost use Rattle.psa_names.specs.Resolved.{event_formula};
ghost use Rattle.psa_bodies.specs.Numbering.{AreNumbers, IsEntryAt};
ghost use Rattle.psa_bodies.specs.Reading.{Reads};

use crate::cursor::Cursor;
use psa_model::{DefinitionKind, EventId, Formula, GateId, HouseId};
use psa_names::Sense;
use psa_text::Items;
use sqlite_items::at;

/// A definition by its kind and its place in the model's list of that kind.
#[derive(Clone, Copy, Drop)]
pub struct Numbered {
    pub kind: DefinitionKind,
    pub id: u32,
}

/// The places in the model of what names stand for.
#[derive(Drop)]
pub struct Numbers {
    /// Of the definitions, by their places in the draft.
    pub definitions: Items<Numbered>,
    /// Of the basic events that groups define, by their numbers.
    pub of_groups: Items<u32>,
}

/// Whether two kinds are the same.
pub fn same_kind(one: DefinitionKind, other: DefinitionKind) -> bool
    ensures { result ≡ (kind_number one == kind_number other) }
{
    one as u8 == other as u8
}

/// The place of what is meant among the definitions of a kind; 0 where it is of another kind.
fn id_of_sense(numbers: &Numbers, kind: DefinitionKind, sense: Sense) -> u32
    requires { (kind_number kind == kind_number kind_of.BasicEvent) ≡ false }
    ensures { (entries : Entries) → AreNumbers entries numbers.now
        → result ≡ id_of_meaning kind entries (meaning_of_sense entries sense) }
{
    match sense {
        Sense::Definition(place) => match at(numbers.definitions.as_slice(), place as usize) {
            Some(numbered) => {
                if same_kind(numbered.kind, kind) {
                    numbered.id
                } else {
                    0
                }
            }
            None => 0,
        },
        Sense::OfGroup(_) => 0,
    }
}

/// The place of a basic event among all of them; 0 for a definition of another kind.
fn basic_place(numbered: Numbered) -> u32
    ensures { result ≡ (if kind_number numbered.kind == 2 then numbered.id else 0) }
{
    if same_kind(numbered.kind, DefinitionKind::BasicEvent) {
        numbered.id
    } else {
        0
    }
}

/// The place of what is meant among all basic events, where something is meant.
pub fn basic_of_sense(numbers: &Numbers, sense: Sense) -> Option<u32>
    ensures { (entries : Entries) → AreNumbers entries numbers.now
        → result ≡ option_map (basic_id entries) (meaning_of_sense entries sense) }
{
    match sense {
        Sense::Definition(place) => match at(numbers.definitions.as_slice(), place as usize) {
            Some(numbered) => Some(basic_place(*numbered)),
            None => Some(0),
        },
        Sense::OfGroup(number) => at(numbers.of_groups.as_slice(), number as usize).copied(),
    }
}

/// The formula that is the event which is meant.
fn event_of_sense(numbers: &Numbers, sense: Sense) -> Formula
    ensures { (entries : Entries) → AreNumbers entries numbers.now
        → result ≡ event_formula entries (meaning_of_sense entries sense) }
{
    match sense {
        Sense::Definition(place) => match at(numbers.definitions.as_slice(), place as usize) {
            Some(numbered) => event_of_definition(*numbered),
            None => Formula::Constant(false),
        },
        Sense::OfGroup(number) => match at(numbers.of_groups.as_slice(), number as usize) {
            Some(id) => Formula::Basic(EventId(*id)),
            None => Formula::Constant(false),
        },
    }
}

/// The formula that is the event of a definition.
fn event_of_definition(numbered: Numbered) -> Formula
    ensures { (entries : Entries) (place : ℕ) → IsEntryAt entries place numbered
        → result ≡ event_formula entries (Some (definition place)) }
{
    if same_kind(numbered.kind, DefinitionKind::Gate) {
        Formula::Gate(GateId(numbered.id))
    } else if same_kind(numbered.kind, DefinitionKind::HouseEvent) {
        Formula::House(HouseId(numbered.id))
    } else {
        Formula::Basic(EventId(basic_place(numbered)))
    }
}

/// The place of what the next reference stands for, among the definitions of a kind.
pub fn next_id(numbers: &Numbers, cursor: &mut Cursor, kind: DefinitionKind) -> u32
    requires { (kind_number kind == kind_number kind_of.BasicEvent) ≡ false }
    ensures { (reference : Reference) → Reads numbers.now cursor.old cursor.new (reference ∷ [])
        (λ entries from. id_of_meaning kind entries (meaning_of entries from reference)) result }
{
    match cursor.next() {
        Some(sense) => id_of_sense(numbers, kind, sense),
        None => 0,
    }
}

/// The formula that is the event which the next reference stands for.
pub fn next_event(numbers: &Numbers, cursor: &mut Cursor) -> Formula
    ensures { (reference : Reference) → Reads numbers.now cursor.old cursor.new (reference ∷ [])
        (λ entries from. event_formula entries (meaning_of entries from reference)) result }
{
    match cursor.next() {
        Some(sense) => event_of_sense(numbers, sense),
        None => Formula::Constant(false),
    }
}

/// Passes over the next reference.
pub fn skip_reference(numbers: &Numbers, cursor: &mut Cursor)
    ensures { (reference : Reference) → Reads {A = ℕ} numbers.now cursor.old cursor.new
        (reference ∷ []) (λ entries from. 0) 0 }
{
    let _sense = cursor.next();
}
