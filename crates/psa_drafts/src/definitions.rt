ghost use Rattle.std.specs.Prelude.{◌≡◌, ◌+◌, ◌++◌, ◌&&◌, [], ◌∷◌, IfOk, OnOk};
ghost use Rattle.std.specs.Option.{option_or, unwrap_or};
ghost use Rattle.psa_elements.specs.DraftReading as reading;
ghost use Rattle.psa_elements.specs.DraftReading.{definitions_of, initial_state_of, some_definitions};
ghost use Rattle.psa_elements.specs.ElementTable as table;
ghost use Rattle.psa_draft_parts.specs.Rows.{kind_of as kind_of_row, may_be_private as may_be_private_row, event_tree_rows, row_of_definition, row_of_plain, rows_of};
ghost use Rattle.psa_draft_parts.specs.Sayings.{AreReadable, IsReadable, reading_among, reading_as, readings_among, size_of, sizes_of};
ghost use Rattle.psa_draft_parts.specs.Starts.{around_of, start_of};

use crate::bodies::body;
use crate::branches::branch;
use psa_draft_parts::{
    Around, DefinitionRow, Inside, PlainRow, Reader, StartTag, definition_row, event_tree_row,
    is_private, keep_first, own_name, pass_over, place_of, reference,
};
use psa_model::{DefinitionKind, DraftBody, DraftBranch, DraftBranchEnd, DraftDefinition};
use psa_text::{Element, Items, OutOfMemory, Text};
use std::alloc::Global;

/// The definitions that elements say, behind those before: each before those inside it.
#[cycle(definition)]
pub fn definitions_in(
    reader: &mut Reader,
    inside: Inside,
    around: &Around,
    elements: &[Element],
    all: &mut Items<DraftDefinition>,
) -> Result<(), OutOfMemory>
    requires { AreReadable reader.old.number elements.now }
    ensures counted { OnOk result (reader.new.number ≡ reader.old.number + sizes_of elements.now) }
    ensures said { OnOk result (all.new ≡ all.old ++ reading.definitions_in
        (readings_among (rows_of inside) (around_of around.now) reader.old.number elements.now)) }
{
    for element in elements {
        definition_at(reader, inside, around, element, all)?;
    }
    Ok(())
}

/// The definitions that an element says in a place, behind those before.
#[cycle(definition)]
fn definition_at(
    reader: &mut Reader,
    inside: Inside,
    around: &Around,
    element: &Element,
    all: &mut Items<DraftDefinition>,
) -> Result<(), OutOfMemory>
    requires { IsReadable reader.old.number element.now }
    ensures counted { OnOk result (reader.new.number ≡ reader.old.number + size_of element.now) }
    ensures said { OnOk result (all.new ≡ all.old ++ definitions_of
        (reading_among (rows_of inside) (around_of around.now) reader.old.number
        element.now)) }
{
    match definition_row(inside, element.tag.as_str()) {
        Some(row) => definition(reader, row, around, element, all),
        None => {
            pass_over(reader, element);
            Ok(())
        }
    }
}

/// The definitions that an element of this row says, behind those before.
#[cycle(definition)]
fn definition(
    reader: &mut Reader,
    row: DefinitionRow,
    around: &Around,
    element: &Element,
    all: &mut Items<DraftDefinition>,
) -> Result<(), OutOfMemory>
    requires { IsReadable reader.old.number element.now }
    ensures counted { OnOk result (reader.new.number ≡ reader.old.number + size_of element.now) }
    ensures said { OnOk result (all.new ≡ all.old ++ definitions_of
        (reading_as (row_of_definition row) (around_of around.now) reader.old.number
        element.now)) }
{
    match row {
        DefinitionRow::Plain(plain) => {
            all.push(plain_definition(reader, plain, around, element)?)?;
            Ok(())
        }
        DefinitionRow::FaultTree => fault_tree(reader, around, element, all),
        DefinitionRow::Component => component(reader, around, element, all),
        DefinitionRow::ModelData => {
            reader.number += 1;
            let children = element.children.as_slice();
            definitions_in(reader, Inside::ModelData, around, children, all)
        }
        DefinitionRow::EventTree => event_tree(reader, around, element, all),
    }
}

/// A fault tree and the definitions inside it, behind those before.
#[cycle(definition)]
fn fault_tree(
    reader: &mut Reader,
    around: &Around,
    element: &Element,
    all: &mut Items<DraftDefinition>,
) -> Result<(), OutOfMemory>
    requires { IsReadable reader.old.number element.now }
    ensures counted { OnOk result (reader.new.number ≡ reader.old.number + size_of element.now) }
    ensures said { OnOk result (all.new ≡ all.old ++ definitions_of
        (reading_as table.define_fault_tree (around_of around.now) reader.old.number
        element.now)) }
{
    let start = StartTag {
        around,
        element,
        number: reader.number,
    };
    reader.number += 1;
    let own = define(
        reader.alloc,
        DefinitionKind::FaultTree,
        &start,
        false,
        DraftBody::Nothing,
    )?;
    all.push(own)?;
    let inner = Around {
        file: around.file,
        container: container_of(reader.alloc, &[], &start)?,
        is_private: around.is_private,
    };
    let children = element.children.as_slice();
    definitions_in(reader, Inside::Container, &inner, children, all)
}

/// A component and the definitions inside it, behind those before.
#[cycle(definition)]
fn component(
    reader: &mut Reader,
    around: &Around,
    element: &Element,
    all: &mut Items<DraftDefinition>,
) -> Result<(), OutOfMemory>
    requires { IsReadable reader.old.number element.now }
    ensures counted { OnOk result (reader.new.number ≡ reader.old.number + size_of element.now) }
    ensures said { OnOk result (all.new ≡ all.old ++ definitions_of
        (reading_as table.define_component (around_of around.now) reader.old.number
        element.now)) }
{
    let start = StartTag {
        around,
        element,
        number: reader.number,
    };
    reader.number += 1;
    let private = is_private(&start);
    let own = define(
        reader.alloc,
        DefinitionKind::Component,
        &start,
        private,
        DraftBody::Nothing,
    )?;
    all.push(own)?;
    let inner = Around {
        file: around.file,
        container: container_of(reader.alloc, around.container.as_slice(), &start)?,
        is_private: private,
    };
    let children = element.children.as_slice();
    definitions_in(reader, Inside::Container, &inner, children, all)
}

/// An event tree and the definitions inside it, behind those before. Its initial state may stand
/// behind the definitions inside it, so these wait in a list of their own.
fn event_tree(
    reader: &mut Reader,
    around: &Around,
    element: &Element,
    all: &mut Items<DraftDefinition>,
) -> Result<(), OutOfMemory>
    requires { IsReadable reader.old.number element.now }
    ensures counted { OnOk result (reader.new.number ≡ reader.old.number + size_of element.now) }
    ensures said { OnOk result (all.new ≡ all.old ++ definitions_of
        (reading_as table.define_event_tree (around_of around.now) reader.old.number
        element.now)) }
{
    let start = StartTag {
        around,
        element,
        number: reader.number,
    };
    reader.number += 1;
    let inner = Around {
        file: around.file,
        container: container_of(reader.alloc, &[], &start)?,
        is_private: around.is_private,
    };
    let mut state: Option<DraftBranch> = None;
    let mut inside = Items::new(reader.alloc);
    let children = element.children.as_slice();
    for child in children {
        event_tree_part(reader, &inner, child, &mut inside, &mut state)?;
    }
    let walk = walk_of(reader.alloc, state, &start)?;
    let own = define(
        reader.alloc,
        DefinitionKind::EventTree,
        &start,
        false,
        DraftBody::Walk(walk),
    )?;
    all.push(own)?;
    all.append(inside)
}

/// Adds what an element in an event tree says to its definitions and its initial state.
fn event_tree_part(
    reader: &mut Reader,
    around: &Around,
    element: &Element,
    inside: &mut Items<DraftDefinition>,
    state: &mut Option<DraftBranch>,
) -> Result<(), OutOfMemory>
    requires { IsReadable reader.old.number element.now }
    ensures counted { OnOk result (reader.new.number ≡ reader.old.number + size_of element.now) }
    ensures said { OnOk result (inside.new ≡ inside.old ++ definitions_of
        (reading_among event_tree_rows (around_of around.now) reader.old.number element.now)) }
    ensures started { OnOk result (state.new ≡ option_or state.old (initial_state_of
        (reading_among event_tree_rows (around_of around.now) reader.old.number
        element.now))) }
{
    let tag = element.tag.as_str();
    if let Some(row) = event_tree_row(tag) {
        let found = plain_definition(reader, row, around, element)?;
        return inside.push(found);
    }
    if tag == "initial-state" {
        let found = branch(reader, around, element)?;
        keep_first(state, Some(found));
        return Ok(());
    }
    pass_over(reader, element);
    Ok(())
}

/// The branch that was found, or one without instructions to the sequence of an element's name.
fn walk_of(
    alloc: Global,
    found: Option<DraftBranch>,
    start: &StartTag,
) -> Result<DraftBranch, OutOfMemory>
    ensures { IfOk result
        (λ walk. walk ≡ unwrap_or found (reading.branch_in (start_of start.now) [])) }
{
    match found {
        Some(walk) => Ok(walk),
        None => Ok(DraftBranch {
            instructions: Items::new(alloc),
            end: DraftBranchEnd::Sequence(reference(alloc, start)?),
        }),
    }
}

/// The names of the containers around, and that of an element.
fn container_of(
    alloc: Global,
    around: &[Text],
    start: &StartTag,
) -> Result<Items<Text>, OutOfMemory>
    ensures { IfOk result
        (λ names. names ≡ around.now ++ reading.own_name (start_of start.now) ∷ []) }
{
    let mut names = copy_texts(alloc, around)?;
    names.push(own_name(alloc, start)?)?;
    Ok(names)
}

/// Texts of their own with the same bytes.
fn copy_texts(alloc: Global, texts: &[Text]) -> Result<Items<Text>, OutOfMemory>
    ensures { IfOk result (λ copies. copies ≡ texts.now) }
{
    let mut copies = Items::new(alloc);
    for text in texts {
        copies.push(Text::from_str(alloc, text.as_str())?)?;
    }
    Ok(copies)
}

/// The definition that an element of this row says.
fn plain_definition(
    reader: &mut Reader,
    row: PlainRow,
    around: &Around,
    element: &Element,
) -> Result<DraftDefinition, OutOfMemory>
    requires { IsReadable reader.old.number element.now }
    ensures counted { OnOk result (reader.new.number ≡ reader.old.number + size_of element.now) }
    ensures said { IfOk result (λ found. some_definitions (found ∷ [])
        ≡ reading_as (row_of_plain row) (around_of around.now) reader.old.number element.now) }
{
    let start = StartTag {
        around,
        element,
        number: reader.number,
    };
    let body = body(reader, row, around, element)?;
    let private = private_by(row, &start);
    define(reader.alloc, kind_of(row), &start, private, body)
}

/// A definition by its element.
fn define(
    alloc: Global,
    kind: DefinitionKind,
    start: &StartTag,
    private: bool,
    body: DraftBody,
) -> Result<DraftDefinition, OutOfMemory>
    ensures { IfOk result (λ definition. definition
        ≡ record (reading.defines kind (start_of start.now) body) { private = private }) }
{
    Ok(DraftDefinition {
        kind,
        name: own_name(alloc, start)?,
        place: place_of(start),
        tag: start.number,
        container: copy_texts(alloc, start.around.container.as_slice())?,
        private,
        body,
    })
}

/// Whether a definition of this row is private.
fn private_by(row: PlainRow, start: &StartTag) -> bool
    ensures { result ≡ (may_be_private_row row && reading.is_private (start_of start.now)) }
{
    if !may_be_private(row) {
        return false;
    }
    is_private(start)
}

/// The kind of a definition.
fn kind_of(row: PlainRow) -> DefinitionKind
    ensures { result ≡ kind_of_row row }
{
    match row {
        PlainRow::Gate => DefinitionKind::Gate,
        PlainRow::BasicEvent => DefinitionKind::BasicEvent,
        PlainRow::HouseEvent => DefinitionKind::HouseEvent,
        PlainRow::Parameter => DefinitionKind::Parameter,
        PlainRow::PublicBasicEvent => DefinitionKind::BasicEvent,
        PlainRow::PublicHouseEvent => DefinitionKind::HouseEvent,
        PlainRow::PublicParameter => DefinitionKind::Parameter,
        PlainRow::Group => DefinitionKind::Group,
        PlainRow::InitiatingEvent => DefinitionKind::InitiatingEvent,
        PlainRow::FunctionalEvent => DefinitionKind::FunctionalEvent,
        PlainRow::Sequence => DefinitionKind::Sequence,
        PlainRow::Branch => DefinitionKind::Branch,
        PlainRow::Rule => DefinitionKind::Rule,
    }
}

/// Whether a role or the component around it makes a definition private.
fn may_be_private(row: PlainRow) -> bool
    ensures { result ≡ may_be_private_row row }
{
    match row {
        PlainRow::Gate => true,
        PlainRow::BasicEvent => true,
        PlainRow::HouseEvent => true,
        PlainRow::Parameter => true,
        PlainRow::Group => true,
        _ => false,
    }
}
