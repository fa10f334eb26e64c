ghost use Rattle.std.specs.Prelude.{◌≡◌, ◌+◌, Some, IfOk, OnOk};
ghost use Rattle.std.specs.List.{filter_map};
ghost use Rattle.psa_elements.specs.DraftReading.{test_of};
ghost use Rattle.psa_elements.specs.ElementTable.{tests};
ghost use Rattle.psa_draft_parts.specs.Rows.{row_of_test};
ghost use Rattle.psa_draft_parts.specs.Sayings.{IsReadable, inside_among, reading_among, reading_as, size_of};
ghost use Rattle.psa_draft_parts.specs.Starts.{around_of};

use crate::attributes::{reference, text_at};
use crate::counting::pass_over;
use crate::lists::push_found;
use crate::rows::{TestRow, test_row};
use crate::start::{Around, Reader, StartTag};
use psa_model::DraftTest;
use psa_text::{Element, Items, OutOfMemory, Text};

/// The test that an element of this row says.
#[cycle(condition)]
pub fn condition(
    reader: &mut Reader,
    row: TestRow,
    around: &Around,
    element: &Element,
) -> Result<DraftTest, OutOfMemory>
    requires { IsReadable reader.old.number element.now }
    ensures counted { OnOk result (reader.new.number ≡ reader.old.number + size_of element.now) }
    ensures said { IfOk result (λ found. Some found ≡ test_of
        (reading_as (row_of_test row) (around_of around.now) reader.old.number element.now)) }
{
    let start = StartTag {
        around,
        element,
        number: reader.number,
    };
    let inside = conditions(reader, around, element)?;
    match row {
        TestRow::Initiating => Ok(DraftTest::Initiating(reference(reader.alloc, &start)?)),
        TestRow::Functional => Ok(DraftTest::Functional {
            name: reference(reader.alloc, &start)?,
            state: Text::from_str(reader.alloc, text_at(&start, "state"))?,
        }),
        TestRow::All => Ok(DraftTest::All(inside)),
        TestRow::Any => Ok(DraftTest::Any(inside)),
        TestRow::Not => Ok(DraftTest::Not(inside)),
    }
}

/// The tests in an element. The element itself is counted too.
#[cycle(condition)]
fn conditions(
    reader: &mut Reader,
    around: &Around,
    element: &Element,
) -> Result<Items<DraftTest>, OutOfMemory>
    requires { IsReadable reader.old.number element.now }
    ensures counted { OnOk result (reader.new.number ≡ reader.old.number + size_of element.now) }
    ensures said { IfOk result (λ found. found ≡ filter_map test_of
        (inside_among tests (around_of around.now) reader.old.number element.now)) }
{
    reader.number += 1;
    let children = element.children.as_slice();
    let mut all = Items::new(reader.alloc);
    for child in children {
        let found = condition_at(reader, around, child)?;
        push_found(&mut all, found)?;
    }
    Ok(all)
}

/// The test that an element says, None where it says none.
#[cycle(condition)]
fn condition_at(
    reader: &mut Reader,
    around: &Around,
    element: &Element,
) -> Result<Option<DraftTest>, OutOfMemory>
    requires { IsReadable reader.old.number element.now }
    ensures counted { OnOk result (reader.new.number ≡ reader.old.number + size_of element.now) }
    ensures said { IfOk result (λ found. found ≡ test_of
        (reading_among tests (around_of around.now) reader.old.number element.now)) }
{
    match test_row(element.tag.as_str()) {
        Some(row) => Ok(Some(condition(reader, row, around, element)?)),
        None => {
            pass_over(reader, element);
            Ok(None)
        }
    }
}
