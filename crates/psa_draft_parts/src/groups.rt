ghost use Rattle.std.specs.Prelude.{◌≡◌, ◌+◌, ◌++◌, [], ◌∷◌, IfOk, OnOk};
ghost use Rattle.psa_elements.specs.DraftReading.{distribution_of, factors_of, group_in, members_of, some_factors};
ghost use Rattle.psa_elements.specs.ElementTable as table;
ghost use Rattle.std.specs.Option.{option_or, option_to_list};
ghost use Rattle.psa_draft_parts.specs.Groups.{members_in};
ghost use Rattle.psa_draft_parts.specs.Rows.{group_rows};
ghost use Rattle.psa_draft_parts.specs.Sayings.{IsReadable, inside_among, reading_among, reading_as, size_of, start_tag};
ghost use Rattle.psa_draft_parts.specs.Starts.{around_of};

use crate::attributes::{group_model, level_in, reference};
use crate::counting::pass_over;
use crate::expressions::expression_in;
use crate::lists::{keep_first, push_found};
use crate::rows::{GroupRow, group_row};
use crate::start::{Around, Reader, StartTag};
use psa_model::{DraftExpression, DraftFactor, DraftGroup, DraftReference};
use psa_text::{Element, Items, OutOfMemory};

/// The common cause group that an element says. The element itself is counted too.
pub fn group(
    reader: &mut Reader,
    around: &Around,
    element: &Element,
) -> Result<DraftGroup, OutOfMemory>
    requires { IsReadable reader.old.number element.now }
    ensures counted { OnOk result (reader.new.number ≡ reader.old.number + size_of element.now) }
    ensures said { IfOk result (λ found. found ≡ group_in
        (start_tag (around_of around.now) reader.old.number element.now)
        (inside_among group_rows (around_of around.now) reader.old.number element.now)) }
{
    let start = StartTag {
        around,
        element,
        number: reader.number,
    };
    reader.number += 1;
    let mut all_members = Items::new(reader.alloc);
    let mut distribution: Option<DraftExpression> = None;
    let mut all_factors = Items::new(reader.alloc);
    let children = element.children.as_slice();
    for child in children {
        group_part(
            reader,
            around,
            child,
            &mut all_members,
            &mut distribution,
            &mut all_factors,
        )?;
    }
    Ok(DraftGroup {
        model: group_model(&start),
        members: all_members,
        distribution: distribution.unwrap_or(DraftExpression::MissionTime),
        factors: all_factors,
    })
}

/// Adds what an element in a group says to its members, its distribution and its factors.
fn group_part(
    reader: &mut Reader,
    around: &Around,
    element: &Element,
    all_members: &mut Items<DraftReference>,
    first: &mut Option<DraftExpression>,
    all_factors: &mut Items<DraftFactor>,
) -> Result<(), OutOfMemory>
    requires { IsReadable reader.old.number element.now }
    ensures counted { OnOk result (reader.new.number ≡ reader.old.number + size_of element.now) }
    ensures members { OnOk result (all_members.new ≡ all_members.old ++ members_of
        (reading_among group_rows (around_of around.now) reader.old.number element.now)) }
    ensures distributed { OnOk result (first.new ≡ option_or first.old (distribution_of
        (reading_among group_rows (around_of around.now) reader.old.number element.now))) }
    ensures factored { OnOk result (all_factors.new ≡ all_factors.old ++ factors_of
        (reading_among group_rows (around_of around.now) reader.old.number element.now)) }
{
    match group_row(element.tag.as_str()) {
        Some(GroupRow::Members) => members(reader, around, element, all_members),
        Some(GroupRow::Distribution) => {
            let found = expression_in(reader, around, element)?;
            keep_first(first, Some(found));
            Ok(())
        }
        Some(GroupRow::Factor) => {
            let found = factor(reader, around, element)?;
            all_factors.push(found)
        }
        Some(GroupRow::Factors) => factors(reader, around, element, all_factors),
        None => {
            pass_over(reader, element);
            Ok(())
        }
    }
}

/// The members that an element says, behind those before.
fn members(
    reader: &mut Reader,
    around: &Around,
    element: &Element,
    all: &mut Items<DraftReference>,
) -> Result<(), OutOfMemory>
    requires { IsReadable reader.old.number element.now }
    ensures counted { OnOk result (reader.new.number ≡ reader.old.number + size_of element.now) }
    ensures said { OnOk result (all.new ≡ all.old ++ members_of
        (reading_as table.members (around_of around.now) reader.old.number element.now)) }
{
    reader.number += 1;
    let children = element.children.as_slice();
    for child in children {
        let found = member(reader, around, child)?;
        push_found(all, found)?;
    }
    Ok(())
}

/// The member that an element names, None where it names none.
fn member(
    reader: &mut Reader,
    around: &Around,
    element: &Element,
) -> Result<Option<DraftReference>, OutOfMemory>
    requires { IsReadable reader.old.number element.now }
    ensures counted { OnOk result (reader.new.number ≡ reader.old.number + size_of element.now) }
    ensures said { IfOk result (λ found. option_to_list found ≡ members_in
        (reading_among (table.basic_event ∷ []) (around_of around.now) reader.old.number
        element.now ∷ [])) }
{
    let start = StartTag {
        around,
        element,
        number: reader.number,
    };
    pass_over(reader, element);
    if element.tag.as_str() != "basic-event" {
        return Ok(None);
    }
    Ok(Some(reference(reader.alloc, &start)?))
}

/// The factors that an element says, behind those before.
fn factors(
    reader: &mut Reader,
    around: &Around,
    element: &Element,
    all: &mut Items<DraftFactor>,
) -> Result<(), OutOfMemory>
    requires { IsReadable reader.old.number element.now }
    ensures counted { OnOk result (reader.new.number ≡ reader.old.number + size_of element.now) }
    ensures said { OnOk result (all.new ≡ all.old ++ factors_of
        (reading_as table.factors (around_of around.now) reader.old.number element.now)) }
{
    reader.number += 1;
    let children = element.children.as_slice();
    for child in children {
        let found = factor_at(reader, around, child)?;
        push_found(all, found)?;
    }
    Ok(())
}

/// The factor that an element says, None where it says none.
fn factor_at(
    reader: &mut Reader,
    around: &Around,
    element: &Element,
) -> Result<Option<DraftFactor>, OutOfMemory>
    requires { IsReadable reader.old.number element.now }
    ensures counted { OnOk result (reader.new.number ≡ reader.old.number + size_of element.now) }
    ensures said { IfOk result (λ found. option_to_list found ≡ factors_of
        (reading_among (table.factor ∷ []) (around_of around.now) reader.old.number
        element.now)) }
{
    if element.tag.as_str() != "factor" {
        pass_over(reader, element);
        return Ok(None);
    }
    Ok(Some(factor(reader, around, element)?))
}

/// The factor that an element says.
fn factor(
    reader: &mut Reader,
    around: &Around,
    element: &Element,
) -> Result<DraftFactor, OutOfMemory>
    requires { IsReadable reader.old.number element.now }
    ensures counted { OnOk result (reader.new.number ≡ reader.old.number + size_of element.now) }
    ensures said { IfOk result (λ found. some_factors (found ∷ [])
        ≡ reading_as table.factor (around_of around.now) reader.old.number element.now) }
{
    let start = StartTag {
        around,
        element,
        number: reader.number,
    };
    let level = level_in(&start);
    Ok(DraftFactor {
        level,
        expression: expression_in(reader, around, element)?,
    })
}
