ghost use Rattle.std.specs.Prelude.{◌≡◌, ◌++◌, flat_map, OnOk};
ghost use Rattle.psa_names.specs.Chains.{references_in, references_of};
ghost use Rattle.psa_names.specs.Outlines.{body_outlines, entry_of, group_outlines, link_outlines, value_outlines};
ghost use Rattle.psa_lookup.specs.Asking.{asked_references, factor_references};

use crate::asked::{
    Asked, Asks, push_branch, push_expression, push_formula, push_instructions, push_members,
};
use crate::grouped::group_members;
use psa_model::{
    DraftBody, DraftDefinition, DraftExpression, DraftFactor, DraftGroup, DraftReference,
    MAX_NESTING,
};
use psa_text::OutOfMemory;

/// Adds the references in the factors of a group.
fn push_factors<'a>(
    asked: &mut Vec<Asked<'a>>,
    factors: &'a [DraftFactor],
) -> Result<(), OutOfMemory>
    ensures { OnOk result (asked_references asked.new.items
        ≡ asked_references asked.old.items ++ factor_references factors.now) }
{
    for factor in factors {
        push_expression(asked, &factor.expression)?;
    }
    Ok(())
}

/// Adds the references in the expressions of a group.
fn push_group<'a>(asked: &mut Vec<Asked<'a>>, group: &'a DraftGroup) -> Result<(), OutOfMemory>
    ensures { OnOk result (asked_references asked.new.items ≡ asked_references asked.old.items
        ++ flat_map references_in (group_outlines group.now)) }
{
    push_expression(asked, &group.distribution)?;
    push_factors(asked, group.factors.as_slice())
}

/// Adds the name of an event tree.
fn push_link<'a>(
    asked: &mut Vec<Asked<'a>>,
    link: &'a Option<DraftReference>,
) -> Result<(), OutOfMemory>
    ensures { OnOk result (asked_references asked.new.items ≡ asked_references asked.old.items
        ++ flat_map references_in (link_outlines link.now)) }
{
    match link {
        Some(written) => {
            asked.push(Asked {
                asks: Asks::EventTree,
                written,
            })?;
            Ok(())
        }
        None => Ok(()),
    }
}

/// Adds the references in an expression that may be left out.
fn push_value<'a>(
    asked: &mut Vec<Asked<'a>>,
    value: &'a Option<DraftExpression>,
) -> Result<(), OutOfMemory>
    ensures { OnOk result (asked_references asked.new.items ≡ asked_references asked.old.items
        ++ flat_map references_in (value_outlines value.now)) }
{
    match value {
        Some(value) => push_expression(asked, value),
        None => Ok(()),
    }
}

/// Adds the references in a body.
fn push_body<'a>(asked: &mut Vec<Asked<'a>>, body: &'a DraftBody) -> Result<(), OutOfMemory>
    ensures { OnOk result (asked_references asked.new.items ≡ asked_references asked.old.items
        ++ flat_map references_in (body_outlines body.now)) }
{
    match body {
        DraftBody::Nothing => Ok(()),
        DraftBody::Formula(formula) => push_formula(asked, formula),
        DraftBody::Value(value) => push_value(asked, value),
        DraftBody::State(_) => Ok(()),
        DraftBody::Group(group) => push_group(asked, group),
        DraftBody::Start(tree) => push_link(asked, tree),
        DraftBody::Steps(instructions, link) => {
            push_instructions(asked, instructions.as_slice())?;
            push_link(asked, link)
        }
        DraftBody::Walk(branch) => push_branch(asked, branch, MAX_NESTING),
    }
}

/// The references in a definition, in place of those in another.
pub fn collect_references<'a>(
    asked: &mut Vec<Asked<'a>>,
    definition: &'a DraftDefinition,
) -> Result<(), OutOfMemory>
    ensures { OnOk result (asked_references asked.new.items ≡ references_of (entry_of definition.now)) }
{
    asked.clear();
    push_members(asked, group_members(&definition.body))?;
    push_body(asked, &definition.body)
}
