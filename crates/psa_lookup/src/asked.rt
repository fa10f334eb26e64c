ghost use Rattle.std.specs.Prelude.{◌≡◌, ◌++◌, ◌∷◌, [], flat_map, OnOk};
ghost use Rattle.psa_model.specs.declared.draft.DraftBranchEnd.TheViews.{out-DraftBranchEnd};
ghost use Rattle.psa_names.specs.Chains.{references_in};
ghost use Rattle.psa_names.specs.Outlines.{branch_outlines, end_outline, expression_outline, formula_outline, instruction_outline, test_outline};
ghost use Rattle.psa_lookup.specs.Asking.{asked_references, branch_references, member_references, paths_references};

use crate::paths::joins_names;
use psa_model::{
    DraftBranch, DraftBranchEnd, DraftExpression, DraftForkPath, DraftFormula, DraftInstruction,
    DraftReference, DraftTest, EventKind,
};
use psa_text::OutOfMemory;

/// What a name may stand for.
#[derive(Clone, Copy)]
pub enum Asks {
    Event(EventKind),
    Parameter,
    EventTree,
    Rule,
    Sequence,
    Branch,
    FunctionalEvent,
    InitiatingEvent,
    /// A functional event of some event tree.
    FunctionalEventAnywhere,
}

/// A name as it is written, and what it may stand for.
#[derive(Clone, Copy)]
pub struct Asked<'a> {
    pub asks: Asks,
    pub written: &'a DraftReference,
}

/// Adds the references in a formula.
#[cycle(formula)]
pub fn push_formula<'a>(
    asked: &mut Vec<Asked<'a>>,
    formula: &'a DraftFormula,
) -> Result<(), OutOfMemory>
    ensures { OnOk result (asked_references asked.new.items
        ≡ asked_references asked.old.items ++ references_in (formula_outline formula.now)) }
{
    match formula {
        DraftFormula::Event(kind, written) => {
            asked.push(Asked {
                asks: Asks::Event(*kind),
                written,
            })?;
            Ok(())
        }
        DraftFormula::Constant(_) => Ok(()),
        DraftFormula::Connective { arguments, .. } => push_formulas(asked, arguments.as_slice()),
    }
}

/// Adds the references in some formulas.
#[cycle(formula)]
fn push_formulas<'a>(
    asked: &mut Vec<Asked<'a>>,
    formulas: &'a [DraftFormula],
) -> Result<(), OutOfMemory>
    ensures { OnOk result (asked_references asked.new.items ≡ asked_references asked.old.items
        ++ flat_map (λ one. references_in (formula_outline one)) formulas.now) }
{
    for formula in formulas {
        push_formula(asked, formula)?;
    }
    Ok(())
}

/// Adds the references in an expression.
#[cycle(expression)]
pub fn push_expression<'a>(
    asked: &mut Vec<Asked<'a>>,
    expression: &'a DraftExpression,
) -> Result<(), OutOfMemory>
    ensures { OnOk result (asked_references asked.new.items
        ≡ asked_references asked.old.items ++ references_in (expression_outline expression.now)) }
{
    match expression {
        DraftExpression::Number(_) => Ok(()),
        DraftExpression::Parameter(written) => {
            asked.push(Asked {
                asks: Asks::Parameter,
                written,
            })?;
            Ok(())
        }
        DraftExpression::MissionTime => Ok(()),
        DraftExpression::Operation { arguments, .. } => push_expressions(
            asked,
            arguments.as_slice(),
        ),
    }
}

/// Adds the references in some expressions.
#[cycle(expression)]
fn push_expressions<'a>(
    asked: &mut Vec<Asked<'a>>,
    expressions: &'a [DraftExpression],
) -> Result<(), OutOfMemory>
    ensures { OnOk result (asked_references asked.new.items ≡ asked_references asked.old.items
        ++ flat_map (λ one. references_in (expression_outline one)) expressions.now) }
{
    for expression in expressions {
        push_expression(asked, expression)?;
    }
    Ok(())
}

/// Adds the references in a test.
#[cycle(condition)]
fn push_test<'a>(asked: &mut Vec<Asked<'a>>, test: &'a DraftTest) -> Result<(), OutOfMemory>
    ensures { OnOk result (asked_references asked.new.items
        ≡ asked_references asked.old.items ++ references_in (test_outline test.now)) }
{
    match test {
        DraftTest::Initiating(written) => {
            asked.push(Asked {
                asks: Asks::InitiatingEvent,
                written,
            })?;
            Ok(())
        }
        DraftTest::Functional { name, .. } => {
            asked.push(Asked {
                asks: Asks::FunctionalEventAnywhere,
                written: name,
            })?;
            Ok(())
        }
        DraftTest::All(tests) => push_tests(asked, tests.as_slice()),
        DraftTest::Any(tests) => push_tests(asked, tests.as_slice()),
        DraftTest::Not(tests) => push_tests(asked, tests.as_slice()),
    }
}

/// Adds the references in some tests.
#[cycle(condition)]
fn push_tests<'a>(asked: &mut Vec<Asked<'a>>, tests: &'a [DraftTest]) -> Result<(), OutOfMemory>
    ensures { OnOk result (asked_references asked.new.items ≡ asked_references asked.old.items
        ++ flat_map (λ one. references_in (test_outline one)) tests.now) }
{
    for test in tests {
        push_test(asked, test)?;
    }
    Ok(())
}

/// Adds the references in an instruction.
#[cycle(instruction)]
fn push_instruction<'a>(
    asked: &mut Vec<Asked<'a>>,
    instruction: &'a DraftInstruction,
) -> Result<(), OutOfMemory>
    ensures { OnOk result (asked_references asked.new.items
        ≡ asked_references asked.old.items ++ references_in (instruction_outline instruction.now)) }
{
    match instruction {
        DraftInstruction::Collect(formula) => push_formula(asked, formula),
        DraftInstruction::SetHouse(written, _) => {
            asked.push(Asked {
                asks: Asks::Event(EventKind::House),
                written,
            })?;
            Ok(())
        }
        DraftInstruction::Block(inside) => push_instructions(asked, inside.as_slice()),
        DraftInstruction::Rule(written) => {
            asked.push(Asked {
                asks: Asks::Rule,
                written,
            })?;
            Ok(())
        }
        DraftInstruction::If(test, first, second) => {
            push_test(asked, test)?;
            push_instructions(asked, first.as_slice())?;
            push_instructions(asked, second.as_slice())
        }
    }
}

/// Adds the references in some instructions.
#[cycle(instruction)]
pub fn push_instructions<'a>(
    asked: &mut Vec<Asked<'a>>,
    instructions: &'a [DraftInstruction],
) -> Result<(), OutOfMemory>
    ensures { OnOk result (asked_references asked.new.items ≡ asked_references asked.old.items
        ++ flat_map (λ one. references_in (instruction_outline one)) instructions.now) }
{
    for instruction in instructions {
        push_instruction(asked, instruction)?;
    }
    Ok(())
}

/// Adds the references in a branch, nested at most so many levels: it calls itself so deep at most.
#[cycle(branch)]
pub fn push_branch<'a>(
    asked: &mut Vec<Asked<'a>>,
    branch: &'a DraftBranch,
    levels: u32,
) -> Result<(), OutOfMemory>
    ensures { OnOk result (asked_references asked.new.items
        ≡ asked_references asked.old.items ++ branch_references levels branch.now) }
{
    if levels == 0 {
        return Ok(());
    }
    push_instructions(asked, branch.instructions.as_slice())?;
    push_end(asked, &branch.end, levels - 1)
}

/// Adds the references in the end of a branch.
#[cycle(branch)]
fn push_end<'a>(
    asked: &mut Vec<Asked<'a>>,
    end: &'a DraftBranchEnd,
    levels: u32,
) -> Result<(), OutOfMemory>
    ensures { OnOk result (asked_references asked.new.items ≡ asked_references asked.old.items
        ++ references_in (end_outline (λ below. branch_outlines levels below) (out-DraftBranchEnd end.now))) }
{
    match end {
        DraftBranchEnd::Fork(written, paths) => {
            asked.push(Asked {
                asks: Asks::FunctionalEvent,
                written,
            })?;
            push_paths(asked, paths.as_slice(), levels)
        }
        DraftBranchEnd::Sequence(written) => {
            asked.push(Asked {
                asks: Asks::Sequence,
                written,
            })?;
            Ok(())
        }
        DraftBranchEnd::Branch(written) => {
            asked.push(Asked {
                asks: Asks::Branch,
                written,
            })?;
            Ok(())
        }
    }
}

/// Adds the references on the paths of a fork.
#[cycle(branch)]
fn push_paths<'a>(
    asked: &mut Vec<Asked<'a>>,
    paths: &'a [DraftForkPath],
    levels: u32,
) -> Result<(), OutOfMemory>
    ensures { OnOk result (asked_references asked.new.items
        ≡ asked_references asked.old.items ++ paths_references levels paths.now) }
{
    for path in paths {
        push_branch(asked, &path.branch, levels)?;
    }
    Ok(())
}

/// Adds a member of a group if it is a path, as a reference to a basic event.
fn push_member<'a>(
    asked: &mut Vec<Asked<'a>>,
    member: &'a DraftReference,
) -> Result<(), OutOfMemory>
    ensures { OnOk result (asked_references asked.new.items
        ≡ asked_references asked.old.items ++ member_references (member.now ∷ [])) }
{
    if !joins_names(member.name.as_bytes()) {
        return Ok(());
    }
    asked.push(Asked {
        asks: Asks::Event(EventKind::Basic),
        written: member,
    })?;
    Ok(())
}

/// Adds the members of a group that are paths, as references to basic events.
pub fn push_members<'a>(
    asked: &mut Vec<Asked<'a>>,
    members: &'a [DraftReference],
) -> Result<(), OutOfMemory>
    ensures { OnOk result (asked_references asked.new.items
        ≡ asked_references asked.old.items ++ member_references members.now) }
{
    for member in members {
        push_member(asked, member)?;
    }
    Ok(())
}
