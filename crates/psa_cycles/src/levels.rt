ghost use Rattle.std.specs.Prelude.{◌≡◌, ◌+◌, ◌<◌, [], ◌∷◌, OnOk, max, map};
ghost use Rattle.psa_model.specs.Drafts.{expression_contents, formula_contents, test_contents, together};
ghost use Rattle.psa_names.specs.Outlines.{expression_outline, formula_outline, joined, test_outline};
ghost use Rattle.psa_cycles.specs.Levels.{HasRoom, added, with_outline, with_outlines};

use psa_model::{DraftExpression, DraftFormula, DraftTest};
use psa_text::{Items, OutOfMemory};
use std::alloc::Global;

/// The levels of references in the order of the document, and the greatest level of an element,
/// both from 1 for what stands directly in a definition.
#[derive(Drop)]
pub struct Levels {
    pub references: Items<u32>,
    pub deepest: u32,
}

impl Levels {
    /// No levels.
    pub fn new(alloc: Global) -> Levels
        ensures { result ≡ record { references = []; deepest = 0 } }
    {
        Levels {
            references: Items::new(alloc),
            deepest: 0,
        }
    }

    /// Adds an element without a name.
    pub fn push_plain(&mut self, level: u32)
        ensures { self.new ≡ added self.old [] level }
    {
        self.deepest = self.deepest.max(level);
    }

    /// Adds an element that names something.
    pub fn push_naming(&mut self, level: u32) -> Result<(), OutOfMemory>
        ensures { OnOk result (self.new ≡ added self.old (level ∷ []) level) }
    {
        self.deepest = self.deepest.max(level);
        self.references.push(level)
    }
}

/// Adds the elements of a formula inside so many others. A body nests at most 64 deep, and this
/// calls itself as deep.
pub fn push_formula(
    levels: &mut Levels,
    formula: &DraftFormula,
    around: u32,
) -> Result<(), OutOfMemory>
    requires { HasRoom around (formula_contents formula.now) }
    ensures { OnOk result
        (levels.new ≡ with_outline around (formula_outline formula.now) levels.old) }
{
    match formula {
        DraftFormula::Event(_, _) => levels.push_naming(around + 1),
        DraftFormula::Constant(_) => {
            levels.push_plain(around + 1);
            Ok(())
        }
        DraftFormula::Connective { arguments, .. } => {
            levels.push_plain(around + 1);
            for argument in arguments.as_slice() {
                push_formula(levels, argument, around + 1)?;
            }
            Ok(())
        }
    }
}

/// Adds the elements of an expression inside so many others. This calls itself as deep as a body
/// nests.
pub fn push_expression(
    levels: &mut Levels,
    expression: &DraftExpression,
    around: u32,
) -> Result<(), OutOfMemory>
    requires { HasRoom around (expression_contents expression.now) }
    ensures { OnOk result
        (levels.new ≡ with_outline around (expression_outline expression.now) levels.old) }
{
    match expression {
        DraftExpression::Number(_) => {
            levels.push_plain(around + 1);
            Ok(())
        }
        DraftExpression::Parameter(_) => levels.push_naming(around + 1),
        DraftExpression::MissionTime => {
            levels.push_plain(around + 1);
            Ok(())
        }
        DraftExpression::Operation { arguments, .. } => {
            levels.push_plain(around + 1);
            for argument in arguments.as_slice() {
                push_expression(levels, argument, around + 1)?;
            }
            Ok(())
        }
    }
}

/// Adds the elements of a test inside so many others. This calls itself as deep as a body nests.
#[cycle(testing)]
pub fn push_test(levels: &mut Levels, test: &DraftTest, around: u32) -> Result<(), OutOfMemory>
    requires { HasRoom around (test_contents test.now) }
    ensures { OnOk result (levels.new ≡ with_outline around (test_outline test.now) levels.old) }
{
    match test {
        DraftTest::Initiating(_) => levels.push_naming(around + 1),
        DraftTest::Functional { .. } => levels.push_naming(around + 1),
        DraftTest::All(tests) => push_tests(levels, tests.as_slice(), around),
        DraftTest::Any(tests) => push_tests(levels, tests.as_slice(), around),
        DraftTest::Not(tests) => push_tests(levels, tests.as_slice(), around),
    }
}

/// Adds the element that holds these tests.
#[cycle(testing)]
fn push_tests(levels: &mut Levels, tests: &[DraftTest], around: u32) -> Result<(), OutOfMemory>
    requires { HasRoom (around + 1) (together (map test_contents tests.now)) }
    ensures { OnOk result (levels.new
        ≡ with_outlines (around + 1) (joined (map test_outline tests.now))
        (added levels.old [] (around + 1))) }
{
    levels.push_plain(around + 1);
    for test in tests {
        push_test(levels, test, around + 1)?;
    }
    Ok(())
}
