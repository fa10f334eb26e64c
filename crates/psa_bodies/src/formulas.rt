ghost use Rattle.std.specs.Prelude.{IfOk, map};
ghost use Rattle.std.specs.List.{flat_map};
ghost use Rattle.psa_names.specs.Outlines.{formula_outline};
ghost use Rattle.psa_names.specs.Chains.{references_in};
ghost use Rattle.psa_names.specs.Resolved.{resolved_formula};
ghost use Rattle.psa_bodies.specs.Reading.{Reads};

use crate::cursor::Cursor;
use crate::numbers::{Numbers, next_event};
use psa_model::{DraftFormula, Formula};
use psa_text::{Items, OutOfMemory};
use std::alloc::Global;

/// A formula with the places of what its names stand for. It calls itself as deep as the formula is.
#[cycle(formula)]
pub fn resolve_formula(
    alloc: Global,
    numbers: &Numbers,
    cursor: &mut Cursor,
    formula: &DraftFormula,
) -> Result<Formula, OutOfMemory>
    ensures { IfOk result (Reads numbers.now cursor.old cursor.new
        (references_in (formula_outline formula.now))
        (λ entries from. resolved_formula entries from formula.now)) }
{
    match formula {
        DraftFormula::Event(_, _) => Ok(next_event(numbers, cursor)),
        DraftFormula::Constant(state) => Ok(Formula::Constant(*state)),
        DraftFormula::Connective {
            operator,
            min,
            max,
            arguments,
        } => {
            let arguments = resolve_formulas(alloc, numbers, cursor, arguments.as_slice())?;
            Ok(Formula::Connective {
                operator: *operator,
                min: *min,
                max: *max,
                arguments,
            })
        }
    }
}

/// Formulas in order.
#[cycle(formula)]
fn resolve_formulas(
    alloc: Global,
    numbers: &Numbers,
    cursor: &mut Cursor,
    formulas: &[DraftFormula],
) -> Result<Items<Formula>, OutOfMemory>
    ensures { IfOk result (Reads numbers.now cursor.old cursor.new
        (flat_map (λ one. references_in (formula_outline one)) formulas.now)
        (λ entries from. map (resolved_formula entries from) formulas.now)) }
{
    let mut made = Items::new(alloc);
    for formula in formulas {
        made.push(resolve_formula(alloc, numbers, cursor, formula)?)?;
    }
    Ok(made)
}
