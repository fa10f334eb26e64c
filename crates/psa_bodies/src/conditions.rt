ghost use Rattle.std.specs.Prelude.{IfOk, map};
ghost use Rattle.std.specs.List.{flat_map};
ghost use Rattle.psa_names.specs.Outlines.{test_outline};
ghost use Rattle.psa_names.specs.Chains.{references_in};
ghost use Rattle.psa_names.specs.Resolved.{resolved_test};
ghost use Rattle.psa_bodies.specs.Reading.{Reads};

use crate::cursor::Cursor;
use crate::numbers::{Numbers, next_id, skip_reference};
use psa_model::{DefinitionKind, DraftTest, InitiatingId, Test};
use psa_text::{Items, OutOfMemory, Text};
use std::alloc::Global;

/// A test with the places of its initiating events; its functional events stay names. It calls itself
/// as deep as the test is.
#[cycle(condition)]
pub fn resolve_test(
    alloc: Global,
    numbers: &Numbers,
    cursor: &mut Cursor,
    test: &DraftTest,
) -> Result<Test, OutOfMemory>
    ensures { IfOk result (Reads numbers.now cursor.old cursor.new
        (references_in (test_outline test.now))
        (λ entries from. resolved_test entries from test.now)) }
{
    match test {
        DraftTest::Initiating(_) => {
            let id = next_id(numbers, cursor, DefinitionKind::InitiatingEvent);
            Ok(Test::Initiating(InitiatingId(id)))
        }
        DraftTest::Functional { name, state } => {
            skip_reference(numbers, cursor);
            Ok(Test::Functional {
                name: Text::from_str(alloc, name.name.as_str())?,
                state: Text::from_str(alloc, state.as_str())?,
            })
        }
        DraftTest::All(tests) => {
            let tests = resolve_tests(alloc, numbers, cursor, tests.as_slice())?;
            Ok(Test::All(tests))
        }
        DraftTest::Any(tests) => {
            let tests = resolve_tests(alloc, numbers, cursor, tests.as_slice())?;
            Ok(Test::Any(tests))
        }
        DraftTest::Not(tests) => {
            let tests = resolve_tests(alloc, numbers, cursor, tests.as_slice())?;
            Ok(Test::Not(tests))
        }
    }
}

/// Tests in order.
#[cycle(condition)]
fn resolve_tests(
    alloc: Global,
    numbers: &Numbers,
    cursor: &mut Cursor,
    tests: &[DraftTest],
) -> Result<Items<Test>, OutOfMemory>
    ensures { IfOk result (Reads numbers.now cursor.old cursor.new
        (flat_map (λ one. references_in (test_outline one)) tests.now)
        (λ entries from. map (resolved_test entries from) tests.now)) }
{
    let mut made = Items::new(alloc);
    for test in tests {
        made.push(resolve_test(alloc, numbers, cursor, test)?)?;
    }
    Ok(made)
}
