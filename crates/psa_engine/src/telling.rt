ghost use Rattle.std.specs.Prelude.{◌≡◌};
ghost use Rattle.psa_engine.specs.Ends.{line_of, name_in_input, refusal_status, refusal_text};
ghost use Rattle.psa_outcome.specs.RunOutcome.{GrewBy};
ghost use Rattle.psa_report.specs.Pieces.{Writes};

use crate::end::End;
use itoa::Buffer;
use psa_model::{Input, Settings};
use psa_outcome::Status;
use psa_ports::Sink;
use psa_report::{WriteFault, put_all, write_fault};
use psa_words::WordsError;
use sqlite_items::at;

/// What is told where memory is wanting.
const OUT_OF_MEMORY: &str = "scram: out of memory\n";

/// Tells on `err` that the words are refused, or that memory was wanting to read them. That `err` fails changes
/// nothing.
pub fn refuse<E: Sink>(err: &mut E, program: &str, error: WordsError) -> Status
    ensures status { result ≡ refusal_status error }
    ensures line { GrewBy (refusal_text program.now error) (E.faults err.old, E.faults err.new)
        (E.written err.old) (E.written err.new) }
{
    match error {
        WordsError::BadWords => {
            let _ = put_all(
                err,
                &[
                    "scram: bad words\n",
                    "usage: ",
                    program,
                    " [options] FILE...\n",
                ],
            );
            Status::BadWords
        }
        WordsError::Memory => {
            let _ = put_all(err, &[OUT_OF_MEMORY]);
            Status::OutOfMemory
        }
    }
}

/// Tells on `err` how a run by the settings ended, in the line of its status. That `err` fails changes nothing.
pub fn tell<E: Sink>(err: &mut E, settings: &Settings, end: &End)
    ensures { GrewBy (line_of settings.now end.now) (E.faults err.old, E.faults err.new)
        (E.written err.old) (E.written err.new) }
{
    let _ = write_line(err, settings, end);
}

/// Writes the line of an end; there is none where all was written.
fn write_line<E: Sink>(err: &mut E, settings: &Settings, end: &End) -> Result<(), WriteFault>
    ensures { Writes (E.written err.old) (E.written err.new) (E.faults err.old) (E.faults err.new)
        (line_of settings.now end.now) result }
{
    match end {
        End::Done => put_all(err, &[]),
        End::Bad(fault, file) => write_fault(err, fault, file),
        End::Read(number) => put_all(
            err,
            &[
                "scram: cannot read ",
                file_name(&settings.input, *number),
                "\n",
            ],
        ),
        End::Write => put_all(err, &["scram: cannot write\n"]),
        End::Full(number) => {
            let mut text = Buffer::new();
            put_all(
                err,
                &["scram: node limit at target ", text.format(*number), "\n"],
            )
        }
        End::Memory => put_all(err, &[OUT_OF_MEMORY]),
    }
}

/// The name of the file with a number, from 0, of an input; of a sample that of the text in a file's place.
pub fn file_name(input: &Input, number: u32) -> &str
    ensures { result.now ≡ name_in_input input.now number }
{
    match input {
        Input::Files(names) => match at(names.as_slice(), number as usize) {
            Some(name) => name.as_str(),
            None => "",
        },
        Input::Sample(_) => { if number == 0 { "sample" } else { "" } }
    }
}
