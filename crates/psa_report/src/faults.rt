ghost use Rattle.std.specs.Prelude.{◌≡◌};
ghost use Rattle.psa_model.specs.FaultTexts.{fault_line, fault_words, tells_name, told_name};
ghost use Rattle.psa_report.specs.Pieces.{Writes};

use crate::WriteFault;
use crate::pieces::{put_all, put_one};
use itoa::Buffer;
use psa_model::{FaultKind, ModelFault};
use psa_ports::Sink;
use psa_text::Text;

/// What is said of a fault; where its name follows, a space is last.
fn words_of(kind: FaultKind) -> &'static str
    ensures { result.now ≡ fault_words kind }
{
    match kind {
        FaultKind::LongFile => "file too long",
        FaultKind::BadMarkup => "bad markup",
        FaultKind::LongToken => "token too long",
        FaultKind::BadNesting => "bad nesting",
        FaultKind::UnknownElement => "unknown element ",
        FaultKind::BadAttribute => "bad attribute ",
        FaultKind::BadNumber => "bad number ",
        FaultKind::BadName => "bad name ",
        FaultKind::BadShape => "bad shape ",
        FaultKind::Duplicate => "duplicate ",
        FaultKind::Undefined => "undefined ",
        FaultKind::WrongKind => "wrong kind ",
        FaultKind::BadGroup => "bad group ",
        FaultKind::Cycle => "cycle ",
        FaultKind::TooDeep => "too deep ",
        FaultKind::LongPath => "long path ",
        FaultKind::TooManyPaths => "too many paths ",
        FaultKind::TooManyEvents => "too many events ",
        FaultKind::NoValue => "no value ",
        FaultKind::ZeroDivisor => "zero divisor ",
        FaultKind::TooLarge => "too large ",
        FaultKind::NegativeRate => "negative rate ",
        FaultKind::NotProbability => "not a probability ",
    }
}

/// Whether a fault of this kind tells a name: each but those of a text.
fn is_named(kind: FaultKind) -> bool
    ensures { result ≡ tells_name kind }
{
    match kind {
        FaultKind::LongFile => false,
        FaultKind::BadMarkup => false,
        FaultKind::LongToken => false,
        FaultKind::BadNesting => false,
        _ => true,
    }
}

/// The name that is told of a fault.
fn name_of(fault: &ModelFault) -> &str
    ensures { result.now ≡ told_name fault.now }
{
    if is_named(fault.kind) {
        fault.name.as_str()
    } else {
        ""
    }
}

/// Writes the line that tells a fault of a model in the file of a name: the file, the line, and the text of its
/// kind.
/// Refuses only where the sink does; a prefix of the line was written then.
pub fn write_fault<S: Sink>(err: &mut S, fault: &ModelFault, file: &Text) -> Result<(), WriteFault>
    ensures { Writes (S.written err.old) (S.written err.new) (S.faults err.old) (S.faults err.new)
        (fault_line file.now fault.now) result }
{
    let mut line = Buffer::new();
    put_one(err, "scram: ")?;
    put_one(err, file.as_str())?;
    put_all(
        err,
        &[":", line.format(fault.line), ": ", words_of(fault.kind)],
    )?;
    put_one(err, name_of(fault))?;
    put_one(err, "\n")
}
