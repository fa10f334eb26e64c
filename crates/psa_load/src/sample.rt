ghost use Rattle.std.specs.Prelude.{◌≡◌, ◌++◌, ◌≤◌, codes, IfOk, OnOk, string_bytes};
ghost use Rattle.std.specs.List.{flat_map, range_with_len};
ghost use Rattle.psa_model.specs.declared.limits.TheConstants.{MAX_SAMPLE, MIN_SAMPLE};
ghost use Rattle.psa_outcome.specs.SampleText.{event_definition, sample_text, train_definitions, train_gate, train_reference};

use psa_text::{OutOfMemory, Text};
use std::alloc::Global;
use std::fmt::Write;

/// The text of the sample model of a size: a gate that wants two of so many trains, each of
/// two basic events.
pub fn sample_text(alloc: Global, n: u32) -> Result<Text, OutOfMemory>
    requires least { MIN_SAMPLE ≤ n }
    requires most { n ≤ MAX_SAMPLE }
    ensures { IfOk result (λ text. text ≡ sample_text n) }
{
    let mut text = String::new(alloc);
    text.push_str("<opsa-mef>\n<define-fault-tree name=\"sample\">\n")?;
    text.push_str("<define-gate name=\"top\"><atleast min=\"2\">\n")?;
    push_references(&mut text, n)?;
    text.push_str("</atleast></define-gate>\n")?;
    push_trains(&mut text, n)?;
    text.push_str("</define-fault-tree>\n</opsa-mef>\n")?;
    Text::from_str(alloc, text.as_str())
}

/// Adds the references to so many trains.
fn push_references(text: &mut String, n: u32) -> Result<(), OutOfMemory>
    requires { n ≤ MAX_SAMPLE }
    ensures { OnOk result (string_bytes text.new
        ≡ string_bytes text.old ++ flat_map train_reference (range_with_len 1 n)) }
{
    for train in 0..n {
        push_reference(text, train + 1)?;
    }
    Ok(())
}

/// Adds the reference to a train.
fn push_reference(text: &mut String, train: u32) -> Result<(), OutOfMemory>
    ensures { OnOk result (string_bytes text.new ≡ string_bytes text.old ++ train_reference train) }
{
    write!(text, "<gate name=\"t{train}\"/>\n")
}

/// Adds the definitions of so many trains.
fn push_trains(text: &mut String, n: u32) -> Result<(), OutOfMemory>
    requires { n ≤ MAX_SAMPLE }
    ensures { OnOk result (string_bytes text.new
        ≡ string_bytes text.old ++ flat_map train_definitions (range_with_len 1 n)) }
{
    for train in 0..n {
        push_train(text, train + 1)?;
    }
    Ok(())
}

/// Adds the definitions of a train: its gate and its two basic events.
fn push_train(text: &mut String, train: u32) -> Result<(), OutOfMemory>
    ensures { OnOk result (string_bytes text.new
        ≡ string_bytes text.old ++ train_definitions train) }
{
    push_gate(text, train)?;
    push_event(text, "a", train, "0.001")?;
    push_event(text, "b", train, "0.0002")
}

/// Adds the gate of a train.
fn push_gate(text: &mut String, train: u32) -> Result<(), OutOfMemory>
    ensures { OnOk result (string_bytes text.new ≡ string_bytes text.old ++ train_gate train) }
{
    write!(
        text,
        "<define-gate name=\"t{train}\"><or><basic-event name=\"a{train}\"/><basic-event name=\"b{train}\"/></or></define-gate>\n"
    )
}

/// Adds a basic event of a train with its quantity.
fn push_event(
    text: &mut String,
    letter: &str,
    train: u32,
    quantity: &str,
) -> Result<(), OutOfMemory>
    ensures { OnOk result (string_bytes text.new
        ≡ string_bytes text.old ++ event_definition letter.now train quantity.now) }
{
    write!(
        text,
        "<define-basic-event name=\"{letter}{train}\"><float value=\"{quantity}\"/></define-basic-event>\n"
    )
}
