use crate::lines::{put, put_number};
use psa_model::{
    ExpandedEvent, FaultKind, InitiatingId, Model, ModelFault, Path, PathStep, SequenceId, Target,
};
use psa_number::Interval;
use psa_outcome::{LoadError, Loaded};

/// More paths to one sequence are told by their number.
const MANY_PATHS: usize = 20;

/// The events in order: before each, where it is another than that of the event before, its interval in
/// units of 10^-12.
pub fn put_events(out: &mut String, loaded: &Loaded) {
    let mut last = None;
    for (place, event) in loaded.expanded.events.as_slice().iter().enumerate() {
        let value = value_at(loaded, place);
        if value != last {
            put_interval(out, value);
        }
        last = value;
        put_event(out, &loaded.expanded.model, *event);
    }
}

fn value_at(loaded: &Loaded, place: usize) -> Option<Interval> {
    match &loaded.values {
        Some(values) => match values.get(place) {
            Some(value) => Some(*value),
            None => None,
        },
        None => None,
    }
}

fn put_interval(out: &mut String, value: Option<Interval>) {
    if let Some(interval) = value {
        put_number(out, &interval.lo);
        put(out, "..");
        put_number(out, &interval.hi);
        put(out, " ");
    }
}

/// A basic event by its name, a member or a subset of a group by its number.
fn put_event(out: &mut String, model: &Model, event: ExpandedEvent) {
    match event {
        ExpandedEvent::Basic(id) => match model.basics.get(id.0 as usize) {
            Some(basic) => put(out, basic.name.as_str()),
            None => put(out, "?"),
        },
        ExpandedEvent::Member(_, place) => {
            put(out, "m");
            put_number(out, &place);
        }
        ExpandedEvent::Shared(_, subset) => {
            put(out, "s");
            put_number(out, &subset);
        }
    }
    put(out, " ");
}

/// The targets in order.
pub fn put_targets(out: &mut String, loaded: &Loaded) {
    let model = &loaded.expanded.model;
    for target in loaded.targets.as_slice() {
        match target {
            Target::TopEvent(id) => {
                put(out, "top ");
                match model.gates.get(id.0 as usize) {
                    Some(gate) => put(out, gate.name.as_str()),
                    None => put(out, "?"),
                }
            }
            Target::Sequence {
                initiating,
                sequence,
                paths,
            } => {
                put_sequence(out, model, *initiating, *sequence);
                put_paths(out, model, paths.as_slice());
            }
        }
        put(out, ";");
    }
}

fn put_sequence(out: &mut String, model: &Model, initiating: InitiatingId, sequence: SequenceId) {
    if let Some(initiating) = model.initiatings.get(initiating.0 as usize) {
        put(out, initiating.name.as_str());
    }
    put(out, " ");
    if let Some(sequence) = model.sequences.get(sequence.0 as usize) {
        put(out, sequence.name.as_str());
    }
}

fn put_paths(out: &mut String, model: &Model, paths: &[Path]) {
    if paths.len() > MANY_PATHS {
        put(out, ": ");
        put_number(out, &paths.len());
        put(out, " paths");
    } else {
        for path in paths {
            put_path(out, model, path.as_slice());
        }
    }
}

fn put_path(out: &mut String, model: &Model, steps: &[PathStep]) {
    put(out, ":");
    for step in steps {
        put(out, " ");
        put_step(out, model, *step);
    }
}

/// A collected formula by its number, a house event by its name, with `+` where it is set to true.
fn put_step(out: &mut String, model: &Model, step: PathStep) {
    match step {
        PathStep::Collect(id) => put_number(out, &id.0),
        PathStep::Set(id, state) => {
            match model.houses.get(id.0 as usize) {
                Some(house) => put(out, house.name.as_str()),
                None => put(out, "?"),
            }
            put(out, if state { "+" } else { "-" });
        }
    }
}

/// The ranks of each target, and the lower ends of the intervals.
pub fn put_loaded(out: &mut String, loaded: &Loaded) {
    for ranks in loaded.ranks.as_slice() {
        put(out, "target");
        for event in ranks.as_slice() {
            put(out, " ");
            put_number(out, &event.0);
        }
        put(out, "; ");
    }
    match &loaded.values {
        None => put(out, "no values"),
        Some(values) => put_values(out, values.as_slice()),
    }
}

fn put_values(out: &mut String, values: &[Interval]) {
    put(out, "values");
    for value in values {
        put(out, " ");
        put_number(out, &value.lo);
    }
}

/// Why nothing was loaded.
pub fn put_error(out: &mut String, error: &LoadError) {
    match error {
        LoadError::Bad(fault) => put_fault(out, fault),
        LoadError::Read(number) => {
            put(out, "cannot read ");
            put_number(out, number);
        }
        LoadError::Memory => put(out, "no memory"),
    }
}

/// A fault as its line, its kind and the name that it tells.
fn put_fault(out: &mut String, fault: &ModelFault) {
    put_number(out, &fault.line);
    put(out, ": ");
    put(out, kind_words(fault.kind));
    put(out, " ");
    put(out, fault.name.as_str());
}

fn kind_words(kind: FaultKind) -> &'static str {
    match kind {
        FaultKind::BadNesting => "bad nesting",
        FaultKind::UnknownElement => "unknown element",
        FaultKind::Undefined => "undefined",
        FaultKind::LongPath => "long path",
        FaultKind::TooManyPaths => "too many paths",
        FaultKind::NoValue => "no value",
        FaultKind::ZeroDivisor => "zero divisor",
        FaultKind::TooLarge => "too large",
        FaultKind::NegativeRate => "negative rate",
        FaultKind::NotProbability => "not a probability",
        _ => "another fault",
    }
}
