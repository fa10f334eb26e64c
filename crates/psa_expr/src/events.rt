ghost use Rattle.std.specs.Prelude.{◌≡◌, ◌≤◌, ℕ, true, Ok, Err, Some, None, IfOk, IfSome, OnOk};
ghost use Rattle.std.specs.List.{AllZip};
ghost use Rattle.psa_number.specs.Exponential.{last_term};
ghost use Rattle.psa_number.specs.Fraction.{Holds};
ghost use Rattle.psa_model.specs.declared.fault.ModelFault.{ModelFault};
ghost use Rattle.psa_model.specs.Divisors.{divide_rightly};
ghost use Rattle.psa_model.specs.Faults.{fault_at};
ghost use Rattle.psa_model.specs.Values.{event_interval, finished, place_of_event, quantities_of, values_of};
ghost use Rattle.psa_expr.specs.Answers.{AllRight};
ghost use Rattle.psa_expr.specs.Events.{EventAnswered, HaveValues, ServesItsSize};

use crate::ValueError;
use crate::counts::size_of;
use crate::evaluation::{Setting, expression_value};
use crate::groups::group_value;
use crate::operations::Computed;
use crate::parameters::{Known, unknown};
use psa_model::{
    EventId, Expanded, ExpandedEvent, FaultKind, Group, GroupId, MAX_DEPTH, MAX_NESTING, Model,
    ModelFault, Place, Values,
};
use psa_number::{Decimal, Interval, NumberFault, UNITS, clamp_unit};
use psa_text::{Items, OutOfMemory, Text};
use sqlite_items::at;
use std::alloc::Global;

/// The interval of the last subset of a group that was evaluated: it serves the next ones of its size.
#[derive(Clone, Copy)]
struct SizeValue {
    group: GroupId,
    size: u8,
    value: Interval,
}

/// The interval of each event's quantity at a mission time, by event number, or the first fault of an
/// event. A basic event's expression, or the quantity that its group gives to a subset or a member, is
/// evaluated from left to right; each parameter is evaluated at most once; the finished interval is held
/// to 0 and 1. The recursion is at most `MAX_VALUE_LEVELS` deep. (The operations are those of the
/// Open-PSA Model Exchange Format 2.0d; the rounding is this project's own.)
pub fn evaluate(alloc: Global, expanded: &Expanded, mission: Decimal) -> Result<Values, ValueError>
    requires { HaveValues expanded.now.model }
    ensures values { IfOk result (λ values. values_of mission expanded.now ≡ Ok values) }
    ensures fault { (found : ModelFault) → result ≡ Err (ValueError.Fault found)
        → values_of mission expanded.now ≡ Err found }

    // The interval of each event holds its exact quantity.
    ensures bracket { IfOk result (λ values. (terms : ℕ) → last_term ≤ terms
        → AllZip Holds values (quantities_of terms mission expanded.now)) }

    // No interval rests on a quotient by 0: each divisor has an exact value other than 0.
    ensures divisors { OnOk result ((terms : ℕ) → last_term ≤ terms
        → divide_rightly terms mission expanded.now ≡ true) }
{
    let setting = Setting {
        model: &expanded.model,
        mission,
    };
    let mut known = unknown(alloc, expanded.model.parameters.len())?;
    let mut last = None;
    let mut values = Items::new(alloc);
    for event in expanded.events.as_slice() {
        match event_value(alloc, &setting, &mut known, &mut last, *event)? {
            Ok(value) => values.push(value)?,
            Err(kind) => {
                let fault = fault_of(alloc, &expanded.model, *event, kind)?;
                return Err(ValueError::Fault(fault));
            }
        }
    }
    Ok(values)
}

/// The interval of an event, or what is wrong with it.
fn event_value(
    alloc: Global,
    setting: &Setting,
    known: &mut Known,
    last: &mut Option<SizeValue>,
    event: ExpandedEvent,
) -> Result<Result<Interval, FaultKind>, OutOfMemory>
    requires values { HaveValues setting.now.model.now }
    requires right { AllRight setting.now.mission setting.now.model.now known.old }
    requires last { ServesItsSize setting.now.mission setting.now.model.now last.old }
    ensures value { IfOk result (EventAnswered setting.now.mission setting.now.model.now
        (event_interval setting.now.mission setting.now.model.now event) known.new) }
    ensures last { ServesItsSize setting.now.mission setting.now.model.now last.new }
{
    match event {
        ExpandedEvent::Basic(id) => basic_value(alloc, setting, known, id),
        ExpandedEvent::Member(id, _) => member_value(alloc, setting, known, id),
        ExpandedEvent::Shared(id, subset) => shared_value(alloc, setting, known, last, id, subset),
    }
}

/// The interval of a basic event.
fn basic_value(
    alloc: Global,
    setting: &Setting,
    known: &mut Known,
    id: EventId,
) -> Result<Result<Interval, FaultKind>, OutOfMemory>
    requires values { HaveValues setting.now.model.now }
    requires right { AllRight setting.now.mission setting.now.model.now known.old }
    ensures { IfOk result (EventAnswered setting.now.mission setting.now.model.now
        (event_interval setting.now.mission setting.now.model.now (ExpandedEvent.Basic id)) known.new) }
{
    let Some(basic) = at(setting.model.basics.as_slice(), id.0 as usize) else {
        return Ok(Err(FaultKind::NoValue));
    };
    match &basic.expression {
        Some(expression) => {
            let depth = MAX_NESTING + MAX_DEPTH;
            Ok(finish(expression_value(alloc, setting, known, expression, depth)?))
        }
        None => Ok(Err(FaultKind::NoValue)),
    }
}

/// The interval of a member of a group that is not expanded: that of the group's distribution.
fn member_value(
    alloc: Global,
    setting: &Setting,
    known: &mut Known,
    id: GroupId,
) -> Result<Result<Interval, FaultKind>, OutOfMemory>
    requires values { HaveValues setting.now.model.now }
    requires right { AllRight setting.now.mission setting.now.model.now known.old }
    ensures { (place : ℕ) → IfOk result (EventAnswered setting.now.mission setting.now.model.now
        (event_interval setting.now.mission setting.now.model.now (ExpandedEvent.Member id place)) known.new) }
{
    match at(setting.model.groups.as_slice(), id.0 as usize) {
        Some(group) => {
            let depth = MAX_NESTING + MAX_DEPTH;
            Ok(finish(expression_value(alloc, setting, known, &group.distribution, depth)?))
        }
        None => Ok(Err(FaultKind::NoValue)),
    }
}

/// The interval of a subset of a group: that of its size, which the last one may have had. (The subsets of
/// a group stand by size.)
fn shared_value(
    alloc: Global,
    setting: &Setting,
    known: &mut Known,
    last: &mut Option<SizeValue>,
    id: GroupId,
    subset: u8,
) -> Result<Result<Interval, FaultKind>, OutOfMemory>
    requires values { HaveValues setting.now.model.now }
    requires right { AllRight setting.now.mission setting.now.model.now known.old }
    requires last { ServesItsSize setting.now.mission setting.now.model.now last.old }
    ensures value { IfOk result (EventAnswered setting.now.mission setting.now.model.now
        (event_interval setting.now.mission setting.now.model.now (ExpandedEvent.Shared id subset)) known.new) }
    ensures last { ServesItsSize setting.now.mission setting.now.model.now last.new }
{
    let Some(group) = at(setting.model.groups.as_slice(), id.0 as usize) else {
        return Ok(Err(FaultKind::NoValue));
    };
    let count = group.members.len() as u8;
    let size = size_of(count, subset);
    if let Some(value) = value_of_size(last, id, size) {
        return Ok(Ok(value));
    }
    let value = finish(group_value(alloc, setting, known, group, count, size)?);
    if let Ok(value) = value {
        *last = Some(SizeValue {
            group: id,
            size,
            value,
        });
    }
    Ok(value)
}

/// The interval of the subsets of this size of a group, where the last one was of it.
fn value_of_size(last: &Option<SizeValue>, group: GroupId, size: u8) -> Option<Interval>
    ensures { IfSome result (λ value.
        last.now ≡ Some (record { group = group; size = size; value = value })) }
{
    match last {
        Some(kept) if kept.group.0 == group.0 && kept.size == size => Some(kept.value),
        _ => None,
    }
}

/// What a computed interval is for an event: a probability held to 0 and 1, or a fault.
fn finish(computed: Computed) -> Result<Interval, FaultKind>
    ensures { result ≡ finished computed }
{
    match computed {
        Ok(value) => {
            if i128::from(UNITS) < value.lo || value.hi < 0 {
                Err(FaultKind::NotProbability)
            } else {
                Ok(clamp_unit(value))
            }
        }
        Err(NumberFault::ZeroDivisor) => Err(FaultKind::ZeroDivisor),
        Err(NumberFault::Negative) => Err(FaultKind::NegativeRate),
        Err(NumberFault::TooLarge) => Err(FaultKind::TooLarge),
        Err(NumberFault::NotDecimal) => Err(FaultKind::TooLarge),
        Err(NumberFault::TooManyDigits) => Err(FaultKind::TooLarge),
    }
}

/// A fault of an event: it stands where the basic event or the group of the event does.
fn fault_of(
    alloc: Global,
    model: &Model,
    event: ExpandedEvent,
    kind: FaultKind,
) -> Result<ModelFault, OutOfMemory>
    ensures { IfOk result (λ fault. fault ≡ fault_at kind (place_of_event model.now event)) }
{
    match event {
        ExpandedEvent::Basic(id) => match at(model.basics.as_slice(), id.0 as usize) {
            Some(basic) => fault_there(alloc, kind, basic.place, basic.name.as_str()),
            None => fault_nowhere(alloc, kind),
        },
        ExpandedEvent::Member(id, _) => group_fault(alloc, model, id, kind),
        ExpandedEvent::Shared(id, _) => group_fault(alloc, model, id, kind),
    }
}

/// A fault of a group's event.
fn group_fault(
    alloc: Global,
    model: &Model,
    id: GroupId,
    kind: FaultKind,
) -> Result<ModelFault, OutOfMemory>
    ensures { (subset : ℕ) → IfOk result (λ fault.
        fault ≡ fault_at kind (place_of_event model.now (ExpandedEvent.Shared id subset))) }
{
    match at(model.groups.as_slice(), id.0 as usize) {
        Some(group) => fault_there(alloc, kind, group.place, group.name.as_str()),
        None => fault_nowhere(alloc, kind),
    }
}

/// A fault at a place, with a name.
fn fault_there(
    alloc: Global,
    kind: FaultKind,
    place: Place,
    name: &str,
) -> Result<ModelFault, OutOfMemory>
    ensures { IfOk result (λ fault. fault ≡ fault_at kind (Some (place, name.now))) }
{
    Ok(ModelFault {
        kind,
        file: place.file,
        line: place.line,
        name: Text::from_str(alloc, name)?,
    })
}

/// A fault of what does not stand.
fn fault_nowhere(alloc: Global, kind: FaultKind) -> Result<ModelFault, OutOfMemory>
    ensures { IfOk result (λ fault. fault ≡ fault_at kind None) }
{
    Ok(ModelFault {
        kind,
        file: 0,
        line: 0,
        name: Text::from_str(alloc, "")?,
    })
}
