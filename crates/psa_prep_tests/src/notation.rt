//! Formulas in short: a sign for each connective, its arguments, and a full stop.
//!
//! `a` to `d` are basic events, `h` is a house event that is on and `k` one that is off, `t` and `f` are
//! constants, and `g` is a gate of its own. `@2:` stands for at least 2, `#1,3:` for 1 to 3.
use crate::lines::put;
use psa_model::EventNumber;
use psa_text::OutOfMemory;
use std::alloc::Global;

/// What stands for a sign in a file, up to its arguments.
fn piece(sign: u8) -> &'static str {
    match sign {
        b'a' => "<basic-event name='a'/>",
        b'b' => "<basic-event name='b'/>",
        b'c' => "<basic-event name='c'/>",
        b'd' => "<basic-event name='d'/>",
        b'h' => "<house-event name='h'/>",
        b'k' => "<event name='k'/>",
        b't' => "<constant value='true'/>",
        b'f' => "<constant value='false'/>",
        b'g' => "<gate name='g'/>",
        b'&' => "<and>",
        b'|' => "<or>",
        b'!' => "<not>",
        b'^' => "<xor>",
        b'=' => "<iff>",
        b'~' => "<nand>",
        b'-' => "<nor>",
        b'>' => "<imply>",
        b'@' => "<atleast min='",
        b'#' => "<cardinality min='",
        b',' => "' max='",
        b':' => "'>",
        b'0' => "0",
        b'1' => "1",
        b'2' => "2",
        b'3' => "3",
        b'4' => "4",
        _ => "",
    }
}

/// What stands behind the arguments of a sign.
fn end(sign: u8) -> &'static str {
    match sign {
        b'&' => "</and>",
        b'|' => "</or>",
        b'!' => "</not>",
        b'^' => "</xor>",
        b'=' => "</iff>",
        b'~' => "</nand>",
        b'-' => "</nor>",
        b'>' => "</imply>",
        b'@' => "</atleast>",
        b'#' => "</cardinality>",
        _ => "",
    }
}

/// A formula as it stands in a file.
fn put_formula(alloc: Global, out: &mut String, formula: &str) {
    let mut open: Vec<u8> = Vec::new(alloc);
    for sign in formula.as_bytes() {
        if *sign == b'.' {
            put(out, end(open.pop().unwrap_or(b' ')));
        } else {
            put(out, piece(*sign));
            if !end(*sign).is_empty() {
                let _left_out = open.push(*sign);
            }
        }
    }
}

/// A file whose one top event has the formula. The gate `g` stands in it where the formula names it.
pub fn text_of(alloc: Global, formula: &str) -> String {
    let mut out = String::new(alloc);
    put(
        &mut out,
        "<opsa-mef><define-fault-tree name='F'><define-gate name='top'>",
    );
    put_formula(alloc, &mut out, formula);
    put(&mut out, "</define-gate>");
    if formula.as_bytes().contains(&b'g') {
        put(&mut out, "<define-gate name='g'>");
        put_formula(alloc, &mut out, "|c&bh..");
        put(&mut out, "</define-gate>");
    }
    put(
        &mut out,
        "</define-fault-tree><model-data>\
        <define-basic-event name='a'/><define-basic-event name='b'/>\
        <define-basic-event name='c'/><define-basic-event name='d'/>\
        <define-house-event name='h'><constant value='true'/></define-house-event>\
        <define-house-event name='k'/></model-data></opsa-mef>",
    );
    out
}

/// Whether the event with the number occurs in a set of ranks, one bit a rank.
fn occurs(ranks: &[EventNumber], set: u32, number: u32) -> bool {
    let mut bits = set;
    for event in ranks {
        if event.0 == number {
            return bits % 2 == 1;
        }
        bits /= 2;
    }
    false
}

/// The truth of an event or a constant.
fn leaf(sign: u8, ranks: &[EventNumber], set: u32) -> bool {
    match sign {
        b'a' => occurs(ranks, set, 0),
        b'b' => occurs(ranks, set, 1),
        b'c' => occurs(ranks, set, 2),
        b'd' => occurs(ranks, set, 3),
        b'g' => occurs(ranks, set, 1) || occurs(ranks, set, 2),
        b'h' | b't' => true,
        _ => false,
    }
}

/// A connective whose arguments are not all seen: its sign, its last two bounds, how many arguments it
/// has, how many of them are true, and whether the first is.
#[derive(Clone, Copy)]
struct Open {
    sign: u8,
    min: u32,
    max: u32,
    seen: u32,
    trues: u32,
    first: bool,
}

impl Open {
    /// The connective with one argument more.
    fn with(&self, value: bool) -> Open {
        Open {
            sign: self.sign,
            min: self.min,
            max: self.max,
            seen: self.seen.saturating_add(1),
            trues: self.trues.saturating_add(if value { 1 } else { 0 }),
            first: if self.seen == 0 { value } else { self.first },
        }
    }

    /// The truth of the connective by its arguments.
    fn value(&self) -> bool {
        match self.sign {
            b'&' => self.trues == self.seen,
            b'|' => self.trues > 0,
            b'!' | b'-' => self.trues == 0,
            b'^' => self.trues == 1,
            b'=' => self.trues != 1,
            b'~' => self.trues < self.seen,
            b'>' => !self.first || self.trues == 2,
            b'@' => self.trues >= self.max,
            _ => self.min <= self.trues && self.trues <= self.max,
        }
    }
}

/// Notes a truth as an argument of the innermost open connective; the truth of all where there is none.
fn note(open: &mut Vec<Open>, value: bool) -> Result<Option<bool>, OutOfMemory> {
    match open.pop() {
        Some(connective) => {
            open.push(connective.with(value))?;
            Ok(None)
        }
        None => Ok(Some(value)),
    }
}

/// The connective with a sign behind it: a digit is a bound, the latest one the greater.
fn bounded(connective: Open, sign: u8) -> Open {
    if !sign.is_ascii_digit() {
        return connective;
    }
    Open {
        min: connective.max,
        max: (sign % 16) as u32,
        ..connective
    }
}

/// Whether the sign is that of an event or a constant.
fn is_leaf(sign: u8) -> bool {
    sign.is_ascii_lowercase()
}

/// Goes on at a sign; the truth of all where the sign ends it.
fn step(
    open: &mut Vec<Open>,
    sign: u8,
    ranks: &[EventNumber],
    set: u32,
) -> Result<Option<bool>, OutOfMemory> {
    if is_leaf(sign) {
        return note(open, leaf(sign, ranks, set));
    }
    if !end(sign).is_empty() {
        open.push(Open {
            sign,
            min: 0,
            max: 0,
            seen: 0,
            trues: 0,
            first: false,
        })?;
        return Ok(None);
    }
    match open.pop() {
        Some(connective) => {
            if sign == b'.' {
                return note(open, connective.value());
            }
            open.push(bounded(connective, sign))?;
            Ok(None)
        }
        None => Ok(None),
    }
}

/// The truth of a formula in a set of ranks, one bit a rank.
pub fn value(
    alloc: Global,
    formula: &str,
    ranks: &[EventNumber],
    set: u32,
) -> Result<bool, OutOfMemory> {
    let mut open: Vec<Open> = Vec::new(alloc);
    for sign in formula.as_bytes() {
        if let Some(value) = step(&mut open, *sign, ranks, set)? {
            return Ok(value);
        }
    }
    Ok(false)
}
