use crate::lines::{put, put_number};
use crate::models::MODELS;

/// The text of this name among the models.
pub fn model_named(name: &str) -> &'static str {
    for model in MODELS.split("\n= ") {
        if let Some((title, text)) = model.split_once('\n') {
            if title == name {
                return text;
            }
        }
    }
    "no model"
}

/// Appends the text of a name, with the parts, between which ` ... ` stands, in its places `...`.
fn put_named(out: &mut String, name: &str, parts: &str) {
    let mut parts = parts.split(" ... ");
    for piece in model_named(name).split("...") {
        put(out, piece);
        put(out, parts.next().unwrap_or(""));
    }
}

/// Appends a piece with this number for `#` and the next one for `+`.
fn put_copy(out: &mut String, number: u32, piece: &str) {
    for part in piece.split_inclusive(['#', '+']) {
        if let Some(part) = part.strip_suffix('#') {
            put(out, part);
            put_number(out, &number);
        } else if let Some(part) = part.strip_suffix('+') {
            put(out, part);
            put_number(out, &(u64::from(number) + 1));
        } else {
            put(out, part);
        }
    }
}

/// Appends what stands for a piece in braces.
fn put_braced(out: &mut String, braced: &str) {
    let (word, rest) = braced.split_once(' ').unwrap_or((braced, ""));
    match word.parse::<u32>() {
        Ok(count) => {
            for number in 1..=count {
                put_copy(out, number, rest);
            }
        }
        Err(_) => put_named(out, word, rest),
    }
}

/// Appends a text. In it stands
///
/// - `{3 PIECE}` for the piece three times, in which `#` is the number of the copy, from 1, and `+` the number
///   after it;
/// - `{NAME}` for the text of that name among the models, and `{NAME PART ... PART}` for the same with the parts in
///   its places `...`.
pub fn put_text(out: &mut String, text: &str) {
    for part in text.split('{') {
        match part.split_once('}') {
            Some((braced, rest)) => {
                put_braced(out, braced);
                put(out, rest);
            }
            None => put(out, part),
        }
    }
}
