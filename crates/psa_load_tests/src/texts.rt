use crate::lines::{put, put_number};
use std::alloc::Global;

/// The text of a file whose root holds the definitions of a row. `~` parts the pieces of a row: a piece
/// `N*UNIT` stands for N copies of the unit, in which `#` is the number of the copy, from 0, and `+` the
/// number after it. `|` stands for the end of a line.
pub fn text_of(alloc: Global, row: &str) -> String {
    let mut text = String::new(alloc);
    put(&mut text, "<opsa-mef>");
    for piece in row.split('~') {
        match piece.split_once('*') {
            Some((count, unit)) => put_copies(&mut text, count, unit),
            None => put_lines(&mut text, piece),
        }
    }
    put(&mut text, "</opsa-mef>");
    text
}

/// A piece with the ends of its lines.
fn put_lines(text: &mut String, piece: &str) {
    for line in piece.split_inclusive('|') {
        match line.strip_suffix('|') {
            Some(line) => {
                put(text, line);
                put(text, "\n");
            }
            None => put(text, line),
        }
    }
}

fn put_copies(text: &mut String, count: &str, unit: &str) {
    for number in 0..count.parse::<u32>().unwrap_or(0) {
        put_copy(text, number, unit);
    }
}

/// A unit with this number for `#` and the next one for `+`.
fn put_copy(text: &mut String, number: u32, unit: &str) {
    for part in unit.split_inclusive(['#', '+']) {
        if let Some(part) = part.strip_suffix('#') {
            put(text, part);
            put_number(text, &number);
        } else if let Some(part) = part.strip_suffix('+') {
            put(text, part);
            put_number(text, &(u64::from(number) + 1));
        } else {
            put(text, part);
        }
    }
}
