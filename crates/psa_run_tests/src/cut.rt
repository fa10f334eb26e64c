//! The text of the two trains, cut off.
use crate::cases::put_if_wrong;
use crate::devices::is_done;
use crate::lines::{put, put_number};
use crate::runs::{SOUND, found};
use crate::texts::put_text;
use std::alloc::Global;

/// Appends the fault of a text that ends too early: at the line of the mark that is open, or else at its last line.
fn put_fault(out: &mut String, text: &str) {
    let mut is_open = false;
    let mut line: u32 = 1;
    let mut at = line;
    for byte in text.bytes() {
        match byte {
            b'<' => {
                is_open = true;
                at = line;
            }
            b'>' => is_open = false,
            b'\n' => line = line.saturating_add(1),
            _ => (),
        }
    }
    put(out, "two.xml => BadModel\n! scram: two.xml:");
    put_number(out, if is_open { &at } else { &line });
    put(
        out,
        if is_open {
            ": bad markup\n"
        } else {
            ": bad nesting\n"
        },
    );
}

/// Appends what a run over this text leaves, where it is neither its fault nor, where it is whole, its report.
fn put_wrong_cut(wrong: &mut String, alloc: Global, text: &str, is_whole: bool) {
    let mut file = String::new(alloc);
    put(&mut file, "two.xml ");
    put(&mut file, text);
    let found = found(alloc, "two.xml", file.as_str(), &SOUND);
    if is_whole {
        if !is_done(found.as_str()) {
            put(wrong, found.as_str());
        }
    } else {
        let mut fault = String::new(alloc);
        put_fault(&mut fault, text);
        put_if_wrong(wrong, fault.as_str(), found.as_str());
    }
}

/// What is left of a text that ends too early at each of its places, and not as it should be. What stands behind the
/// root is blank.
pub fn wrong_cuts(alloc: Global) -> String {
    let mut wrong = String::new(alloc);
    let mut text = String::new(alloc);
    put_text(&mut text, "{two}\n");
    let whole = text.as_str().trim_end().len();
    for (place, _) in text.as_str().char_indices() {
        let part = text.as_str().get(..place).unwrap_or("no part");
        put_wrong_cut(&mut wrong, alloc, part, place >= whole);
    }
    wrong
}
