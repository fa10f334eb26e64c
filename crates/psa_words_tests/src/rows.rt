use crate::lines::put;
use crate::numbers::put_answer;
use crate::ports::{put_gathered, put_taken};
use crate::words::put_read;
use std::alloc::Global;

/// What the rows of a table are about.
#[derive(Clone, Copy)]
pub enum Subject {
    Numbers,
    Words,
    Folders,
    Sinks,
}

/// Appends what the call of a row gives.
fn put_found(alloc: Global, out: &mut String, subject: Subject, call: &str) {
    match subject {
        Subject::Numbers => put_answer(out, call),
        Subject::Words => put_read(alloc, out, call),
        Subject::Folders => put_gathered(alloc, out, call),
        Subject::Sinks => put_taken(alloc, out, call),
    }
}

/// Appends a row with what was found, where that is not what the row says.
pub fn put_if_wrong(wrong: &mut String, row: &str, told: &str, found: &str) {
    if found != told {
        put(wrong, row);
        put(wrong, ", but found: ");
        put(wrong, found);
        put(wrong, "\n");
    }
}

/// The rows `CALL => ANSWER` that do not hold, each with what was found.
pub fn wrong_rows(alloc: Global, subject: Subject, rows: &str) -> String {
    let mut wrong = String::new(alloc);
    for row in rows.lines() {
        let (call, told) = row.split_once(" => ").unwrap_or((row, "an answer"));
        let mut found = String::new(alloc);
        put_found(alloc, &mut found, subject, call);
        put_if_wrong(&mut wrong, row, told, found.as_str());
    }
    wrong
}
