use std::fmt::Display;

/// Appends a piece. One for which no memory is found is left out, and the lines then differ from those
/// that a test wants.
pub fn put(out: &mut String, piece: &str) {
    let _left_out = out.push_str(piece);
}

/// Appends a number, as `put` does a piece.
pub fn put_number<N: Display>(out: &mut String, number: &N) {
    let _left_out = write!(out, "{number}");
}
