use std::fmt::Display;

/// Appends a piece. One for which no memory is found is left out, and what is found then differs from what
/// is wanted.
pub fn put(out: &mut String, piece: &str) {
    let _left_out = out.push_str(piece);
}

/// Appends a number, as `put` does a piece.
pub fn put_number<N: Display>(out: &mut String, number: &N) {
    let _left_out = write!(out, "{number}");
}

/// Appends bytes that are text, as `put` does a piece.
pub fn put_bytes(out: &mut String, bytes: &[u8]) {
    match str::from_utf8(bytes) {
        Ok(text) => put(out, text),
        Err(_) => put(out, "no text"),
    }
}
