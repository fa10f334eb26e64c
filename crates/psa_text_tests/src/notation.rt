//! The bytes that a piece of a row stands for.
use std::alloc::Global;

fn put_byte(out: &mut Vec<u8>, byte: u8) {
    let _left_out = out.push(byte);
}

/// A stroke stands for the end of a line.
fn put_piece(out: &mut Vec<u8>, piece: &str) {
    for byte in piece.as_bytes() {
        put_byte(out, if *byte == b'|' { b'\n' } else { *byte });
    }
}

/// `65 PIECE` is the piece 65 times, `EF` a byte by its hexadecimal digits.
fn put_bracket(out: &mut Vec<u8>, inside: &str) {
    match inside.split_once(' ') {
        Some((count, piece)) => {
            for _ in 0..count.parse::<u32>().unwrap_or(0) {
                put_piece(out, piece);
            }
        }
        None => put_byte(out, u8::from_str_radix(inside, 16).unwrap_or(b'?')),
    }
}

/// What follows a bracket: `INSIDE]REST`. What has no closing bracket is a rest alone.
fn put_part(out: &mut Vec<u8>, part: &str) {
    match part.split_once(']') {
        Some((inside, rest)) => {
            put_bracket(out, inside);
            put_piece(out, rest);
        }
        None => put_piece(out, part),
    }
}

/// The bytes of a piece of a row, in which `|` stands for the end of a line, `[65 n]` for a piece 65
/// times and `[EF]` for a byte.
pub fn bytes_of(alloc: Global, piece: &str) -> Vec<u8> {
    let mut out = Vec::new(alloc);
    for part in piece.split('[') {
        put_part(&mut out, part);
    }
    out
}
