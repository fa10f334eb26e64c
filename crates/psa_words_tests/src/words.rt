use crate::lines::{put, put_number};
use psa_model::{Algorithm, Input, Mode, Settings};
use psa_number::Decimal;
use psa_words::{WordsError, read_words};
use std::alloc::Global;
use std::mem::forget;

/// The words of a line, between `|`.
fn words_of(alloc: Global, line: &str) -> Vec<String> {
    let mut words = Vec::new(alloc);
    if line == "(no words)" {
        return words;
    }
    for word in line.split('|') {
        let mut text = String::new(alloc);
        put(&mut text, word);
        let _left_out = words.push(text);
    }
    words
}

/// A decimal as its digits and its exponent.
pub fn put_decimal(out: &mut String, value: Decimal) {
    put(out, if value.negative { "-" } else { "" });
    put_number(out, &value.digits);
    put(out, "e");
    put_number(out, &value.exponent);
}

/// The input, files between blanks.
fn put_input(out: &mut String, input: &Input) {
    match input {
        Input::Sample(size) => {
            put(out, "sample ");
            put_number(out, size);
        }
        Input::Files(names) => {
            for (place, name) in names.as_slice().iter().enumerate() {
                put(out, if place > 0 { " " } else { "" });
                put(out, name.as_str());
            }
        }
    }
}

/// The flags, each by its first letter.
fn put_flags(out: &mut String, settings: &Settings) {
    put(out, if settings.rare_event { "r" } else { "." });
    put(out, if settings.mcub { "m" } else { "." });
    put(out, if settings.ccf { "c" } else { "." });
    put(out, if settings.validate { "v" } else { "." });
}

/// The settings in a line.
fn put_settings(out: &mut String, settings: &Settings) {
    put(
        out,
        match settings.algorithm {
            Algorithm::Bdd => "bdd ",
            Algorithm::Zbdd => "zbdd ",
        },
    );
    put(
        out,
        match settings.mode {
            Mode::CutSets => "cut ",
            Mode::Primes => "prime ",
        },
    );
    put_number(out, &settings.limit_order);
    put(out, " ");
    match settings.cut_off {
        Some(value) => put_decimal(out, value),
        None => put(out, "-"),
    }
    put(out, " ");
    put_decimal(out, settings.mission);
    put(out, " ");
    put_flags(out, settings);
    put(out, " ");
    match settings.node_limit {
        Some(limit) => put_number(out, &limit),
        None => put(out, "-"),
    }
    put(out, " ");
    put_input(out, &settings.input);
}

/// The settings of a line's words, or `refused`.
pub fn put_read(alloc: Global, out: &mut String, line: &str) {
    match read_words(alloc, &words_of(alloc, line)) {
        Ok(settings) => {
            put_settings(out, &settings);
            forget(settings);
        }
        Err(WordsError::BadWords) => put(out, "refused"),
        Err(WordsError::Memory) => put(out, "no memory"),
    }
}
