//! Tags that stand whole in a piece of the text, read in one go. What is cut, too long, no text or holds a
//! reference is left to the lexer's step by step reading.
ghost use Rattle.std.specs.Prelude.{◌≡◌, ◌∷◌, false, option_map};
ghost use Rattle.psa_text.specs.NamedBytes.{slash};
ghost use Rattle.psa_text.specs.declared.scanner.place.Place.TheVariants as place;
ghost use Rattle.psa_text.specs.scanner.Spans.{BeginsTag, ReadsAttribute, ReadsWithin};
ghost use Rattle.psa_text.specs.scanner.Machine as machine;
ghost use Rattle.psa_text.specs.scanner.View.{lex_of};

use crate::limits::MAX_ATTRIBUTES;
use crate::scanner::bytes::{text_of, trimmed};
use crate::scanner::lexer::Lexer;
use crate::scanner::place::Place;
use crate::scanner::spans::{
    behind_blank, behind_blanks, behind_byte, name_at, quote_at, value_at,
};
use crate::tag::Tag;
use crate::{Attribute, Items};

impl Lexer {
    /// Reads in one go of the tag at the front what comes before its `>`, as far as it is plain.
    pub fn read_tag<'a>(&mut self, bytes: &'a [u8]) -> &'a [u8]
        requires { lex_of self.old ≡ machine.Between }
        ensures { ReadsWithin false (lex_of self.old) bytes.now (lex_of self.new) result.now }
    {
        let Some(rest) = behind_byte(b'<', bytes) else {
            return bytes;
        };
        self.place = Place::Opened;
        self.read_opened(rest)
    }

    /// Behind `<`.
    fn read_opened<'a>(&mut self, bytes: &'a [u8]) -> &'a [u8]
        requires { self.old.place ≡ place.Opened }
        ensures { ReadsWithin false (lex_of self.old) bytes.now (lex_of self.new) result.now }
    {
        match behind_byte(b'/', bytes) {
            Some(rest) => {
                self.place = Place::EndOpened;
                self.read_end_name(rest)
            }
            None => self.read_start(bytes),
        }
    }

    /// Behind `</`: the name.
    fn read_end_name<'a>(&mut self, bytes: &'a [u8]) -> &'a [u8]
        requires { self.old.place ≡ place.EndOpened }
        ensures { ReadsWithin false (lex_of self.old) bytes.now (lex_of self.new) result.now }
    {
        let Some((name, rest)) = name_at(bytes) else {
            return bytes;
        };
        self.name.clear();
        match self.name.try_extend_from_slice(name) {
            Ok(()) => {
                self.place = Place::EndName;
                rest
            }
            Err(_) => bytes,
        }
    }

    /// Behind the `<` of a start or empty tag: its name and what is behind that.
    fn read_start<'a>(&mut self, bytes: &'a [u8]) -> &'a [u8]
        requires { self.old.place ≡ place.Opened }
        ensures { ReadsWithin false (lex_of self.old) bytes.now (lex_of self.new) result.now }
    {
        let Some((name, rest)) = name_at(bytes) else {
            return bytes;
        };
        self.name.clear();
        match self.name.try_extend_from_slice(name) {
            Ok(()) => {
                self.place = Place::Name;
                self.read_behind_name(rest)
            }
            Err(_) => bytes,
        }
    }

    /// Behind the name of a start or empty tag: a slash, or a blank and attributes.
    fn read_behind_name<'a>(&mut self, bytes: &'a [u8]) -> &'a [u8]
        requires { self.old.place ≡ place.Name }
        ensures { ReadsWithin false (lex_of self.old) bytes.now (lex_of self.new) result.now }
    {
        if let Some(rest) = behind_byte(b'/', bytes) {
            return self.read_slash(bytes, rest);
        }
        match behind_blank(bytes) {
            Some(rest) if self.begin_tag() => {
                self.place = Place::Gap;
                self.read_attributes(rest)
            }
            _ => bytes,
        }
    }

    /// Behind the name of an empty tag: the slash, where the name is text.
    fn read_slash<'a>(&mut self, bytes: &'a [u8], rest: &'a [u8]) -> &'a [u8]
        requires place { self.old.place ≡ place.Name }
        requires slash { bytes.now ≡ slash ∷ rest.now }
        ensures { ReadsWithin false (lex_of self.old) bytes.now (lex_of self.new) result.now }
    {
        if !self.begin_tag() {
            return bytes;
        }
        self.place = Place::Slash;
        rest
    }

    /// The name of the tag is whole. Tells whether it is text, and memory was left for it.
    fn begin_tag(&mut self) -> bool
        requires { self.old.place ≡ place.Name }
        ensures { BeginsTag self.old self.new result }
    {
        match text_of(self.alloc, self.name.as_slice()) {
            Ok(name) => {
                self.tag = Tag {
                    name,
                    attributes: Items::new(self.alloc),
                };
                true
            }
            Err(_) => false,
        }
    }

    /// Behind a blank of a tag: attributes and what is between them.
    fn read_attributes<'a>(&mut self, mut bytes: &'a [u8]) -> &'a [u8]
        requires { self.old.place ≡ place.Gap }
        ensures { ReadsWithin false (lex_of self.old) bytes.entry.now (lex_of self.new) result.now }
    {
        for _ in 0..MAX_ATTRIBUTES {
            bytes = behind_blanks(bytes);
            let Some(rest) = self.read_attribute(bytes) else {
                return bytes;
            };
            if let Some(more) = behind_byte(b'/', rest) {
                self.place = Place::Slash;
                return more;
            }
            let Some(more) = behind_blank(rest) else {
                return rest;
            };
            self.place = Place::Gap;
            bytes = more;
        }
        bytes
    }

    /// An attribute whose value is plain. Nothing is read where another stands there, or memory runs
    /// out.
    fn read_attribute<'a>(&mut self, bytes: &'a [u8]) -> Option<&'a [u8]>
        requires { self.old.place ≡ place.Gap }
        ensures { ReadsAttribute self.old bytes.now self.new (option_map (λ rest. rest.now) result) }
    {
        if self.tag.attributes.len() >= MAX_ATTRIBUTES {
            return None;
        }
        let (name, behind) = name_at(bytes)?;
        let opened = behind_byte(b'=', behind)?;
        let (quote, inside) = quote_at(opened)?;
        let (value, rest) = value_at(quote, inside)?;
        let Ok(name) = text_of(self.alloc, name) else {
            return None;
        };
        let Ok(value) = text_of(self.alloc, trimmed(value)) else {
            return None;
        };
        match self.end_attribute(Attribute { name, value }) {
            Ok(()) => Some(rest),
            Err(_) => None,
        }
    }
}
