ghost use Rattle.std.specs.Prelude.{◌≡◌, ◌+◌, ◌<◌, ◌≤◌, [], ◌∷◌, ◌++◌, true, length, IfOk, OnErr, OnOk};
ghost use Rattle.psa_text.specs.declared.scanner.lexer.TokenError.TheVariants.{Memory};
ghost use Rattle.psa_text.specs.declared.scanner.place.Place.{Place};
ghost use Rattle.psa_text.specs.declared.scanner.place.Place.TheVariants as place;
ghost use Rattle.psa_text.specs.declared.scanner.place.Reference.TheVariants as refer;
ghost use Rattle.psa_text.specs.scanner.Machine as machine;
ghost use Rattle.psa_text.specs.scanner.Spans.{ReadsWithin, Takes};
ghost use Rattle.psa_text.specs.scanner.View.{EndsNumber, EndsReference, EndsValue, Goes, HasReferenceRoom, IsInName, PushesName, Refers, judgement, judgement_of, lex_of};

mod tags;

use crate::limits::{MAX_ATTRIBUTES, MAX_NAME_BYTES, MAX_REFERENCE_DIGITS, MAX_VALUE_BYTES};
use crate::scanner::bytes::{
    decimal_digit, hexadecimal_digit, is_blank, is_name_byte, is_name_start, is_text, text_of,
    trimmed, with_digit,
};
use crate::scanner::item::Item;
use crate::scanner::name::Name;
use crate::scanner::place::{Entity, Place, Reference};
use crate::scanner::spans::{from_first, is_turned};
use crate::tag::Tag;
use crate::{Attribute, Items, OutOfMemory, Text};
use arrayvec::ArrayVec;
use std::alloc::Global;
use std::marker::Model;
use std::mem;
use thiserror::Error;

/// The letters of a doctype behind `<!D`.
const DOCTYPE_LETTERS: &[u8] = b"OCTYPE";

/// Why a byte is refused.
#[derive(Debug, Clone, Copy, PartialEq, Eq, Drop, Error)]
pub enum TokenError {
    /// No item has it there, or it ends what is no text or no character.
    #[error("no item has the byte there")]
    Bad,
    /// It is one too many, of a name, a value or a tag's attributes.
    #[error("the byte is one too many")]
    Long,
    #[error("out of memory")]
    Memory,
}

impl From<OutOfMemory> for TokenError {
    ghost from_gives = { λ _ e. e ≡ Memory };

    fn from(_error: OutOfMemory) -> TokenError {
        TokenError::Memory
    }
}

/// Finds the items of a text, byte by byte. Of the item under way it holds the name and the value
/// under way in arrays of fixed size, and beside them the parts of its tag that are whole: its
/// name, its attributes, and the name of the next one. It keeps no earlier byte.
#[derive(Drop)]
pub struct Lexer {
    place: Place,
    /// The name under way, of a tag or an attribute.
    name: ArrayVec<u8, MAX_NAME_BYTES>,
    /// The tag under way: its name, once that is whole, and its whole attributes.
    tag: Tag,
    /// The name of the attribute under way, once that is whole.
    named: Text,
    quote: u8,
    /// How many bytes of the value there are.
    count: u16,
    /// What they stand for.
    value: ArrayVec<u8, MAX_VALUE_BYTES>,
    /// The number that the digits of the reference under way spell.
    number: u32,
    alloc: Global,
}

impl Model for Lexer {
    ghost use Rattle.psa_text.specs.scanner.View.{Held, HasRoom};

    ghost Value = { Held };

    ghost view = { λ l. record {
      place = l.place;
      name = l.name.items;
      tag = l.tag;
      named = l.named;
      quote = l.quote;
      count = l.count;
      value = l.value.items;
      number = l.number;
    } };

    ghost invariant = { λ l. HasRoom (record {
      place = l.place;
      name = l.name.items;
      tag = l.tag;
      named = l.named;
      quote = l.quote;
      count = l.count;
      value = l.value.items;
      number = l.number;
    }) };
}

impl Lexer {
    /// Before the first byte.
    pub fn new(alloc: Global) -> Lexer
        ensures { lex_of result ≡ machine.Between }
    {
        Lexer {
            place: Place::Between,
            name: ArrayVec::new(),
            tag: empty_tag(alloc),
            named: Text::new(alloc),
            quote: 0,
            count: 0,
            value: ArrayVec::new(),
            number: 0,
            alloc,
        }
    }

    /// Whether it stands between items.
    pub fn is_between(&self) -> bool
        ensures { result ≡ machine.is_between (lex_of self.now) }
    {
        matches!(self.place, Place::Between)
    }

    /// Whether the byte begins the name of a start or empty tag.
    pub fn begins_tag(&self, byte: u8) -> bool
        ensures { result ≡ machine.begins_tag (lex_of self.now) byte }
    {
        matches!(self.place, Place::Opened) && is_name_start(byte)
    }

    /// Takes the next byte. Gives the item whose last byte it is.
    pub fn advance(&mut self, byte: u8) -> Result<Option<Item>, TokenError>
        ensures { Goes (judgement (lex_of self.old) byte) self.new result }
    {
        match self.place {
            Place::Between => self.between(byte),
            Place::Opened => self.opened(byte),
            Place::Instruction => self.in_instruction(byte),
            Place::Question => self.at_question(byte),
            Place::Bang => self.at_bang(byte),
            Place::BangDash => self.at_bang_dash(byte),
            Place::Comment => self.in_comment(byte),
            Place::Dash => self.at_dash(byte),
            Place::DashDash => self.at_dash_dash(byte),
            Place::Word(read) => self.in_word(read, byte),
            Place::Doctype => self.in_doctype(byte),
            Place::Name => self.in_name(byte),
            Place::Gap => self.in_gap(byte),
            Place::Slash => self.at_slash(byte),
            Place::AttributeName => self.in_attribute_name(byte),
            Place::AttributeGap => self.name_on(byte),
            Place::Equals => self.at_equals(byte),
            Place::Value => self.in_value(byte),
            Place::Refer(reference) => self.in_reference(reference, byte),
            Place::Behind => self.tag_on(byte),
            Place::EndOpened => self.at_end_opened(byte),
            Place::EndName => self.in_end_name(byte),
            Place::EndGap => self.end_on(byte),
        }
    }

    /// Reads in one go the bytes at the front that go on with the name, the value, the comment or
    /// the instruction under way. Gives the bytes behind them.
    pub fn read_span<'a>(&mut self, bytes: &'a [u8]) -> &'a [u8]
        ensures { ReadsWithin true (lex_of self.old) bytes.now (lex_of self.new) result.now }
    {
        match self.place {
            Place::Name | Place::AttributeName | Place::EndName => self.read_name(bytes),
            Place::Value => self.read_value(bytes),
            Place::Comment => from_first(b'-', bytes),
            Place::Instruction => from_first(b'?', bytes),
            _ => bytes,
        }
    }

    /// The further bytes of a name, as long as they fit.
    fn read_name<'a>(&mut self, mut bytes: &'a [u8]) -> &'a [u8]
        requires { IsInName self.old.place }
        ensures { ReadsWithin true (lex_of self.old) bytes.entry.now (lex_of self.new) result.now }
    {
        while let [byte, rest @ ..] = bytes {
            if !self.takes_into_name(*byte) {
                break;
            }
            bytes = rest;
        }
        bytes
    }

    /// One more byte of the name under way, where the byte goes on with it and fits. Tells whether
    /// it does.
    fn takes_into_name(&mut self, byte: u8) -> bool
        requires { IsInName self.old.place }
        ensures { Takes byte self.old self.new result }
    {
        if !is_name_byte(byte) || self.name.is_full() {
            return false;
        }
        self.name.push(byte);
        true
    }

    /// The further bytes of a value that stand for themselves, as long as they fit.
    fn read_value<'a>(&mut self, mut bytes: &'a [u8]) -> &'a [u8]
        requires { self.old.place ≡ place.Value }
        ensures { ReadsWithin true (lex_of self.old) bytes.entry.now (lex_of self.new) result.now }
    {
        while let [byte, rest @ ..] = bytes {
            if !self.takes_into_value(*byte) {
                break;
            }
            bytes = rest;
        }
        bytes
    }

    /// One more byte of the value under way, where the byte stands for itself and fits. Tells
    /// whether it does.
    fn takes_into_value(&mut self, byte: u8) -> bool
        requires { self.old.place ≡ place.Value }
        ensures { Takes byte self.old self.new result }
    {
        if byte == self.quote || is_turned(byte) || usize::from(self.count) >= MAX_VALUE_BYTES {
            return false;
        }
        self.count += 1;
        self.value.push(byte);
        true
    }

    fn between(&mut self, byte: u8) -> Result<Option<Item>, TokenError>
        requires { self.old.place ≡ place.Between }
        ensures { Goes (judgement (lex_of self.old) byte) self.new result }
    {
        if byte == b'<' {
            self.place = Place::Opened;
            Ok(None)
        } else {
            Ok(Some(Item::Text(byte)))
        }
    }

    fn opened(&mut self, byte: u8) -> Result<Option<Item>, TokenError>
        requires { self.old.place ≡ place.Opened }
        ensures { Goes (judgement (lex_of self.old) byte) self.new result }
    {
        if is_name_start(byte) {
            self.name.clear();
            self.name.push(byte);
            self.place = Place::Name;
            return Ok(None);
        }
        self.place = match byte {
            b'/' => Place::EndOpened,
            b'!' => Place::Bang,
            b'?' => Place::Instruction,
            _ => return Err(TokenError::Bad),
        };
        Ok(None)
    }

    fn in_instruction(&mut self, byte: u8) -> Result<Option<Item>, TokenError>
        requires { self.old.place ≡ place.Instruction }
        ensures { Goes (judgement (lex_of self.old) byte) self.new result }
    {
        if byte == b'?' {
            self.place = Place::Question;
        }
        Ok(None)
    }

    fn at_question(&mut self, byte: u8) -> Result<Option<Item>, TokenError>
        requires { self.old.place ≡ place.Question }
        ensures { Goes (judgement (lex_of self.old) byte) self.new result }
    {
        match byte {
            b'>' => return Ok(Some(self.end(Item::Instruction))),
            b'?' => {}
            _ => self.place = Place::Instruction,
        }
        Ok(None)
    }

    fn at_bang(&mut self, byte: u8) -> Result<Option<Item>, TokenError>
        requires { self.old.place ≡ place.Bang }
        ensures { Goes (judgement (lex_of self.old) byte) self.new result }
    {
        self.place = match byte {
            b'-' => Place::BangDash,
            b'D' => Place::Word(0),
            _ => return Err(TokenError::Bad),
        };
        Ok(None)
    }

    fn at_bang_dash(&mut self, byte: u8) -> Result<Option<Item>, TokenError>
        requires { self.old.place ≡ place.BangDash }
        ensures { Goes (judgement (lex_of self.old) byte) self.new result }
    {
        if byte != b'-' {
            return Err(TokenError::Bad);
        }
        self.place = Place::Comment;
        Ok(None)
    }

    fn in_comment(&mut self, byte: u8) -> Result<Option<Item>, TokenError>
        requires { self.old.place ≡ place.Comment }
        ensures { Goes (judgement (lex_of self.old) byte) self.new result }
    {
        if byte == b'-' {
            self.place = Place::Dash;
        }
        Ok(None)
    }

    fn at_dash(&mut self, byte: u8) -> Result<Option<Item>, TokenError>
        requires { self.old.place ≡ place.Dash }
        ensures { Goes (judgement (lex_of self.old) byte) self.new result }
    {
        self.place = if byte == b'-' {
            Place::DashDash
        } else {
            Place::Comment
        };
        Ok(None)
    }

    fn at_dash_dash(&mut self, byte: u8) -> Result<Option<Item>, TokenError>
        requires { self.old.place ≡ place.DashDash }
        ensures { Goes (judgement (lex_of self.old) byte) self.new result }
    {
        match byte {
            b'>' => return Ok(Some(self.end(Item::Comment))),
            b'-' => {}
            _ => self.place = Place::Comment,
        }
        Ok(None)
    }

    fn in_word(&mut self, read: u8, byte: u8) -> Result<Option<Item>, TokenError>
        requires { self.old.place ≡ place.Word read }
        ensures { Goes (judgement (lex_of self.old) byte) self.new result }
    {
        match DOCTYPE_LETTERS.get(usize::from(read)) {
            Some(letter) if byte == *letter => self.place = Place::Word(read + 1),
            None if is_blank(byte) => self.place = Place::Doctype,
            _ => return Err(TokenError::Bad),
        }
        Ok(None)
    }

    fn in_doctype(&mut self, byte: u8) -> Result<Option<Item>, TokenError>
        requires { self.old.place ≡ place.Doctype }
        ensures { Goes (judgement (lex_of self.old) byte) self.new result }
    {
        match byte {
            b'>' => Ok(Some(self.end(Item::Doctype))),
            b'[' | b'<' => Err(TokenError::Bad),
            _ => Ok(None),
        }
    }

    fn in_name(&mut self, byte: u8) -> Result<Option<Item>, TokenError>
        requires { self.old.place ≡ place.Name }
        ensures { Goes (judgement (lex_of self.old) byte) self.new result }
    {
        if is_name_byte(byte) {
            return self.push_name(byte);
        }
        self.tag = Tag {
            name: text_of(self.alloc, &self.name)?,
            attributes: Items::new(self.alloc),
        };
        self.tag_on(byte)
    }

    /// One more byte of the name under way.
    fn push_name(&mut self, byte: u8) -> Result<Option<Item>, TokenError>
        ensures { PushesName byte self.old self.new result }
    {
        if self.name.is_full() {
            return Err(TokenError::Long);
        }
        self.name.push(byte);
        Ok(None)
    }

    /// Behind a tag's name, an attribute or a blank.
    fn tag_on(&mut self, byte: u8) -> Result<Option<Item>, TokenError>
        ensures { Goes (judgement_of (machine.next_in_tag self.old.tag byte)) self.new result }
    {
        match byte {
            b'>' => {
                let tag = mem::replace(&mut self.tag, empty_tag(self.alloc));
                Ok(Some(self.end(Item::Start(tag))))
            }
            b'/' => {
                self.place = Place::Slash;
                Ok(None)
            }
            _ if is_blank(byte) => {
                self.place = Place::Gap;
                Ok(None)
            }
            _ => Err(TokenError::Bad),
        }
    }

    fn in_gap(&mut self, byte: u8) -> Result<Option<Item>, TokenError>
        requires { self.old.place ≡ place.Gap }
        ensures { Goes (judgement (lex_of self.old) byte) self.new result }
    {
        if !is_name_start(byte) {
            return self.tag_on(byte);
        }
        if self.tag.attributes.len() >= MAX_ATTRIBUTES {
            return Err(TokenError::Long);
        }
        self.name.clear();
        self.name.push(byte);
        self.place = Place::AttributeName;
        Ok(None)
    }

    fn at_slash(&mut self, byte: u8) -> Result<Option<Item>, TokenError>
        requires { self.old.place ≡ place.Slash }
        ensures { Goes (judgement (lex_of self.old) byte) self.new result }
    {
        if byte != b'>' {
            return Err(TokenError::Bad);
        }
        let tag = mem::replace(&mut self.tag, empty_tag(self.alloc));
        Ok(Some(self.end(Item::Empty(tag))))
    }

    fn in_attribute_name(&mut self, byte: u8) -> Result<Option<Item>, TokenError>
        requires place { self.old.place ≡ place.AttributeName }
        requires room { length self.old.tag.attributes < 32 }
        ensures { Goes (judgement (lex_of self.old) byte) self.new result }
    {
        if is_name_byte(byte) {
            return self.push_name(byte);
        }
        self.named = text_of(self.alloc, &self.name)?;
        self.name_on(byte)
    }

    /// Behind the name of an attribute.
    fn name_on(&mut self, byte: u8) -> Result<Option<Item>, TokenError>
        ensures { Goes (judgement_of (machine.next_behind_name self.old.tag self.old.named byte))
            self.new result }
    {
        if is_blank(byte) {
            self.place = Place::AttributeGap;
        } else if byte == b'=' {
            self.place = Place::Equals;
        } else {
            return Err(TokenError::Bad);
        }
        Ok(None)
    }

    fn at_equals(&mut self, byte: u8) -> Result<Option<Item>, TokenError>
        requires { self.old.place ≡ place.Equals }
        ensures { Goes (judgement (lex_of self.old) byte) self.new result }
    {
        if is_blank(byte) {
            return Ok(None);
        }
        if byte != b'"' && byte != b'\'' {
            return Err(TokenError::Bad);
        }
        self.quote = byte;
        self.count = 0;
        self.value.clear();
        self.place = Place::Value;
        Ok(None)
    }

    fn in_value(&mut self, byte: u8) -> Result<Option<Item>, TokenError>
        requires { self.old.place ≡ place.Value }
        ensures { Goes (judgement (lex_of self.old) byte) self.new result }
    {
        if byte == self.quote {
            return self.end_value();
        }
        match byte {
            b'<' => Err(TokenError::Bad),
            _ if usize::from(self.count) >= MAX_VALUE_BYTES => Err(TokenError::Long),
            b'&' => {
                self.count += 1;
                self.place = Place::Refer(Reference::Ampersand);
                Ok(None)
            }
            _ => {
                self.count += 1;
                self.value.push(if is_blank(byte) { b' ' } else { byte });
                Ok(None)
            }
        }
    }

    /// The closing quote: the attribute is whole.
    fn end_value(&mut self) -> Result<Option<Item>, TokenError>
        ensures { EndsValue self.old self.new result }
    {
        let value = text_of(self.alloc, trimmed(&self.value))?;
        let name = mem::replace(&mut self.named, Text::new(self.alloc));
        self.end_attribute(Attribute { name, value })?;
        Ok(None)
    }

    /// The attribute under way is whole.
    fn end_attribute(&mut self, attribute: Attribute) -> Result<(), OutOfMemory>
        ensures ok { OnOk result (self.new ≡ record self.old {
          place = place.Behind;
          tag = record self.old.tag { attributes = self.old.tag.attributes ++ attribute ∷ [] };
        }) }
        ensures err { OnErr result (self.new ≡ self.old) }
    {
        if self.tag.attributes.is_empty() {
            self.tag.attributes = alone(self.alloc, attribute)?;
        } else {
            self.tag.attributes.push(attribute)?;
        }
        self.place = Place::Behind;
        Ok(())
    }

    fn in_reference(&mut self, reference: Reference, byte: u8) -> Result<Option<Item>, TokenError>
        requires place { self.old.place ≡ place.Refer reference }
        requires room { HasReferenceRoom reference self.old }
        ensures { Goes (judgement (lex_of self.old) byte) self.new result }
    {
        match reference {
            Reference::Ampersand => self.at_ampersand(byte),
            Reference::LetterA => self.at_letter_a(byte),
            Reference::Named(entity, read) => self.in_named(entity, read, byte),
            Reference::NumberSign => self.at_number_sign(byte),
            Reference::Decimal(digits) => self.in_decimal(digits, byte),
            Reference::Hexadecimal(digits) => self.in_hexadecimal(digits, byte),
        }
    }

    /// One more byte of the reference.
    fn refer(&mut self, reference: Reference) -> Result<Option<Item>, TokenError>
        requires { HasReferenceRoom reference (record self.old { count = self.old.count + 1 }) }
        ensures { Refers reference self.old.number self.old self.new result }
    {
        self.refer_to(reference, self.number)
    }

    /// One more byte of the reference, whose digits spell the number.
    fn refer_to(&mut self, reference: Reference, number: u32) -> Result<Option<Item>, TokenError>
        requires { HasReferenceRoom reference
            (record self.old { count = self.old.count + 1; number = number }) }
        ensures { Refers reference number self.old self.new result }
    {
        if usize::from(self.count) >= MAX_VALUE_BYTES {
            return Err(TokenError::Long);
        }
        self.count += 1;
        self.number = number;
        self.place = Place::Refer(reference);
        Ok(None)
    }

    fn at_ampersand(&mut self, byte: u8) -> Result<Option<Item>, TokenError>
        requires place { self.old.place ≡ place.Refer refer.Ampersand }
        requires room { HasReferenceRoom refer.Ampersand self.old }
        ensures { Goes (judgement (lex_of self.old) byte) self.new result }
    {
        match byte {
            b'#' => self.refer(Reference::NumberSign),
            b'l' => self.refer(Reference::Named(Entity::Less, 0)),
            b'g' => self.refer(Reference::Named(Entity::Greater, 0)),
            b'q' => self.refer(Reference::Named(Entity::Quotation, 0)),
            b'a' => self.refer(Reference::LetterA),
            _ => Err(TokenError::Bad),
        }
    }

    fn at_letter_a(&mut self, byte: u8) -> Result<Option<Item>, TokenError>
        requires place { self.old.place ≡ place.Refer refer.LetterA }
        requires room { HasReferenceRoom refer.LetterA self.old }
        ensures { Goes (judgement (lex_of self.old) byte) self.new result }
    {
        match byte {
            b'm' => self.refer(Reference::Named(Entity::Ampersand, 0)),
            b'p' => self.refer(Reference::Named(Entity::Apostrophe, 0)),
            _ => Err(TokenError::Bad),
        }
    }

    fn in_named(&mut self, entity: Entity, read: u8, byte: u8) -> Result<Option<Item>, TokenError>
        requires place { self.old.place ≡ place.Refer (refer.Named entity read) }
        requires room { HasReferenceRoom (refer.Named entity read) self.old }
        ensures { Goes (judgement (lex_of self.old) byte) self.new result }
    {
        match entity.letters().get(usize::from(read)) {
            Some(letter) if byte == *letter => self.refer(Reference::Named(entity, read + 1)),
            None if byte == b';' => self.end_reference(entity.character()),
            _ => Err(TokenError::Bad),
        }
    }

    fn at_number_sign(&mut self, byte: u8) -> Result<Option<Item>, TokenError>
        requires place { self.old.place ≡ place.Refer refer.NumberSign }
        requires room { HasReferenceRoom refer.NumberSign self.old }
        ensures { Goes (judgement (lex_of self.old) byte) self.new result }
    {
        if byte == b'x' {
            return self.refer_to(Reference::Hexadecimal(0), 0);
        }
        match decimal_digit(byte) {
            Some(digit) => self.refer_to(Reference::Decimal(1), digit),
            None => Err(TokenError::Bad),
        }
    }

    fn in_decimal(&mut self, digits: u8, byte: u8) -> Result<Option<Item>, TokenError>
        requires place { self.old.place ≡ place.Refer (refer.Decimal digits) }
        requires room { HasReferenceRoom (refer.Decimal digits) self.old }
        ensures { Goes (judgement (lex_of self.old) byte) self.new result }
    {
        match decimal_digit(byte) {
            Some(digit) if digits < MAX_REFERENCE_DIGITS => {
                let number = with_digit(10, self.number, digits, digit);
                self.refer_to(Reference::Decimal(digits + 1), number)
            }
            None if byte == b';' && digits > 0 => self.end_number(),
            _ => Err(TokenError::Bad),
        }
    }

    fn in_hexadecimal(&mut self, digits: u8, byte: u8) -> Result<Option<Item>, TokenError>
        requires place { self.old.place ≡ place.Refer (refer.Hexadecimal digits) }
        requires room { HasReferenceRoom (refer.Hexadecimal digits) self.old }
        ensures { Goes (judgement (lex_of self.old) byte) self.new result }
    {
        match hexadecimal_digit(byte) {
            Some(digit) if digits < MAX_REFERENCE_DIGITS => {
                let number = with_digit(16, self.number, digits, digit);
                self.refer_to(Reference::Hexadecimal(digits + 1), number)
            }
            None if byte == b';' && digits > 0 => self.end_number(),
            _ => Err(TokenError::Bad),
        }
    }

    /// The end of a reference to a character by its number.
    fn end_number(&mut self) -> Result<Option<Item>, TokenError>
        requires { length self.old.value + 3 ≤ self.old.count }
        ensures { EndsNumber self.old self.new result }
    {
        match char::from_u32(self.number) {
            Some(character) if character != '\0' => self.end_reference(character),
            _ => Err(TokenError::Bad),
        }
    }

    /// The `;` of a reference: the value has the character.
    fn end_reference(&mut self, character: char) -> Result<Option<Item>, TokenError>
        requires { length self.old.value + 3 ≤ self.old.count }
        ensures { EndsReference character self.old self.new result }
    {
        if usize::from(self.count) >= MAX_VALUE_BYTES {
            return Err(TokenError::Long);
        }
        let mut buffer = [0; 4];
        let text = character.encode_utf8(&mut buffer);
        if self.value.try_extend_from_slice(text.as_bytes()).is_err() {
            return Err(TokenError::Long);
        }
        self.count += 1;
        self.place = Place::Value;
        Ok(None)
    }

    fn at_end_opened(&mut self, byte: u8) -> Result<Option<Item>, TokenError>
        requires { self.old.place ≡ place.EndOpened }
        ensures { Goes (judgement (lex_of self.old) byte) self.new result }
    {
        if !is_name_start(byte) {
            return Err(TokenError::Bad);
        }
        self.name.clear();
        self.name.push(byte);
        self.place = Place::EndName;
        Ok(None)
    }

    fn in_end_name(&mut self, byte: u8) -> Result<Option<Item>, TokenError>
        requires { self.old.place ≡ place.EndName }
        ensures { Goes (judgement (lex_of self.old) byte) self.new result }
    {
        if is_name_byte(byte) {
            return self.push_name(byte);
        }
        if !is_text(&self.name) {
            return Err(TokenError::Bad);
        }
        self.end_on(byte)
    }

    /// Behind the name of an end tag.
    fn end_on(&mut self, byte: u8) -> Result<Option<Item>, TokenError>
        ensures { Goes (judgement_of (machine.next_behind_end self.old.name byte)) self.new result }
    {
        if is_blank(byte) {
            self.place = Place::EndGap;
            return Ok(None);
        }
        if byte != b'>' {
            return Err(TokenError::Bad);
        }
        let name = Name::new(mem::replace(&mut self.name, ArrayVec::new()));
        Ok(Some(self.end(Item::End(name))))
    }

    /// Ends the item under way.
    fn end(&mut self, item: Item) -> Item
        ensures gives { result ≡ item }
        ensures between { self.new.place ≡ place.Between }
    {
        self.place = Place::Between;
        item
    }
}

/// A list of one attribute, with room for no other: most elements have one.
fn alone(alloc: Global, attribute: Attribute) -> Result<Items<Attribute>, OutOfMemory>
    ensures { IfOk result (λ list. list ≡ attribute ∷ []) }
{
    let mut list = Vec::with_capacity(alloc, 1)?;
    list.push(attribute)?;
    Ok(Items::from_vec(list))
}

/// The tag of no name and no attribute.
fn empty_tag(alloc: Global) -> Tag
    ensures { result ≡ record { name = []; attributes = [] } }
{
    Tag {
        name: Text::new(alloc),
        attributes: Items::new(alloc),
    }
}
