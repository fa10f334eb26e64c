ghost use Rattle.std.specs.Prelude.{◌≡◌, ◌≢◌, ◌++◌, ◌+◌, ◌<◌, ◌≤◌, [], List, ℕ, None, Ok, IfErr, length};
ghost use Rattle.std.specs.Result.{IsErrOf};
ghost use Rattle.psa_text.specs.declared.scanner.error.TextError.{TextError};
ghost use Rattle.psa_text.specs.declared.scanner.mark.Mark.{Mark};
ghost use Rattle.psa_text.specs.scanner.Bounds.{IsBounded};
ghost use Rattle.psa_text.specs.scanner.Machine as machine;
ghost use Rattle.psa_text.specs.scanner.Nesting.{in_label, nesting_after_item, state_of};
ghost use Rattle.psa_text.specs.scanner.View.{lex_of};
ghost use Rattle.psa_text.specs.TextFaults as faults;

pub mod bytes;
pub mod error;
pub mod item;
pub mod lexer;
pub mod mark;
pub mod name;
pub mod place;
pub mod spans;

use crate::Document;
use crate::builder::{Builder, StepError};
use crate::limits::{MAX_ELEMENTS, MAX_FILE_BYTES};
use crate::scanner::error::{TextError, TextFault, TextKind};
use crate::scanner::item::Item;
use crate::scanner::lexer::{Lexer, TokenError};
use crate::scanner::mark::Mark;
use crate::scanner::spans::{behind_blanks, from_first, line_ends};
use std::alloc::Global;

/// Reads a text in pieces to its tree, or to its first fault. It keeps no earlier byte: beside the
/// tree it holds the parts of the tag under way that are whole, and in arrays of fixed size the
/// name and the value under way.
#[derive(Drop)]
pub struct Scanner {
    lexer: Lexer,
    builder: Builder,
    mark: Mark,
    /// How many bytes it has read.
    count: u32,
    /// The line of the next byte.
    line: u32,
    /// The line of the first byte of the item under way or next.
    start: u32,
    /// How many elements have begun.
    elements: u32,
    failed: Option<TextError>,
    alloc: Global,
    ghost bounded: { IsBounded count line elements },
}

impl Scanner {
    ghost use Rattle.psa_text.specs.scanner.Spans.{CountsAll, IsBehind, ReadsSpan, is_quiet};
    ghost use Rattle.psa_text.specs.scanner.State.{Answers, Ends, HasFailed, HasRead, Passes, Steps, scan_after_item_byte, scan_with_mark, scan_after_item, scan_of, scan_after};

    /// A scanner that has read nothing.
    pub fn new(alloc: Global) -> Scanner
        ensures { HasRead result [] }
    {
        Scanner {
            lexer: Lexer::new(alloc),
            builder: Builder::new(alloc),
            mark: Mark::Unread,
            count: 0,
            line: 1,
            start: 1,
            elements: 0,
            failed: None,
            alloc,
        }
    }

    /// Reads a further piece of the text, cut anywhere. Answers the text's fault in the call that
    /// has the byte that decides it, and then the same error for ever.
    pub fn feed(&mut self, piece: &[u8]) -> Result<(), TextError>
        ensures read { (h : List ℕ) → HasRead self.old h
            → Answers (h ++ piece.now) self.new result }
        ensures again { (error : TextError) → HasFailed self.old error → IsErrOf result error }
        ensures failed { IfErr result (λ error. HasFailed self.new error) }
    {
        if let Some(error) = self.failed {
            return Err(error);
        }
        let mut rest = piece;
        while let [byte, behind @ ..] = self.read_span(rest) {
            if let Err(error) = self.step(*byte) {
                self.failed = Some(error);
                return Err(error);
            }
            rest = behind;
        }
        Ok(())
    }

    /// The tree of the whole text, or the fault at its end, or the error that was answered before.
    pub fn finish(self) -> Result<Document, TextError>
        ensures read { (h : List ℕ) → HasRead self h → Ends h result }
        ensures again { (error : TextError) → HasFailed self error → IsErrOf result error }
    {
        if let Some(error) = self.failed {
            return Err(error);
        }
        if !self.lexer.is_between() {
            return Err(fault(TextKind::BadMarkup, self.start));
        }
        match self.builder.finish() {
            Some(root) => Ok(Document { root }),
            None => Err(fault(TextKind::BadNesting, self.line)),
        }
    }

    /// Reads in one go the bytes at the front that stay within the item under way, or are texts
    /// that change nothing but the counts. Gives the bytes behind them.
    fn read_span<'a>(&mut self, bytes: &'a [u8]) -> &'a [u8]
        requires failed { self.old.failed ≡ None }
        ensures read { ReadsSpan (scan_of self.old) bytes.now (scan_of self.new) result.now }
        ensures failed { self.new.failed ≡ None }
    {
        if !matches!(self.mark, Mark::Passed) {
            return bytes;
        }
        let room = (MAX_FILE_BYTES - self.count) as usize;
        let (near, _) = bytes.split_at(bytes.len().min(room));
        let rest = if self.lexer.is_between() {
            self.read_between(near)
        } else {
            self.read_within(near)
        };
        bytes.split_at(near.len() - rest.len()).1
    }

    /// Reads in one go the texts at the front that change nothing but the counts, and of the tag
    /// behind them what comes before its `>`, as far as it is plain.
    fn read_between<'a>(&mut self, bytes: &'a [u8]) -> &'a [u8]
        requires failed { self.old.failed ≡ None }
        requires mark { self.old.mark ≡ Mark.Passed }
        requires between { lex_of self.old.lexer ≡ machine.Between }
        requires room { self.old.count + length bytes.now ≤ MAX_FILE_BYTES }
        ensures read { ReadsSpan (scan_of self.old) bytes.now (scan_of self.new) result.now }
        ensures failed { self.new.failed ≡ None }
    {
        let rest = self.read_texts(bytes);
        if self.elements == MAX_ELEMENTS {
            return rest;
        }
        self.read_tag(rest)
    }

    /// Reads in one go of the tag at the front what comes before its `>`, as far as it is plain.
    fn read_tag<'a>(&mut self, bytes: &'a [u8]) -> &'a [u8]
        requires failed { self.old.failed ≡ None }
        requires mark { self.old.mark ≡ Mark.Passed }
        requires between { lex_of self.old.lexer ≡ machine.Between }
        requires few { self.old.elements ≢ MAX_ELEMENTS }
        requires room { self.old.count + length bytes.now ≤ MAX_FILE_BYTES }
        ensures read { ReadsSpan (scan_of self.old) bytes.now (scan_of self.new) result.now }
        ensures failed { self.new.failed ≡ None }
    {
        let rest = self.lexer.read_tag(bytes);
        let (span, _) = bytes.split_at(bytes.len() - rest.len());
        self.count_bytes(span);
        rest
    }

    /// Reads in one go the texts at the front that change nothing but the counts.
    fn read_texts<'a>(&mut self, bytes: &'a [u8]) -> &'a [u8]
        requires failed { self.old.failed ≡ None }
        requires mark { self.old.mark ≡ Mark.Passed }
        requires between { lex_of self.old.lexer ≡ machine.Between }
        requires room { self.old.count + length bytes.now ≤ MAX_FILE_BYTES }
        ensures read { ReadsSpan (scan_of self.old) bytes.now (scan_of self.new) result.now }
        ensures failed { self.new.failed ≡ None }
        ensures mark { self.new.mark ≡ Mark.Passed }
        ensures between { lex_of self.new.lexer ≡ machine.Between }
        ensures room { self.new.count + length result.now ≤ MAX_FILE_BYTES }
    {
        let rest = self.behind_texts(bytes);
        let (span, _) = bytes.split_at(bytes.len() - rest.len());
        if !span.is_empty() {
            self.count_bytes(span);
            self.start = self.line;
        }
        rest
    }

    /// The bytes behind the texts at the front that change nothing but the counts.
    fn behind_texts<'a>(&self, bytes: &'a [u8]) -> &'a [u8]
        ensures { IsBehind (is_quiet (in_label (state_of self.now.builder).open_elements))
            bytes.now result.now }
    {
        if self.builder.is_in_label() {
            from_first(b'<', bytes)
        } else {
            behind_blanks(bytes)
        }
    }

    /// Reads in one go the bytes at the front that stay within the item under way.
    fn read_within<'a>(&mut self, bytes: &'a [u8]) -> &'a [u8]
        requires failed { self.old.failed ≡ None }
        requires mark { self.old.mark ≡ Mark.Passed }
        requires room { self.old.count + length bytes.now ≤ MAX_FILE_BYTES }
        ensures read { ReadsSpan (scan_of self.old) bytes.now (scan_of self.new) result.now }
        ensures failed { self.new.failed ≡ None }
    {
        let rest = self.lexer.read_span(bytes);
        let (span, _) = bytes.split_at(bytes.len() - rest.len());
        self.count_bytes(span);
        rest
    }

    /// Counts bytes and their lines.
    fn count_bytes(&mut self, bytes: &[u8])
        requires { self.old.count + length bytes.now ≤ MAX_FILE_BYTES }
        ensures { CountsAll bytes.now self.old self.new }
    {
        self.count += bytes.len() as u32;
        self.line += line_ends(bytes);
    }

    /// Reads one byte.
    fn step(&mut self, byte: u8) -> Result<(), TextError>
        requires { self.old.failed ≡ None }
        ensures { Steps (scan_after (scan_of self.old) byte) self.new result }
    {
        if self.count == MAX_FILE_BYTES {
            return Err(fault(TextKind::LongFile, self.line));
        }
        match (self.mark, byte) {
            (Mark::Unread, 0xEF) => self.pass_mark(Mark::FirstByte),
            (Mark::FirstByte, 0xBB) => self.pass_mark(Mark::SecondByte),
            (Mark::SecondByte, 0xBF) => self.pass_mark(Mark::Passed),
            (Mark::FirstByte | Mark::SecondByte, _) => Err(fault(TextKind::BadNesting, 1)),
            (Mark::Unread | Mark::Passed, _) => self.step_item(byte),
        }
    }

    /// One more byte of the byte order mark.
    fn pass_mark(&mut self, mark: Mark) -> Result<(), TextError>
        requires failed { self.old.failed ≡ None }
        requires room { self.old.count < MAX_FILE_BYTES }
        ensures { Steps (Ok (scan_with_mark (scan_of self.old) mark)) self.new result }
    {
        self.mark = mark;
        self.count += 1;
        Ok(())
    }

    /// Reads one byte behind any byte order mark.
    fn step_item(&mut self, byte: u8) -> Result<(), TextError>
        requires failed { self.old.failed ≡ None }
        requires room { self.old.count < MAX_FILE_BYTES }
        ensures { Steps (scan_after_item_byte (scan_of self.old) byte) self.new result }
    {
        if self.elements == MAX_ELEMENTS && self.lexer.begins_tag(byte) {
            return Err(fault(TextKind::LongFile, self.line));
        }
        match self.lexer.advance(byte) {
            Ok(None) => {
                self.pass(byte);
                Ok(())
            }
            Ok(Some(item)) => self.end_item(item, byte),
            Err(TokenError::Bad) => Err(fault(TextKind::BadMarkup, self.start)),
            Err(TokenError::Long) => Err(fault(TextKind::LongToken, self.start)),
            Err(TokenError::Memory) => Err(TextError::Memory),
        }
    }

    /// The item is whole: it goes into the tree, and the next begins behind its last byte.
    fn end_item(&mut self, item: Item, byte: u8) -> Result<(), TextError>
        requires failed { self.old.failed ≡ None }
        requires room { self.old.count < MAX_FILE_BYTES }
        requires between { lex_of self.old.lexer ≡ machine.Between }
        ensures { Steps
            (scan_after_item (scan_of self.old) byte item
            (nesting_after_item item self.old.start (state_of self.old.builder)))
            self.new result }
    {
        let begun = u32::from(item.begins_element());
        match self.builder.step(self.alloc, item, self.start) {
            Ok(()) => {
                self.pass(byte);
                self.elements += begun;
                self.start = self.line;
                Ok(())
            }
            Err(StepError::Refused) => Err(fault(TextKind::BadNesting, self.start)),
            Err(StepError::Memory) => Err(TextError::Memory),
        }
    }

    /// Counts a byte behind any byte order mark.
    fn pass(&mut self, byte: u8)
        requires { self.old.count < MAX_FILE_BYTES }
        ensures { Passes byte self.old self.new }
    {
        self.mark = Mark::Passed;
        self.count += 1;
        if byte == b'\n' {
            self.line += 1;
        }
    }
}

/// A fault of a text.
fn fault(kind: TextKind, line: u32) -> TextError
    ensures { result ≡ TextError.Fault (faults.fault kind line) }
{
    TextError::Fault(TextFault { kind, line })
}
