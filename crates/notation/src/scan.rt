// Lines of a file, and the words, numbers and texts in a line.
ghost use Rattle.std.specs.Prelude.{◌≡◌, ◌+◌, ◌<◌, ◌≤◌, true, length, Result, IfSome, IfOk, MatchBool, MatchOption, OnOk, slice_index};
ghost use Rattle.std.specs.Result.{result_ok};
ghost use Rattle.notation.specs.Text.{is_control};
ghost use Rattle.std.specs.Fn.{FnReturnsAt, FnOnceReturnsAtMut};
ghost use Rattle.notation.specs.Scan.{LineEnd, EndsBy, Gave, ReadOn, Went, Passed, TextPassed, last};

use crate::complaint::{Complaint, Position, Wanted, What};
use crate::number::decimal;
use crate::quote::{Unquoted, unquote};
use std::alloc::Global;

// A file, and where its next line begins: a place, not the rest of the file, since contracts compare places in one file.
#[derive(Drop)]
pub struct Source<'a> {
    text: &'a [u8],
    at: usize,
    line: usize,
}

// A line and its number, how far it has been read, and where what was looked at last begins.
// These are places, not the rest of the line, since contracts compare places in one line.
// It has no heap for what it reads: `is_text` looks at lines too, and is given none.
#[derive(Clone, Copy)]
pub struct Cursor<'a> {
    bytes: &'a [u8],
    at: usize,
    start: usize,
    pub line: usize,
}

fn is_blank(b: u8) -> bool {
    matches!(b, b' ' | b'\t' | b'\r')
}

// A control character is no part of the notation, but for the line end, and the tab and the carriage return, which are blanks.
pub(crate) fn is_control(b: u8) -> bool
    ensures { result ≡ is_control b }
{
    matches!(b, 0..=8 | 11 | 12 | 14..=31 | 127)
}

fn is_word(b: u8) -> bool {
    b.is_ascii_alphanumeric() || matches!(b, b'_' | b'-')
}

// Where what begins at a place ends: at the first byte that stops it, or with the bytes.
fn end_of<F: Fn(&u8) -> bool>(bytes: &[u8], at: usize, stops: F) -> usize
    requires within { at ≤ length bytes.now }
    requires callable { F.IsAlwaysCallable stops }
    ensures { EndsBy (FnReturnsAt F.Fn stops) bytes.now at result }
{
    let rest = &bytes[at..];
    at + rest.iter().position(stops).unwrap_or(rest.len())
}

// Where the line that begins at a place ends.
fn line_end(text: &[u8], at: usize) -> usize
    requires { at ≤ length text.now }
    ensures { LineEnd text.now at result }
{
    end_of(text, at, |b| *b == b'\n')
}

impl<'a> Source<'a> {
    pub(crate) fn new(text: &'a [u8]) -> Source<'a>
        ensures { (result.text.now ≡ text.now) × (result.at ≡ 0) }
    {
        Source {
            text,
            at: 0,
            line: 0,
        }
    }

    // The next line.
    pub(crate) fn next_line(&mut self) -> Option<Cursor<'a>>
        ensures { MatchOption result (self.new ≡ self.old) (λ c. Gave self.old self.new) }
    {
        let text = self.text;
        let at = self.at;
        if at >= text.len() {
            return None;
        }
        let end = line_end(text, at);
        let bytes = &text[at..end];
        self.at = end + 1;
        self.line = self.line.saturating_add(1);
        let line = self.line;
        Some(Cursor {
            bytes,
            at: 0,
            start: 0,
            line,
        })
    }

    // The next line that has more than blanks and a comment.
    pub(crate) fn next(&mut self) -> Option<Cursor<'a>>
        ensures { MatchOption result (ReadOn self.old self.new) (λ c. Gave self.old self.new) }
    {
        while let Some(mut cursor) = self.next_line() {
            if cursor.peek().is_some() {
                return Some(cursor);
            }
        }
        None
    }
}

impl<'a> Cursor<'a> {
    // The next byte that is not blank; none at a comment and at the end of the line.
    pub(crate) fn peek(&mut self) -> Option<u8>
        ensures went { Went self.old self.new }
        ensures there { IfSome result (λ b. (self.new.at < length self.new.bytes.now) × (b ≡ slice_index self.new.bytes.now self.new.at)) }
    {
        let bytes = self.bytes;
        if self.at < bytes.len() {
            self.at = end_of(bytes, self.at, |b| !is_blank(*b));
        }
        let at = self.at;
        self.start = at;
        if at < bytes.len() && bytes[at] != b'#' {
            Some(bytes[at])
        } else {
            None
        }
    }

    // Passes over a byte, if it is next.
    pub(crate) fn take(&mut self, b: u8) -> bool
        ensures { MatchBool result (Passed self.old self.new × (last self.new ≡ b)) (Went self.old self.new) }
    {
        match self.peek() {
            Some(next) if next == b => {
                self.at += 1;
                true
            }
            _ => false,
        }
    }

    // The word or number that is next; empty if none is.
    pub(crate) fn token(&mut self) -> &'a [u8]
        ensures went { Went self.old self.new }
        ensures passed { 0 < length result.now → Passed self.old self.new }
    {
        let bytes = self.bytes;
        if self.peek().is_none() {
            return &[];
        }
        let from = self.at;
        let to = end_of(bytes, from, |b| !is_word(*b));
        self.at = to;
        &bytes[from..to]
    }

    // Refuses if more stands on the line.
    pub(crate) fn end(&mut self) -> Result<(), What>
        ensures { Went self.old self.new }
    {
        match self.peek() {
            None => Ok(()),
            Some(_) => Err(What::Wanted(Wanted::LineEnd)),
        }
    }

    // Passes over a byte, or says what is expected.
    pub(crate) fn expect(&mut self, b: u8, wanted: Wanted) -> Result<(), What>
        ensures { OnOk result (Passed self.old self.new × (last self.new ≡ b)) }
    {
        if self.take(b) {
            Ok(())
        } else {
            Err(What::Wanted(wanted))
        }
    }

    // The number that is next, if it is at most `most`.
    pub(crate) fn number(&mut self, most: u32) -> Result<u32, What>
        ensures { IfOk result (λ n. Passed self.old self.new × (n ≤ most)) }
    {
        let word = self.token();
        decimal(word, most)
    }

    // The number that is next, if it is at most `most`, which fits in 16 bits.
    pub(crate) fn number16(&mut self, most: u16) -> Result<u16, What>
        ensures { IfOk result (λ n. Passed self.old self.new × (n ≤ most)) }
    {
        Ok(self.number(most as u32)? as u16)
    }

    // The state that is next.
    pub(crate) fn state(&mut self) -> Result<u8, What>
        ensures { OnOk result (Passed self.old self.new) }
    {
        Ok(self.number(255)? as u8)
    }

    // The bytes that the text in quotes that is next spells.
    pub(crate) fn text(&mut self, heap: Global) -> Result<Vec<u8>, What>
        ensures { IfOk result (λ v. TextPassed self.old self.new v.items) }
    {
        self.expect(b'"', Wanted::Text)?;
        let line = self.bytes;
        let Unquoted { bytes, end } = unquote(heap, line, self.at)?;
        if end >= line.len() {
            return Err(What::TextUnclosed);
        }
        if line[end] != b'"' {
            self.start = end;
            return Err(What::BadEscape);
        }
        self.at = end + 1;
        Ok(bytes)
    }

    // Refuses a line that is not UTF-8 or has a control character.
    pub(crate) fn check_line(&mut self) -> Result<(), What> {
        if let Some(at) = self.bytes.iter().position(|b| is_control(*b)) {
            self.start = at;
            return Err(What::ControlCharacter);
        }
        std::str::from_utf8(self.bytes).map_err(|_| What::NotUtf8)?;
        Ok(())
    }

    // The column of what was looked at last, counted in characters from 1.
    fn column(&self) -> usize
        ensures { 0 < result }
    {
        let before = self.bytes.iter().take(self.start);
        let characters = before.filter(|b| **b & 0xc0 != 0x80).count();
        characters.saturating_add(1)
    }

    // A result, or the complaint at what was looked at last.
    pub(crate) fn complain<T>(&self, res: Result<T, What>) -> Result<T, Complaint>
        ensures { result_ok result ≡ result_ok res }
    {
        res.map_err(|what| Complaint {
            position: Some(Position {
                line: self.line,
                column: self.column(),
            }),
            what,
        })
    }

    // What a step reads on the line, or the complaint at what it looked at last.
    pub(crate) fn read<T, F: FnOnce(&mut Cursor<'a>) -> Result<T, What>>(
        &mut self,
        step: F,
    ) -> Result<T, Complaint>
        requires { F.IsAlwaysCallable step }
        ensures { (r : Result T What) × FnOnceReturnsAtMut F.FnOnce step self.old r self.new × (result_ok result ≡ result_ok r) }
    {
        let res = step(self);
        self.complain(res)
    }
}
