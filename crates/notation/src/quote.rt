// Texts in quotes, and hexadecimal digits.
ghost use Rattle.std.specs.Prelude.{ℕ, ◌+◌, ◌<◌, ◌≤◌, length, IfSome, IfOk, MatchOption, OnOk};
ghost use Rattle.notation.specs.Quote.{Hex, HexByte, Escape, Byte, Quoted};
ghost use Rattle.notation.specs.Quoting.{FirstOf, ReadAs};
ghost use Rattle.notation.specs.Writes.{Adds};

use std::alloc::{AllocError, Global};

// The value of a hexadecimal digit.
// By arms: `to_digit` is of a `char` and gives a `u32`, so it takes two conversions more.
pub fn hex_value(digit: u8) -> Option<u8>
    ensures { MatchOption result ((v : ℕ) → Hex digit v → ⊥) (λ v. Hex digit v) }
{
    match digit {
        b'0'..=b'9' => Some(digit - b'0'),
        b'a'..=b'f' => Some(digit - b'a' + 10),
        b'A'..=b'F' => Some(digit - b'A' + 10),
        _ => None,
    }
}

// The byte that two hexadecimal digits write.
pub(crate) fn hex_byte(high: u8, low: u8) -> Option<u8>
    ensures { MatchOption result ((b : ℕ) → HexByte high low b → ⊥) (λ b. HexByte high low b) }
{
    let high = hex_value(high)?;
    let low = hex_value(low)?;
    Some(16 * high + low)
}

// The hexadecimal digit of a value below 16.
// Not by `char::from_digit`: it is of a `u32` and gives a `char`, if any, so it takes two conversions and an `unwrap` more.
fn hex_digit(value: u8) -> u8
    requires { value < 16 }
    ensures { Hex result value }
{
    if value < 10 {
        b'0' + value
    } else {
        b'a' + (value - 10)
    }
}

// A byte of a text, and how many bytes spell it.
#[derive(Clone, Copy)]
pub struct Piece {
    pub byte: u8,
    pub size: usize,
}

// The byte that an escape of one letter stands for.
fn escaped(letter: u8) -> Option<u8>
    ensures { IfSome result (λ b. Escape letter b) }
{
    match letter {
        b'"' => Some(b'"'),
        b'\\' => Some(b'\\'),
        b'n' => Some(b'\n'),
        b't' => Some(b'\t'),
        _ => None,
    }
}

// The byte that is spelt first; none at a quote and where an escape is unknown or cut short.
pub(crate) fn first(rest: &[u8]) -> Option<Piece>
    ensures { IfSome result (λ p. FirstOf rest.now p) }
{
    match rest {
        [b'\\', b'x', high, low, ..] => {
            let byte = hex_byte(*high, *low)?;
            Some(Piece { byte, size: 4 })
        }
        [b'\\', letter, ..] => {
            let byte = escaped(*letter)?;
            Some(Piece { byte, size: 2 })
        }
        [b'\\' | b'"', ..] | [] => None,
        [byte, ..] => Some(Piece {
            byte: *byte,
            size: 1,
        }),
    }
}

// What a text spells, and where it stops: at a quote, at an unknown escape or at the end of the line.
#[derive(Drop)]
pub struct Unquoted {
    pub bytes: Vec<u8>,
    pub end: usize,
}

// Reads what a text spells from a place on.
pub(crate) fn unquote(heap: Global, line: &[u8], from: usize) -> Result<Unquoted, AllocError>
    requires { from ≤ length line.now }
    ensures { IfOk result (λ u. ReadAs line.now from u) }
{
    let mut bytes = Vec::new(heap);
    let mut end = from;
    // a piece is one to four bytes long; where the text ends is answered, which a rest of the line tells by its length alone
    while let Some(piece) = first(&line[end..]) {
        bytes.push(piece.byte)?;
        end += piece.size;
    }
    Ok(Unquoted { bytes, end })
}

// Writes one byte of a text: `plain` says whether bytes above 127 are characters.
// It is a bool: an enum of the two would be asked for in one arm.
fn push_byte(out: &mut Vec<u8>, byte: u8, plain: bool) -> Result<(), AllocError>
    ensures { OnOk result (Adds out.old out.new (λ p. Byte p byte)) }
{
    let high = hex_digit(byte / 16);
    let low = hex_digit(byte % 16);
    match byte {
        b'"' | b'\\' => out.extend_from_slice(&[b'\\', byte]),
        b'\n' => out.extend_from_slice(b"\\n"),
        b'\t' => out.extend_from_slice(b"\\t"),
        32..=126 => out.extend_from_slice(&[byte]),
        128..=255 if plain => out.extend_from_slice(&[byte]),
        _ => out.extend_from_slice(&[b'\\', b'x', high, low]),
    }
}

// Writes a text in quotes, as it is where it is UTF-8, with escapes for quotes, backslashes and control characters.
// Not by `Display`: it writes into bytes that a caller goes on with, and the contract says that the bytes added (`Adds`) spell the text, not how.
pub fn push_quoted(out: &mut Vec<u8>, bytes: &[u8]) -> Result<(), AllocError>
    ensures { OnOk result (Adds out.old out.new (λ p. Quoted p bytes.now)) }
{
    let plain = std::str::from_utf8(bytes).is_ok();
    out.push(b'"')?;
    for byte in bytes {
        push_byte(out, *byte, plain)?;
    }
    out.push(b'"')?;
    Ok(())
}
