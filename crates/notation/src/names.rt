// The names of kinds and marks.
ghost use Rattle.std.specs.Prelude.{◌≡◌, ℕ, ◌<◌, MatchOption, OnOk};
ghost use Rattle.notation.specs.Names.{Calls, Unnamed, Called};
ghost use Rattle.notation.specs.Number.{written};
ghost use Rattle.notation.specs.Writes.{Adds};

use crate::value::Name;
use std::alloc::AllocError;

// The number that a word names.
pub(crate) fn number_of(names: &[Name], word: &[u8]) -> Option<u16>
    ensures { MatchOption result ((k : ℕ) → Calls names.now word.now k → ⊥) (λ k. Calls names.now word.now k) }
{
    let name = names.iter().find(|name| name.word.as_bytes() == word)?;
    Some(name.number)
}

// Writes a number in decimal.
pub(crate) fn push_number(out: &mut Vec<u8>, number: u16) -> Result<(), AllocError>
    ensures { OnOk result (Adds out.old out.new (λ p. p ≡ written number)) }
{
    let heap = *out.allocator();
    let digits = format!(in heap; "{number}")?;
    out.extend_from_slice(digits.as_bytes())
}

// The word that names a number.
fn word_of(names: &[Name], number: u16) -> Option<&[u8]>
    ensures { MatchOption result (Unnamed names.now number) (λ w. Calls names.now w.now number) }
{
    let name = names.iter().find(|name| name.number == number)?;
    Some(name.word.as_bytes())
}

// Writes a number by its name, or in decimal if it has none.
pub(crate) fn push_named(out: &mut Vec<u8>, names: &[Name], number: u16) -> Result<(), AllocError>
    ensures { OnOk result (Adds out.old out.new (Called names.now number)) }
{
    match word_of(names, number) {
        Some(word) => out.extend_from_slice(word),
        None => push_number(out, number),
    }
}
