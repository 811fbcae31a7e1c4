// Numbers in decimal.
ghost use Rattle.std.specs.Prelude.{◌≤◌, IfOk};
ghost use Rattle.notation.specs.Number.{Writes};

use crate::complaint::{Wanted, What};

// The number that a word of digits writes, if it is at most `most`.
pub(crate) fn decimal(word: &[u8], most: u32) -> Result<u32, What>
    ensures written { IfOk result (λ n. Writes word.now n) }
    ensures bounded { IfOk result (λ n. n ≤ most) }
{
    if word.is_empty() {
        return Err(What::Wanted(Wanted::Number));
    }
    // not by `parse`, which takes a plus sign before the digits
    let mut number: u64 = 0;
    for digit in word {
        if !digit.is_ascii_digit() {
            return Err(What::Wanted(Wanted::Number));
        }
        number = number * 10 + (*digit - b'0') as u64;
        if number > most as u64 {
            return Err(What::NumberTooLarge { most });
        }
    }
    Ok(number as u32)
}
