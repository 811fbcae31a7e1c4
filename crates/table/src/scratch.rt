// Scratch: three numbers for each place of a run.
// They stay one lent list: `marks` promises what it ends as, and `as_chunks_mut` says nothing of that.
ghost use Rattle.std.specs.Prelude.{◌≡◌, ◌<◌, length, slice_index, slice_set};
ghost use Rattle.record.specs.Run.{Places};
ghost use Rattle.table.specs.Counting.{sets};
ghost use Rattle.table.specs.Scratch.{number_at, sets_at, Measures};

use crate::counted::Counted;
use crate::fault::{Cause, Fault, Role};
use crate::limits::PER_PLACE;
use record::run::Runs;

// Of the numbers of a place: the states with a reading, those with two that differ, and the states that readings come in by.
// Once the place is listed, its marks stand in place of the second.
pub(crate) const SOME: usize = 0;

pub(crate) const MANY: usize = 1;

pub(crate) const MARKS: usize = 1;

pub(crate) const ENTER: usize = 2;

// The top place of a run; refused if the scratch is too short for the run.
pub(crate) fn measure<R: Runs>(role: Role, run: &R, scratch: &[u64]) -> Result<usize, Fault>
    ensures measures { Measures role (R.Runs.highest run.now) (length scratch.now) result }
    ensures places { Places (R.Runs.highest run.now) (R.Runs.seen run.now) }
{
    let top = run.top();
    let needed = PER_PLACE * (top + 1);
    if scratch.len() < needed {
        return Err(Fault {
            role,
            cause: Cause::ShortBuffer,
            place: needed,
        });
    }
    Ok(top)
}

// Number K of a place.
pub(crate) fn number<const K: usize>(scratch: &[u64], place: usize) -> u64
    requires { number_at place K < length scratch.now }
    ensures { result ≡ slice_index scratch.now (number_at place K) }
{
    scratch[PER_PLACE * place + K]
}

pub(crate) fn set_number<const K: usize>(scratch: &mut [u64], place: usize, value: u64)
    requires { number_at place K < length scratch.old }
    ensures { scratch.new ≡ slice_set scratch.old (number_at place K) value }
{
    scratch[PER_PLACE * place + K] = value;
}

// The first two sets of a place.
pub(crate) fn counted_at(scratch: &[u64], place: usize) -> Counted
    requires { number_at place MANY < length scratch.now }
    ensures { sets result ≡ sets_at scratch.now place }
{
    Counted {
        some: number::<SOME>(scratch, place),
        many: number::<MANY>(scratch, place),
    }
}
