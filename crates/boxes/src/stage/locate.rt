ghost use Rattle.std.specs.Prelude.{◌≡◌, ◌+◌, ◌<◌, ◌≤◌, length, MatchOption, MatchResult};
ghost use Rattle.boxes.specs.Check.{Fails, each};
ghost use Rattle.boxes.specs.Shelf.{part};
ghost use Rattle.boxes.specs.Calls.{known_checks, locate_checks};
ghost use Rattle.boxes.specs.Stage.{Checked, world};
ghost use Rattle.boxes.specs.Locate.{LocatedAs};

use crate::fault::{Cause, Fault};
use crate::limits::MAX_MARK;
use crate::shelf::ShelfList;
use crate::stage::look::ensure;
use crate::stage::on_shelf::BoxOnShelf;
use table::class::Class;
use table::table::Table;

// What find is asked for: the nodes of a record to which a pattern gives a mark.
#[derive(Clone, Copy)]
pub struct Query {
    pub pattern: usize,
    pub record: usize,
    pub mark: u8,
}

// What find is asked for, numbered as a refusal's place names it.
#[derive(Clone, Copy)]
enum Asked {
    Pattern,
    Record,
    Mark,
}

// A pattern and the bytes of a record, on the shelf.
#[derive(Clone, Copy)]
pub(crate) struct Located<'a, C> {
    pub pattern: Table<'a, C>,
    pub bytes: &'a [u8],
}

// The part of a list of which an entry tells, if it lies within the used part.
fn part<T>(list: &[T], used: usize, first: usize, count: usize) -> Option<&[T]>
    requires { used ≤ length list.now }
    ensures { MatchOption result (used < first + count) (λ t. (first + count ≤ used) × (t.now ≡ part first count list.now)) }
{
    let end = first.checked_add(count)?;
    list[..used].get(first..end)
}

impl<'a, C: Class> BoxOnShelf<'a, C> {
    // The box has such a pattern and such a record, and there is such a mark.
    fn check_known(&self, query: Query) -> Result<(), Fault>
        ensures { Checked (each (known_checks self.now.held.patterns self.now.held.records query.pattern query.record query.mark)) result }
    {
        let unknown = |asked: Asked| Fault::boxes(Cause::Unknown, asked as usize);
        ensure(query.pattern < self.held.patterns, unknown(Asked::Pattern))?;
        ensure(query.record < self.held.records, unknown(Asked::Record))?;
        ensure(query.mark <= MAX_MARK, unknown(Asked::Mark))
    }

    // Finds a pattern and a record.
    pub(crate) fn locate(&self, query: Query) -> Result<Located<'a, C>, Fault>
        ensures { MatchResult result
            (λ l. LocatedAs (world self.now) query.pattern query.record query.mark l)
            (λ f. Fails (locate_checks (world self.now) query.pattern query.record query.mark) f) }
    {
        self.check_known(query)?;
        let pattern = self.patterns[query.pattern];
        let record = self.records[query.record];
        let rules = part(self.rules, self.held.rules, pattern.first, pattern.count).ok_or(
            ShelfList::Rules.fault(Cause::ShortShelf),
        )?;
        let bytes = part(self.bytes, self.held.bytes, record.first, record.count).ok_or(
            ShelfList::Bytes.fault(Cause::ShortShelf),
        )?;
        Ok(Located {
            pattern: Table {
                starts: pattern.starts,
                finals: pattern.finals,
                rules,
            },
            bytes,
        })
    }
}
