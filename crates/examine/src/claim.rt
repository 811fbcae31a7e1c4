ghost use Rattle.std.specs.Prelude.{◌≡◌, ◌<◌, ◌≤◌, length};
ghost use Rattle.std.specs.Option.{MatchOption};
ghost use Rattle.examine.specs.Search.{setting, state, slot, most, noted, told, Low, line_of, doubles, Known, Bounded, Fine, Due, Went};

use crate::fact::{Fact, Sort};
use crate::line::Line;
use crate::product::{DoubleAt, Draft, Product};
use table::class::Class;
use table::states::holds;

// Notes a line, unless one is noted.
fn note(helper: &mut [u32], at: usize, line: u32)
    requires { at < length helper.old }
    ensures { helper.new ≡ noted helper.old at line }
{
    if helper[at] == 0 {
        helper[at] = line;
    }
}

impl<'f, 'p, C: Class> Product<'f, 'p, C> {
    // The number of a fact.
    fn slot(&self, fact: Fact) -> usize
        requires bounded { Bounded (setting C.Class.kinds self.now) }
        requires low { Low (setting C.Class.kinds self.now) fact }
        ensures is { result ≡ slot self.now.forms self.now.states fact }
        ensures low { result < most self.now.forms self.now.states }
        ensures few { most self.now.forms self.now.states ≤ 393216 }
    {
        let form = fact.sort as usize * self.forms + fact.form as usize;
        let first = form * self.states + fact.first as usize;
        first * self.states + fact.second as usize
    }

    // Whether a fact is one of start states and tells of two readings that differ.
    fn is_double(&self, fact: Fact) -> bool
        ensures { result ≡ doubles (setting C.Class.kinds self.now) fact }
    {
        let differ = fact.sort == Sort::Apart || fact.first != fact.second;
        let starts = holds(self.pattern.starts, fact.first)
            && holds(self.pattern.starts, fact.second);
        holds(self.form.starts, fact.form) && starts && differ
    }

    // The line of a fact, if it has one.
    pub(crate) fn find(&self, draft: &Draft, fact: Fact) -> Option<usize>
        requires fine { Fine (setting C.Class.kinds self.now) (state draft.now) }
        requires low { Low (setting C.Class.kinds self.now) fact }
        ensures { MatchOption result (line_of (setting C.Class.kinds self.now) (state draft.now) fact ≡ 0)
            (λ n. (0 < n) × (line_of (setting C.Class.kinds self.now) (state draft.now) fact ≡ n)) }
    {
        match draft.helper[self.slot(fact)] {
            0 => None,
            line => Some(line as usize),
        }
    }

    // Adds a line for the fact that it shows, if the fact has none.
    pub(crate) fn claim(&self, draft: &mut Draft, sort: Sort, line: Line) -> Result<(), DoubleAt>
        requires fine { Fine (setting C.Class.kinds self.now) (state draft.old) }
        requires due { Due (setting C.Class.kinds self.now) (state draft.old) sort line }
        ensures { Went (setting C.Class.kinds self.now) (state draft.old) (state draft.new)
            (λ G _ t. Known G t (told sort line)) result }
    {
        let fact = Fact::told(sort, line);
        let at = self.slot(fact);
        if draft.helper[at] != 0 {
            return Ok(());
        }
        let top = draft.used;
        draft.lines[top] = line;
        note(draft.helper, at, top as u32);
        let rest = Fact::told(sort.rest(), line);
        note(draft.helper, self.slot(rest), top as u32);
        draft.used = top + 1;
        if self.is_double(fact) {
            Err(DoubleAt { top })
        } else {
            Ok(())
        }
    }
}
