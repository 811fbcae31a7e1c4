ghost use Rattle.std.specs.Prelude.{◌≡◌, ℕ};
ghost use Rattle.examine.specs.Facts.{Closed};
ghost use Rattle.examine.specs.Search.{setting, state, Known, Fine, Ready, Went};
ghost use Rattle.examine.specs.Frontiers.{all_final, Begun, Followed};

use crate::fact::Sort;
use crate::line::{Line, LineStep};
use crate::product::{DoubleAt, Draft, Product};
use crate::turn::{Side, Turn};
use table::class::Class;
use table::states::holds;

impl<'f, 'p, C: Class> Product<'f, 'p, C> {
    // Whether all three states are final.
    fn are_final(&self, form: u8, first: u8, second: u8) -> bool
        ensures { result ≡ all_final (setting C.Class.kinds self.now) form first second }
    {
        holds(self.form.finals, form)
            && holds(self.pattern.finals, first)
            && holds(self.pattern.finals, second)
    }

    // A line for every three final states, from which the empty run is read.
    fn begin(&self, draft: &mut Draft) -> Result<(), DoubleAt>
        requires { Fine (setting C.Class.kinds self.now) (state draft.old) }
        ensures { Went (setting C.Class.kinds self.now) (state draft.old) (state draft.new)
            (λ G _ t. (f p q : ℕ) → Begun G t f p q) result }
    {
        let forms = self.forms as u8;
        let states = self.states as u8;
        for form in 0..forms {
            for first in 0..states {
                for second in 0..states {
                    if !self.are_final(form, first, second) {
                        continue;
                    }
                    let line = Line {
                        form,
                        first,
                        second,
                        run: None,
                        step: LineStep::Stop,
                    };
                    self.claim(draft, Sort::Poised, line)?;
                }
            }
        }
        Ok(())
    }

    // Takes line b as what empty rules lead to, and as what follows a node whose inside is a line below a.
    fn follow(&self, draft: &mut Draft, a: usize, b: usize) -> Result<(), DoubleAt>
        requires { Ready (setting C.Class.kinds self.now) (state draft.old) b }
        ensures { Went (setting C.Class.kinds self.now) (state draft.old) (state draft.new)
            (λ G s t. Followed G s t a b) result }
    {
        self.empties(draft, b)?;
        let turn = Turn {
            side: Side::After,
            line: b,
            bound: a,
        };
        self.joins(draft, turn)
    }

    // Finds every fact, or a double. Lines below `a` have been taken inside a node, and those below `b` after one,
    // each with all of the others.
    // No `for` over the lines: each turn may add some, so that the end moves while they are taken.
    pub(crate) fn search(&self, draft: &mut Draft) -> Result<(), DoubleAt>
        requires { Fine (setting C.Class.kinds self.now) (state draft.old) }
        ensures { Went (setting C.Class.kinds self.now) (state draft.old) (state draft.new)
            (λ G _ t. Closed G.kinds G.form G.pattern (Known G t)) result }
    {
        self.begin(draft)?;
        let mut a = 1;
        let mut b = 1;
        while a < draft.used {
            if b < draft.used {
                self.follow(draft, a, b)?;
                b += 1;
            } else {
                let turn = Turn {
                    side: Side::Inside,
                    line: a,
                    bound: b,
                };
                self.joins(draft, turn)?;
                a += 1;
            }
        }
        Ok(())
    }
}
