ghost use Rattle.std.specs.Prelude.{◌≡◌, ℕ};
ghost use Rattle.table.specs.Table.{tab};
ghost use Rattle.table.specs.Reading.{Skips};
ghost use Rattle.examine.specs.Search.{setting, state, line_of, Known, Ready, Went, Leading, LedBy, Forked};

use crate::fact::{Fact, Sort};
use crate::line::{Line, LineStep};
use crate::product::{DoubleAt, Draft, Product};
use crate::turn::Skip;
use table::class::Class;

impl<'f, 'p, C: Class> Product<'f, 'p, C> {
    // A line for the fact `next`, which follows by empty rules from the fact `known`, if line b shows that.
    fn lead(
        &self,
        draft: &mut Draft,
        b: usize,
        known: Fact,
        next: Fact,
        step: LineStep,
    ) -> Result<(), DoubleAt>
        requires ready { Ready (setting C.Class.kinds self.now) (state draft.old) b }
        requires leads { Leading (setting C.Class.kinds self.now) b known next step }
        ensures { Went (setting C.Class.kinds self.now) (state draft.old) (state draft.new)
            (λ G s t. line_of G s known ≡ b → Known G t next) result }
    {
        if self.find(draft, known) != Some(b) {
            return Ok(());
        }
        let line = Line {
            form: next.form,
            first: next.first,
            second: next.second,
            run: draft.lines[b].run,
            step,
        };
        self.claim(draft, next.sort, line)
    }

    // The first reading takes an empty rule and the second another one, both from its state, to what line b shows.
    fn forks(&self, draft: &mut Draft, b: usize, skip: Skip) -> Result<(), DoubleAt>
        requires ready { Ready (setting C.Class.kinds self.now) (state draft.old) b }
        requires rule { Skips (tab self.now.pattern) skip.rule skip.from skip.to }
        ensures { Went (setting C.Class.kinds self.now) (state draft.old) (state draft.new)
            (λ G s t. (r : ℕ) → Forked G s t b skip.rule r) result }
    {
        let line = draft.lines[b];
        let known = Sort::Together.about(line.form, skip.to, line.second);
        let next = Sort::Apart.about(line.form, skip.from, skip.from);
        for (i, rule) in self.pattern.rules.iter().enumerate() {
            let Some(other) = Skip::of(i, rule) else {
                continue;
            };
            if i == skip.rule || other.from != skip.from || other.to != line.second {
                continue;
            }
            let step = LineStep::Both {
                first: skip.rule,
                second: i,
                line: b,
            };
            self.lead(draft, b, known, next, step)?;
        }
        Ok(())
    }

    // An empty rule to what line b shows: taken by the first reading, by the second, or by both.
    fn skips(&self, draft: &mut Draft, b: usize, skip: Skip) -> Result<(), DoubleAt>
        requires ready { Ready (setting C.Class.kinds self.now) (state draft.old) b }
        requires rule { Skips (tab self.now.pattern) skip.rule skip.from skip.to }
        ensures { Went (setting C.Class.kinds self.now) (state draft.old) (state draft.new)
            (λ G s t. LedBy G s t b skip.rule) result }
    {
        let Skip { rule, from, to } = skip;
        let line = draft.lines[b];
        let form = line.form;
        let first = LineStep::First { rule, line: b };
        let slips = Sort::Poised.about(form, to, line.second);
        let slipped = Sort::Poised.about(form, from, line.second);
        self.lead(draft, b, slips, slipped, first)?;
        let against = Sort::Poised.about(form, to, from);
        let apart = Sort::Apart.about(form, from, from);
        self.lead(draft, b, against, apart, first)?;
        let second = LineStep::Second { rule, line: b };
        let slides = Sort::Together.about(form, line.first, to);
        let slid = Sort::Together.about(form, line.first, from);
        self.lead(draft, b, slides, slid, second)?;
        let both = LineStep::Both {
            first: rule,
            second: rule,
            line: b,
        };
        self.lead(draft, b, Sort::Apart.about(form, to, to), apart, both)?;
        self.forks(draft, b, skip)
    }

    // Every empty rule to what line b shows.
    pub(crate) fn empties(&self, draft: &mut Draft, b: usize) -> Result<(), DoubleAt>
        requires { Ready (setting C.Class.kinds self.now) (state draft.old) b }
        ensures { Went (setting C.Class.kinds self.now) (state draft.old) (state draft.new)
            (λ G s t. (r : ℕ) → LedBy G s t b r) result }
    {
        let line = draft.lines[b];
        for (i, rule) in self.pattern.rules.iter().enumerate() {
            let Some(skip) = Skip::of(i, rule) else {
                continue;
            };
            if skip.to != line.first && skip.to != line.second {
                continue;
            }
            self.skips(draft, b, skip)?;
        }
        Ok(())
    }
}
