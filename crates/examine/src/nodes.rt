ghost use Rattle.std.specs.Prelude.{ℕ};
ghost use Rattle.examine.specs.Facts.{Makes};
ghost use Rattle.examine.specs.Search.{setting, state, Fine, Ready, Went};
ghost use Rattle.examine.specs.Turns.{inside_fact, after_fact, whole_fact, Taken, Met, Made, Crossed};

use crate::fact::Sort;
use crate::line::{Line, LineStep};
use crate::product::{DoubleAt, Draft, Product};
use crate::turn::{Arm, Side, Trio, Turn};
use record::run::Node;
use table::class::Class;

impl<'f, 'p, C: Class> Product<'f, 'p, C> {
    // A line for a node that three rules take, if the turn pairs the lines of its two facts.
    fn join(
        &self,
        draft: &mut Draft,
        turn: Turn,
        trio: Trio,
        inside: Sort,
        after: Sort,
        sort: Sort,
    ) -> Result<(), DoubleAt>
        requires fine { Fine (setting C.Class.kinds self.now) (state draft.old) }
        requires taken { Taken (setting C.Class.kinds self.now) trio }
        requires makes { Makes trio.first.rule trio.second.rule trio.first.from trio.second.from inside after sort }
        ensures { Went (setting C.Class.kinds self.now) (state draft.old) (state draft.new)
            (λ G s t. Made G s t turn (inside_fact inside trio) (after_fact after trio) (whole_fact sort trio)) result }
    {
        let Some(i) = self.find(draft, trio.fact(Side::Inside, inside)) else {
            return Ok(());
        };
        let Some(j) = self.find(draft, trio.fact(Side::After, after)) else {
            return Ok(());
        };
        if !turn.pairs(i, j) {
            return Ok(());
        }
        let line = Line {
            form: trio.form.from,
            first: trio.first.from,
            second: trio.second.from,
            run: Some(Node {
                kind: trio.kind,
                inside: i,
                after: j,
            }),
            step: LineStep::Node {
                form: trio.form.rule,
                first: trio.first.rule,
                second: trio.second.rule,
            },
        };
        self.claim(draft, sort, line)
    }

    // Every line that three rules make of pairs of lines of this turn.
    fn cross(&self, draft: &mut Draft, turn: Turn, trio: Trio) -> Result<(), DoubleAt>
        requires fine { Fine (setting C.Class.kinds self.now) (state draft.old) }
        requires taken { Taken (setting C.Class.kinds self.now) trio }
        ensures { Went (setting C.Class.kinds self.now) (state draft.old) (state draft.new)
            (λ G s t. Crossed G s t turn trio.form.rule trio.first.rule trio.second.rule) result }
    {
        self.join(
            draft,
            turn,
            trio,
            Sort::Together,
            Sort::Together,
            Sort::Poised,
        )?;
        if trio.first.rule == trio.second.rule {
            self.join(draft, turn, trio, Sort::Apart, Sort::Together, Sort::Apart)?;
            return self.join(draft, turn, trio, Sort::Together, Sort::Apart, Sort::Apart);
        }
        if trio.first.from == trio.second.from {
            return self.join(
                draft,
                turn,
                trio,
                Sort::Together,
                Sort::Together,
                Sort::Apart,
            );
        }
        Ok(())
    }

    // Every pattern rule for the second reading, beside a form rule and a pattern rule for the first that both take the kinds of a class.
    fn seconds(
        &self,
        draft: &mut Draft,
        turn: Turn,
        met: C,
        form: Arm,
        first: Arm,
    ) -> Result<(), DoubleAt>
        requires ready { Ready (setting C.Class.kinds self.now) (state draft.old) turn.line }
        requires met { Met (setting C.Class.kinds self.now) met form first }
        ensures { Went (setting C.Class.kinds self.now) (state draft.old) (state draft.new)
            (λ G s t. (r : ℕ) → Crossed G s t turn form.rule first.rule r) result }
    {
        let state = draft.lines[turn.line].second;
        for (i, rule) in self.pattern.rules.iter().enumerate() {
            let Some(second) = turn.side.arm(i, rule, state) else {
                continue;
            };
            let Some(all) = met.meet(&second.class) else {
                continue;
            };
            let trio = Trio {
                kind: all.least(),
                form,
                first,
                second: second.arm,
            };
            self.cross(draft, turn, trio)?;
        }
        Ok(())
    }

    // Takes up a line: every form rule and every pattern rule for the first reading to its states.
    pub(crate) fn joins(&self, draft: &mut Draft, turn: Turn) -> Result<(), DoubleAt>
        requires { Ready (setting C.Class.kinds self.now) (state draft.old) turn.line }
        ensures { Went (setting C.Class.kinds self.now) (state draft.old) (state draft.new)
            (λ G s t. (r₀ r₁ r₂ : ℕ) → Crossed G s t turn r₀ r₁ r₂) result }
    {
        let line = draft.lines[turn.line];
        let mut verdict = Ok(());
        // a double leaves both loops by one label, by a rule of the project
        'rules: for (i, rule) in self.form.rules.iter().enumerate() {
            let Some(form) = turn.side.arm(i, rule, line.form) else {
                continue;
            };
            for (j, other) in self.pattern.rules.iter().enumerate() {
                let Some(first) = turn.side.arm(j, other, line.first) else {
                    continue;
                };
                let Some(met) = form.class.meet(&first.class) else {
                    continue;
                };
                verdict = self.seconds(draft, turn, met, form.arm, first.arm);
                if verdict.is_err() {
                    break 'rules;
                }
            }
        }
        verdict
    }
}
