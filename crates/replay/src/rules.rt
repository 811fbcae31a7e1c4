// Tables as written, as tables of the library.
ghost use Rattle.std.specs.Prelude.{◌≡◌, IfOk, IfErr, Option as Maybe, Result as Outcome};
ghost use Rattle.table.specs.Table.{tab};
ghost use Rattle.table.specs.ClassFault.{ClassFault as Fault};
ghost use Rattle.notation.specs.declared.value.ClassText.{ClassText as Text};
ghost use Rattle.replay.specs.Stop.{RuleStops, TableStops};
ghost use Rattle.replay.specs.Written.{WritesMask, WritesRange, RuleWritten, RulesWritten};

use crate::stop::Stop;
use notation::value::{ClassText, RuleText, StepText, TableText};
use std::alloc::Global;
use table::class::Class;
use table::class_fault::{ClassCause, ClassFault};
use table::mask::Mask;
use table::range::Range;
use table::rule::{Rule, Step};
use table::table::Table;

// A class that box files can write.
pub trait Written: Class {
    ghost writes: { Text → Maybe (Outcome Self Fault) → Type 0 };

    // The class that a text writes; none if it is of the other way of writing.
    fn of(text: ClassText) -> Option<Result<Self, ClassFault>>
        ensures { writes text result };
}

impl Written for Mask {
    ghost writes = { WritesMask };

    fn of(text: ClassText) -> Option<Result<Mask, ClassFault>> {
        match text {
            ClassText::Mask(bits) => Some(Mask::new(bits)),
            ClassText::Range { .. } => None,
        }
    }
}

impl Written for Range {
    ghost writes = { WritesRange };

    fn of(text: ClassText) -> Option<Result<Range, ClassFault>> {
        match text {
            ClassText::Range { first, last } => Some(Range::new(first, last)),
            ClassText::Mask(_) => None,
        }
    }
}

// The rule that a text writes; `number` is its place among the rules.
fn rule_of<C: Written>(text: RuleText, number: usize) -> Result<Rule<C>, Stop>
    ensures written { IfOk result (λ r. RuleWritten C.Written.writes text r) }
    ensures stops { IfErr result (RuleStops C.Written.writes text number) }
{
    let step = match text.step {
        StepText::Empty => Step::Empty,
        StepText::Node {
            class,
            inside,
            marks,
        } => {
            let made = C::of(class).ok_or(Stop::OtherWriting)?;
            Step::Node {
                class: made.map_err(|fault| Stop::BadClass {
                    rule: number,
                    fault,
                })?,
                inside,
                marks,
            }
        }
    };
    Ok(Rule {
        from: text.from,
        to: text.to,
        step,
    })
}

// The rules of a table as written.
pub(crate) fn rules_of<C: Written>(heap: Global, text: &TableText) -> Result<Vec<Rule<C>>, Stop>
    ensures written { IfOk result (λ rules. RulesWritten C.Written.writes text.now.rules.items rules.items) }
    ensures stops { IfErr result (TableStops C.Written.writes text.now.rules.items (λ _. ⊥)) }
{
    let mut rules = Vec::new(heap);
    for (number, rule) in text.rules.iter().enumerate() {
        rules.push(rule_of(*rule, number)?)?;
    }
    Ok(rules)
}

// A table as written, with its rules.
pub(crate) fn table_of<'a, C: Written>(text: &TableText, rules: &'a [Rule<C>]) -> Table<'a, C>
    ensures { tab result ≡ record { starts = text.now.starts; finals = text.now.finals; rules = rules.now } }
{
    Table {
        starts: text.starts,
        finals: text.finals,
        rules,
    }
}
