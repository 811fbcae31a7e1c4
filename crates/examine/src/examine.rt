ghost use Rattle.std.specs.Prelude.{◌≡◌, length, MatchResult};
ghost use Rattle.table.specs.Fault.{refusal};
ghost use Rattle.table.specs.Table.{tab};
ghost use Rattle.table.specs.Check.{StateCount};
ghost use Rattle.table.specs.Reading.{Twofold};
ghost use Rattle.table.specs.declared.fault.Role.TheVariants.{Pattern};
ghost use Rattle.table.specs.declared.fault.Cause.TheVariants.{Double};
ghost use Rattle.examine.specs.Examine.{Examinable, Examines, Shown};

use crate::line::Line;
use crate::product::{DoubleAt, Draft, Product};
use crate::size::most_lines;
use table::check::{check, state_count};
use table::class::Class;
use table::fault::{Cause, Fault, Role};
use table::table::Table;

impl From<DoubleAt> for Fault {
    ghost from_gives = { λ d e. e ≡ refusal Pattern Double d.top };

    fn from(double: DoubleAt) -> Fault {
        Fault {
            role: Role::Pattern,
            cause: Cause::Double,
            place: double.top,
        }
    }
}

// Whether no run is twofold under two tables that passed the check; else the line of the sheet that shows one that is. Their states come
// counted, as their number says how long the lists have to be.
fn decide<C: Class>(
    product: Product<C>,
    sheet: &mut [Line],
    helper: &mut [u32],
) -> Result<(), DoubleAt>
    requires tables { Examinable (tab product.form) (tab product.pattern) (length sheet.old) (length helper.old) }
    requires forms { StateCount (tab product.form) product.forms }
    requires states { StateCount (tab product.pattern) product.states }
    ensures { MatchResult result (λ _. Twofold C.Class.kinds (tab product.entry.form) (tab product.entry.pattern) → ⊥)
        (λ d. Twofold C.Class.kinds (tab product.entry.form) (tab product.entry.pattern) × Shown C.Class.kinds (tab product.entry.form) (tab product.entry.pattern) sheet.new d.top) }
{
    // a number for each fact is cleared; the one more stays as it was lent
    let facts = helper.len() - 1;
    let helper = &mut helper[..facts];
    helper.fill(0);
    let mut draft = Draft {
        lines: sheet,
        helper,
        used: 1,
    };
    product.search(&mut draft)
}

// Whether every record that fits the form, of whatever size, has at most one reading under the pattern. If one has two, the sheet shows
// it in its lines 1 to the place of the fault. Sheet and helper need a line and a number for each of three facts about a form state and
// two pattern states, and one more.
pub fn examine<C: Class>(
    form: Table<C>,
    pattern: Table<C>,
    sheet: &mut [Line],
    helper: &mut [u32],
) -> Result<(), Fault>
    ensures { Examines C.Class.kinds (tab form.entry) (tab pattern.entry) (length sheet.old) (length helper.old) sheet.new result }
{
    check(Role::Form, form)?;
    check(Role::Pattern, pattern)?;
    let product = Product {
        form,
        pattern,
        forms: state_count(form),
        states: state_count(pattern),
    };
    let needed = most_lines(product.forms, product.states);
    if sheet.len() < needed || helper.len() < needed {
        return Err(Fault {
            role: Role::Pattern,
            cause: Cause::ShortBuffer,
            place: needed,
        });
    }
    decide(product, sheet, &mut helper[..needed])?;
    Ok(())
}
