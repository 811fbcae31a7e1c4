// How long the lists for examining have to be.
ghost use Rattle.std.specs.Prelude.{◌≡◌, ℕ, ◌+◌, min};
ghost use Rattle.table.specs.declared.fault.Role.TheVariants.{Form, Pattern};
ghost use Rattle.table.specs.Limits.{form_states, pattern_states};
ghost use Rattle.table.specs.Table.{tab};
ghost use Rattle.table.specs.Check.{SoundTable, StateCount};
ghost use Rattle.examine.specs.Search.{most};
ghost use Rattle.examine.specs.Examine.{Needs};

use table::check::state_count;
use table::class::Class;
use table::limits::{FORM_STATES, PATTERN_STATES};
use table::table::Table;

// How many lines, and as many numbers of the helper, examining needs for a form and a pattern of so many states; tables of more states
// are refused before.
pub fn most_lines(forms: usize, states: usize) -> usize
    ensures { result ≡ most (min forms form_states) (min states pattern_states) + 1 }
{
    let forms = forms.min(FORM_STATES as usize);
    let states = states.min(PATTERN_STATES as usize);
    3 * forms * states * states + 1
}

// How many a form and a pattern need, by the states that they name.
pub fn lines_needed<C: Class>(form: Table<C>, pattern: Table<C>) -> usize
    ensures counted { (forms states : ℕ) → StateCount (tab form.entry) forms → StateCount (tab pattern.entry) states
        → result ≡ most (min forms form_states) (min states pattern_states) + 1 }
    ensures needed { SoundTable Form (tab form.entry) → SoundTable Pattern (tab pattern.entry) → Needs (tab form.entry) (tab pattern.entry) result }
{
    most_lines(state_count(form), state_count(pattern))
}
