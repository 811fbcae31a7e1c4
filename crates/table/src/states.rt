// Sets of states, a bit for each state 0 to 63.
ghost use Rattle.std.specs.Prelude.{◌≡◌, ℕ, ◌<◌, ◌||◌, ◌==◌};
ghost use Rattle.table.specs.Sets.{bit, Bit, Extent};

// Whether a state is in the set; none above 63 is.
pub fn holds(set: u64, state: u8) -> bool
    ensures { result ≡ bit set state }
{
    among(set, state % 64) && state < 64
}

// Whether a state below 64 is in the set. `takes` asks this for each rule at each node: with a test of the state there `fits` takes a third
// more instructions.
pub(crate) fn among(set: u64, state: u8) -> bool
    requires { state < 64 }
    ensures { result ≡ bit set state }
{
    (set >> state) & 1 == 1
}

pub(crate) fn with(set: u64, state: u8) -> u64
    requires { state < 64 }
    ensures { (q : ℕ) → bit result q ≡ (bit set q || state == q) }
{
    set | (1 << state)
}

// One above the highest state of the set, 0 if it has none.
pub(crate) fn extent(set: u64) -> u8
    ensures { Extent (Bit set) result }
{
    (64 - set.leading_zeros()) as u8
}
