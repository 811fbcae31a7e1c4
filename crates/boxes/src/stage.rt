pub mod admit;
pub mod file;
pub mod find;
pub mod lay;
pub mod locate;
mod look;
mod on_shelf;
pub mod seal;

ghost use Rattle.std.specs.Prelude.{◌≤◌};
ghost use Rattle.table.specs.Limits.{max_rules};
ghost use Rattle.boxes.specs.Limits.{max_patterns, max_records};

// What a box holds: how much of each list of its shelf is used, and of its form the rule count, start and final states.
// The lists are lent memory, as the library has no heap: so the counts of what is used stand here, beside them.
#[derive(Clone, Copy)]
pub struct Held {
    rules: usize,
    patterns: usize,
    records: usize,
    bytes: usize,
    form_rules: usize,
    starts: u64,
    finals: u64,
    ghost few: { (form_rules ≤ rules) × (form_rules ≤ max_rules) × (patterns ≤ max_patterns) × (records ≤ max_records) },
}

// A box without a form, `NewBox {}`: one may be laid.
#[derive(Drop)]
pub struct NewBox {}

// A box with a form: patterns may be admitted and records filed.
#[derive(Drop)]
pub struct LaidBox {
    held: Held,
}

// A box to which nothing is added any more.
#[derive(Drop)]
pub struct SealedBox {
    held: Held,
}
