ghost use Rattle.std.specs.Prelude.{◌≡◌, ℕ, ◌≤◌, Bool, true};
ghost use Rattle.table.specs.Class.{Meets};

// A class means a set of kinds that is never empty. `kinds` is that set; a kind is a number below 65,536.
pub trait Class: Sized + Copy {
    ghost kinds: { Self → ℕ → Bool };

    // Whether a kind is in the set.
    fn has(&self, kind: u16) -> bool
        ensures { result ≡ kinds self.now kind };

    // The class of the kinds in both, or nothing if there are none.
    fn meet(&self, other: &Self) -> Option<Self>
        ensures { Meets kinds self.now other.now result };

    // The smallest kind in the set.
    fn least(&self) -> u16
        ensures member { kinds self.now result ≡ true }
        ensures lowest { (k : ℕ) → kinds self.now k ≡ true → result ≤ k };
}
