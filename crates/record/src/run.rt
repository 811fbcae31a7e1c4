ghost use Rattle.std.specs.Prelude.{◌≡◌, ℕ, Option as Maybe};
ghost use Rattle.record.specs.declared.run.Node.{Node as Seen};
ghost use Rattle.record.specs.Run.{Places, if_lower};

// What a place shows: a node's kind, the place of its inside and the place of what follows it. They are places and no pointers, as runs
// stand in lent lists, by a rule of the project.
#[derive(Clone, Copy, Default, PartialEq, Eq, Debug)]
pub struct Node {
    pub kind: u16,
    pub inside: usize,
    pub after: usize,
}

impl Node {
    // The node, if the places that it names are lower than its own, as those of a run are.
    pub fn if_lower(self, place: usize) -> Option<Node>
        ensures { result ≡ if_lower place self }
    {
        if self.inside < place && self.after < place {
            Some(self)
        } else {
            None
        }
    }
}

// A run of nodes, as a table of places 0 to top. Each place is the empty run, or a node whose inside and after places are lower.
// `highest` is the top place, and `seen` what each place shows.
pub trait Runs {
    ghost highest: { Self → ℕ };

    ghost seen: { Self → ℕ → Maybe Seen };

    // The place whose run is the whole. Every implementation owes here what holds of its places: by a law it would owe that of every value
    // of the logic, and not only of those that a program holds.
    fn top(&self) -> usize
        ensures is { result ≡ highest self.now }
        ensures places { Places (highest self.now) (seen self.now) };

    // The node at a place, if there is one.
    fn look(&self, place: usize) -> Option<Node>
        ensures { result ≡ seen self.now place };
}
