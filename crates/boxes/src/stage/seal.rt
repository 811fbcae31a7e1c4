ghost use Rattle.std.specs.Prelude.{◌≡◌};
ghost use Rattle.boxes.specs.Shelf.{box_of};

use crate::stage::find::Formed;
use crate::stage::{Held, LaidBox, SealedBox};

impl LaidBox {
    // Ends admitting and filing.
    pub fn seal(self) -> SealedBox
        ensures { box_of result.held ≡ box_of self.held }
    {
        SealedBox { held: self.held }
    }
}

// As for a laid box: each stage is a type of its own, by a rule of the project.
impl Formed for SealedBox {
    ghost holds = { λ b. b.held };

    fn held(&self) -> Held {
        self.held
    }
}
