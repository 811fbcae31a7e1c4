ghost use Rattle.std.specs.Prelude.{◌≡◌};
ghost use Rattle.examine.specs.Facts.{about};
ghost use Rattle.examine.specs.Search.{rest, told};

use crate::line::Line;

// What is known of a run that is read from a form state and from two pattern states: no more than that (together),
// that the second reading does not begin with an empty rule (poised), or that the two pattern readings differ (apart).
#[derive(Clone, Copy, PartialEq, Eq)]
pub enum Sort {
    Together,
    Poised,
    Apart,
}

// Some run is read from these three states, and this is known of its readings. They are three fields, as they are of a line, by a rule of
// the project.
#[derive(Clone, Copy)]
pub struct Fact {
    pub sort: Sort,
    pub form: u8,
    pub first: u8,
    pub second: u8,
}

impl Sort {
    // The sort of fact that the line of a fact of this sort shows as well.
    pub(crate) fn rest(self) -> Sort
        ensures { result ≡ rest self }
    {
        match self {
            Sort::Together => Sort::Together,
            Sort::Poised => Sort::Together,
            Sort::Apart => Sort::Apart,
        }
    }

    // The fact of this sort about three states.
    pub(crate) fn about(self, form: u8, first: u8, second: u8) -> Fact
        ensures { result ≡ about self form first second }
    {
        Fact {
            sort: self,
            form,
            first,
            second,
        }
    }
}

impl Fact {
    // The fact of this sort that a line may show.
    pub(crate) fn told(sort: Sort, line: Line) -> Fact
        ensures { result ≡ told sort line }
    {
        sort.about(line.form, line.first, line.second)
    }
}
