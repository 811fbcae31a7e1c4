ghost use Rattle.boxes.specs.Promise.{Promise, Fixed};

use table::class::Class;

// In every history of calls the book's records fit the book's form, each has at most one reading under each of the book's patterns, and find
// answers by the book; and admit refuses a pattern for two readings exactly if there can be two.
pub fn promise<C: Class>()
    ensures { Promise C.Class.kinds }
{}

// What the calls promise of answer, box and shelf leaves nothing open but which double is shown.
pub fn fixed<C: Class>()
    ensures { Fixed C.Class.kinds }
{}
