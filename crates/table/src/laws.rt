ghost use Rattle.table.specs.Laws.{Laws};
ghost use Rattle.table.specs.Cases.{Cases};

use crate::class::Class;

// The laws of tables over a class, proved: see specs/Laws.antt for what each states.
pub fn laws<C: Class>()
    ensures { Laws C.Class.kinds }
{}

// Twelve cases of the definitions, proved: see specs/Cases.antt.
pub fn cases()
    ensures { Cases }
{}
