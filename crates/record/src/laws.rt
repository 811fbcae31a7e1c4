ghost use Rattle.record.specs.Laws.{Laws};

// The laws of records, proved: see specs/Laws.antt for what each states.
pub fn laws()
    ensures { Laws }
{}
