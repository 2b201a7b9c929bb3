ghost use Rattle.sci_wave.specs.Laws.{SomeRunDump, OneRunDump};

/// A run has a dump, and no other.
pub fn one_run_dump()
    ensures some { SomeRunDump }
    ensures one { OneRunDump }
{}
