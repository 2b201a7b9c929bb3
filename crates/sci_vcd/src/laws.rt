// What holds of all texts and dumps.

ghost use Rattle.sci_vcd.specs.Laws.{OneDump, OneFirstWrong, NotBoth, NetSignals, WrittenIsDump};

/// No two dumps share a spelling.
pub fn one_dump()
    ensures { OneDump }
{}

/// At most one line of a text is the first wrong one.
pub fn one_first_wrong()
    ensures { OneFirstWrong }
{}

/// The text of a dump has no wrong line.
pub fn not_both()
    ensures { NotBoth }
{}

/// The signals of a net are those of a dump, one for each element of its regular outputs.
pub fn net_has_signals()
    ensures { NetSignals }
{}

/// What `VcdOut` writes tick by tick is the text of a dump behind each of them, in which each signal has at each tick the value that was noted
/// last up to there.
pub fn written_is_dump()
    ensures { WrittenIsDump }
{}
