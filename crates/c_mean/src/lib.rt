//! What programs of the C subset mean (`specs/Meaning.antt`), and the laws by which a proof about a C text goes: statement by statement, over
//! reads of memory. Those that such a proof calls are the lemmas in proofs/, in the form of a continuation; here stand the same as promises to a
//! reader.
#![tactic(auto)]

ghost use Rattle.c_mean.specs.Laws.{PutLaw, SetLaw, AskLaw, ChoiceLaw, CallLaw, TellLaw, LoopLaw, CountLaw, JoinedLaw, LeavesLaw, CallsLeaveLaw};
ghost use Rattle.c_mean.specs.Laws.{ArithmeticLaw, TruthLaw, ValueStays, ProgramLaw};

/// A place that is there can be written, and every other read stays.
pub fn put_law()
    ensures { PutLaw }
{}

/// An assignment.
pub fn set_law()
    ensures { SetLaw }
{}

/// The questions: is there more input, the next input, the bounds of the run.
pub fn ask_law()
    ensures { AskLaw }
{}

/// An If goes by the truth of its test.
pub fn choice_law()
    ensures { ChoiceLaw }
{}

/// A call is what its function does.
pub fn call_law()
    ensures { CallLaw }
{}

/// The observations: start, events and values go on, an end and a stop end the run.
pub fn tell_law()
    ensures { TellLaw }
{}

/// A For is its turns, as many as its bound says before the first.
pub fn loop_law()
    ensures { LoopLaw }
{}

/// Behind each turn of a For its counter goes up by one.
pub fn count_law()
    ensures { CountLaw }
{}

/// Joined texts run one behind the other.
pub fn joined_law()
    ensures { JoinedLaw }
{}

/// A text does no more than it may.
pub fn leaves_law()
    ensures { LeavesLaw }
{}

/// Functions do no more than they may, whichever of them are called.
pub fn calls_leave_law()
    ensures { CallsLeaveLaw }
{}

/// Numbers, elements, sums, differences, products, quotients and remainders.
pub fn arithmetic_law()
    ensures { ArithmeticLaw }
{}

/// Comparisons, and what is put together from truths.
pub fn truth_law()
    ensures { TruthLaw }
{}

/// An expression's value depends on what it reads alone.
pub fn value_stays()
    ensures { ValueStays }
{}

/// What calls mean in a program, and its first world.
pub fn program_law()
    ensures { ProgramLaw }
{}
