//! The table of due dates of a generated C program, which stands for the pending events: the text that scans it for the next event, the text that
//! takes that event, and the text that programs a port.
#![tactic(auto)]

ghost use Rattle.sci_due.specs.Laws.{ChooseLaw, TakeLaw, ProgramLaw, NoDelayLaw};

mod due_table;

pub use due_table::{DueTable, GROUP, TURNS};

/// A scan of the table finds the port of the next pending event and its date, or that there is none.
pub fn choose_law()
    ensures { ChooseLaw }
{}

/// The next event is taken from the pending ones, and its date becomes the date of the reaction.
pub fn take_law()
    ensures { TakeLaw }
{}

/// A port that is programmed has its event replaced by the new one.
pub fn program_law()
    ensures { ProgramLaw }
{}

/// A delay of -1 leaves what is pending.
pub fn no_delay_law()
    ensures { NoDelayLaw }
{}
