//! What is saved of a run behind a reaction: its state as plain lists, and their text, which is written and read. A text has the lines
//! `save 1`; `at <fired> <now>`; `state <block> <values>` for each block with a state; `held <block> <values>` for each block with regular
//! outputs; `cursor <block> <count>` for each sensor; `pend <date> <block> <port>` for each pending event, in the order in which they fire; and
//! `done`. One space separates, and each number has one spelling. `write_save` writes exactly this text. `read_save` reads exactly the texts of
//! what may be saved of a net and its input columns, and blames the first line with which a text goes on as none of them.
#![tactic(auto)]

ghost use Rattle.sci_save.specs.Laws.{OneSaved, TextIsRead, OneBlamed, OneIsDue, SavedInRange, SavedIsShort};
ghost use Rattle.sci_save.specs.Resumed.{ReachedIsSaved, RestIsSaved, ResumedGoesOn};

mod bounds;
mod events;
mod image;
mod line;
mod read;
mod rows;
mod stop;
mod write;

pub use image::Image;
pub use read::read_save;
pub use stop::SaveStop;
pub use write::write_save;

/// A text saves one thing, or one line of it is blamed, and not both. The text of what may be saved saves this.
pub fn one_answer()
    ensures saved { OneSaved }
    ensures text { TextIsRead }
    ensures line { OneBlamed }
    ensures due { OneIsDue }
{}

/// The states and the held values that were saved are in range.
pub fn in_range()
    ensures { SavedInRange }
{}

/// The text of what may be saved has at most 67,108,864 bytes.
pub fn is_short()
    ensures { SavedIsShort }
{}

/// Each state that a run reaches may be saved, and so each that a run reaches which goes on from what was saved. Where the run goes on behind
/// it, what was observed up to there, and then from what was saved on, is the whole run.
pub fn resumed_goes_on()
    ensures saved { ReachedIsSaved }
    ensures rest { RestIsSaved }
    ensures goes_on { ResumedGoesOn }
{}
