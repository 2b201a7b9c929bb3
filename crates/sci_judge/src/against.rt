// A sink whose state tells with which text it compares.
ghost use Rattle.std.specs.Prelude.{◌≡◌, ◌<◌, [], length};
ghost use Rattle.sci_agree.specs.Verdict.{IsVerdict};
ghost use Rattle.sci_agree.specs.Compared.{WasGiven};

use sci_agree::{Comparing, Verdict};
use sci_io::{Failed, Sink};
use std::marker::Model;

/// A comparing sink. A call that is generic over sinks leaves the text with which it compares as it is, since its state begins with it.
#[derive(Drop)]
pub struct Against<'a> {
    out: Comparing<'a>,
}

impl<'a> Model for Against<'a> {
    ghost use Rattle.sci_judge.specs.Against.{Against};

    ghost Value = { Against };

    ghost view = { λ a. record { compared = a.out } };
}

impl<'a> Against<'a> {
    ghost use Rattle.std.specs.Prelude.{ℕ, List, None, false};
    ghost use Rattle.sci_agree.specs.Compared.{Compared};

    /// Compares with this text, from its beginning.
    pub fn new(text: &'a [u8]) -> Against<'a>
        ensures compared { result.compared ≡ record { text = text.now; at = 0; lines = 0; wrong = None; faults = 0; failing = false } }
    {
        Against {
            out: Comparing::new(text),
        }
    }

    /// The verdict on the text, once all of what is due was given, or a front of it up to a call that failed.
    pub fn verdict(&self) -> Verdict
        ensures { (due : List ℕ) → WasGiven due self.now.compared → IsVerdict due self.now.compared.text result }
    {
        self.out.verdict()
    }
}

impl<'a> Sink for Against<'a> {
    ghost use Rattle.sci_judge.specs.Against.{told};

    ghost state = { λ a. told a };

    fn put(&mut self, piece: &[u8]) -> Result<(), Failed> {
        self.out.put(piece)
    }

    fn flush(&mut self) -> Result<(), Failed> {
        self.out.flush()
    }

    fn take_unseen(&mut self) -> bool {
        false
    }
}
