//! A text held against the one that is due, which is written piece by piece and kept nowhere: how many leading lines agree, and the
//! first line that doesn't.
#![tactic(auto)]

ghost use Rattle.sci_agree.specs.Laws.{OneVerdict, YesIsDue, NoIsFirst};

mod comparing;
mod verdict;

pub use comparing::Comparing;
pub use verdict::Verdict;

/// A text has at most one verdict.
pub fn one_verdict()
    ensures { OneVerdict }
{}

/// A text with the verdict Yes is the one that is due, and has so many lines. Where the verdict is No, all lines before the one that it
/// names are equal, and that one isn't: one of the two texts lacks it, or both have another one there.
pub fn verdicts_name_the_line()
    ensures yes { YesIsDue }
    ensures no { NoIsFirst }
{}
