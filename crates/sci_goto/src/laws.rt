// What the definitions say of each other.
ghost use Rattle.sci_goto.specs.Laws.{NamesLaw, UntaggedLaw};

/// The tag objects are those that the reader takes for such.
pub fn names_law()
    ensures { NamesLaw }
{}

/// A diagram without tag objects keeps the rules on tags.
pub fn untagged_law()
    ensures { UntaggedLaw }
{}
