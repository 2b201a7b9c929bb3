// Relations on numbers, as one block depends on another: chains, loops, the depth of a number, and that a relation without a
// loop is well founded. The definitions and lemmas are of every relation; the laws here say the same of every one that a test
// decides.
ghost use Rattle.sci_loop.specs.Laws.{NoLoopIsGrounded, GroundedHasNoLoop, ChainsAreShort, HasDepth, OneDepth, DepthRises, LoopsTurn};

/// Where no loop is among the numbers below a bound, every chain of needs that begins at one of them ends, and has no more
/// needs than there are numbers.
pub fn no_loop_is_grounded()
    ensures grounded { NoLoopIsGrounded }
    ensures short { ChainsAreShort }
{}

/// Where every chain of needs ends there is no loop.
pub fn grounded_has_no_loop()
    ensures { GroundedHasNoLoop }
{}

/// Where there is no loop each number has one depth, and what it needs has a smaller one.
pub fn depths()
    ensures some { HasDepth }
    ensures one { OneDepth }
    ensures rise { DepthRises }
{}

/// A loop may be listed from any of its numbers.
pub fn loops_turn()
    ensures { LoopsTurn }
{}
