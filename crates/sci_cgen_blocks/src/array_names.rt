//! The names of the arrays that the blocks' texts use, and of scratch.
ghost use Rattle.std.specs.Prelude.{◌≡◌};
ghost use Rattle.sci_cgen_blocks.specs.Texts.{values as values_name, states as states_name, masks as masks_name, scratch_name};

use c_ast::Name;

/// The values of all outputs.
pub fn values() -> Name
    ensures { result ≡ values_name }
{
    Name {
        letter: b'v',
        number: 1,
    }
}

/// All states.
pub fn states() -> Name
    ensures { result ≡ states_name }
{
    Name {
        letter: b'v',
        number: 2,
    }
}

/// All masks.
pub fn masks() -> Name
    ensures { result ≡ masks_name }
{
    Name {
        letter: b'v',
        number: 3,
    }
}

/// A scratch number, counted from 1.
pub fn scratch(n: u32) -> Name
    ensures { result ≡ scratch_name n }
{
    Name {
        letter: b't',
        number: n,
    }
}
