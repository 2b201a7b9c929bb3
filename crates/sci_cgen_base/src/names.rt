//! The names of a generated program, beside those of its blocks and of its table of due dates.
ghost use Rattle.std.specs.Prelude.{◌≡◌};
ghost use Rattle.sci_program.specs.Names.{actives as actives_name, branches as branches_name, limit_name, until_name, fired_name, halt_name, block_name};
ghost use Rattle.sci_program.specs.Names.{source_name, clear_name, settle_name, choose_name, event_name};

use c_ast::Name;

/// By block whether it is active.
pub fn actives() -> Name
    ensures { result ≡ actives_name }
{
    Name {
        letter: b'v',
        number: 4,
    }
}

/// By block the branch that it has taken, 0 for none.
pub fn branches() -> Name
    ensures { result ≡ branches_name }
{
    Name {
        letter: b'v',
        number: 5,
    }
}

/// The bound on events.
pub fn limit() -> Name
    ensures { result ≡ limit_name }
{
    Name {
        letter: b'n',
        number: 1,
    }
}

/// The bound on time.
pub fn until() -> Name
    ensures { result ≡ until_name }
{
    Name {
        letter: b'u',
        number: 1,
    }
}

/// How many events have fired.
pub fn fired() -> Name
    ensures { result ≡ fired_name }
{
    Name {
        letter: b'i',
        number: 1,
    }
}

/// Whether a HALT_f was active.
pub fn halt() -> Name
    ensures { result ≡ halt_name }
{
    Name {
        letter: b'h',
        number: 1,
    }
}

/// The function of a block.
pub fn block_function(block: u32) -> Name
    ensures { result ≡ block_name block }
{
    Name {
        letter: b'f',
        number: block,
    }
}

/// The function of a source, by its place in the net's list.
pub fn source_function(source: u32) -> Name
    ensures { result ≡ source_name source }
{
    Name {
        letter: b's',
        number: source,
    }
}

/// The function that clears what the last reaction left.
pub fn clear() -> Name
    ensures { result ≡ clear_name }
{
    Name {
        letter: b'g',
        number: 1,
    }
}

/// The function of what follows a reaction's values.
pub fn settle() -> Name
    ensures { result ≡ settle_name }
{
    Name {
        letter: b'g',
        number: 2,
    }
}

/// The function that chooses the next event.
pub fn choose() -> Name
    ensures { result ≡ choose_name }
{
    Name {
        letter: b'g',
        number: 3,
    }
}

/// The function of one event.
pub fn event() -> Name
    ensures { result ≡ event_name }
{
    Name {
        letter: b'g',
        number: 4,
    }
}
