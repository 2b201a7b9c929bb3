ghost use Rattle.std.specs.Prelude.{◌≡◌, map, string_bytes};
ghost use Rattle.sci_bank.specs.Library.{IsFull};
ghost use Rattle.sci_commands.specs.Headline.{Meets};
ghost use Rattle.sci_commands.specs.Defined.{WritesDefined};

use sci_bank::Bank;
use sci_bank::library::Library;
use sci_deliver::deliver::deliver;
use sci_io::{Folder, Sink};
use sci_prepare::prepare::prepare;
use std::alloc::Global;

/// Does what the words ask for, and gives the status: 0 where it was done, 1 where a rule is broken, 2 where the words are
/// no command, 3 where a file could not be read, 4 where out or err could not be written, 5 where memory lacked, 6 where
/// the run stopped, 7 where a C program has no meaning, 8 where a file is not the trace. Runs go over the banks of the library, which are the
/// banks of all kinds behind the call too; those of `simulate`, `vcd` and `bulk` have counted the blocks that were active. Of the texts that are due of
/// `ccode` it is the one that `sci_program` defines.
pub fn top<F: Folder, O: Sink, E: Sink, B: Bank>(
    alloc: Global,
    words: &[String],
    folder: &mut F,
    out: &mut O,
    err: &mut E,
    lib: &mut Library<B>,
) -> u8
    requires { IsFull lib.old }
    ensures meets { Meets (map string_bytes words.now) (F.state folder.old) (F.state folder.new) (O.state out.old) (O.state out.new)
        (E.state err.old) (E.state err.new) lib.new result }
    ensures defined { WritesDefined (map string_bytes words.now) (F.state folder.old) (F.state folder.new) (O.state out.old) (O.state out.new)
        (E.state err.old) (E.state err.new) result }
    ensures kept { (F.state folder.new).files ≡ (F.state folder.old).files }
    ensures full { IsFull lib.new }
{
    let prepared = prepare(alloc, words, folder, lib);
    deliver(alloc, prepared, out, err, lib)
}
