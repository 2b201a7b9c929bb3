ghost use Rattle.std.specs.Prelude.{◌≡◌, map, string_bytes};
ghost use Rattle.sci_range_commands.specs.Meets.{MeetsRanges};

use crate::deliver::deliver;
use crate::prepare::prepare;
use sci_io::{Folder, Sink};
use std::alloc::Global;

/// Does what the words ask for, and gives the status: 0 where a table was told, 1 where a rule is broken, 2 where the words aren't two, 3 where a
/// file could not be read, 4 where out or err could not be written, 5 where memory lacked.
pub fn top<F: Folder, O: Sink, E: Sink>(
    alloc: Global,
    words: &[String],
    folder: &mut F,
    out: &mut O,
    err: &mut E,
) -> u8
    ensures meets { MeetsRanges (map string_bytes words.now) (F.state folder.old) (F.state folder.new) (O.state out.old) (O.state out.new)
        (E.state err.old) (E.state err.new) result }
    ensures kept { (F.state folder.new).files ≡ (F.state folder.old).files }
{
    let prepared = prepare(alloc, words, folder);
    deliver(prepared, out, err)
}
