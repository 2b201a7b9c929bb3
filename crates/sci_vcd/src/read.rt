// A whole text, line by line.

ghost use Rattle.std.specs.Prelude.{◌≡◌, [], ℕ, IfOk, IfErr};
ghost use Rattle.sci_vcd.specs.Waveforms.{Waveforms};
ghost use Rattle.sci_vcd.specs.Draft.{waveforms_of, IsLinked};
ghost use Rattle.sci_vcd.specs.Machine as machine;
ghost use Rattle.sci_vcd.specs.Machine.{state_of, at_stage};
ghost use Rattle.sci_vcd.specs.Blame.{Spells, IsFirstWrong, Answers, Accepts, Blames, blame_of};

use crate::Dump;
use crate::draft::Draft;
use crate::machine::{DumpReader, Stage, pass};
use sci_text::{TextStop, split_line};
use std::alloc::Global;

/// Why bytes are no dump.
#[derive(Drop)]
pub enum VcdStop {
    /// This line, counted from 1, is the first wrong one: the lines before it begin some dump's text, and with it they don't, or it has no LF
    /// or is missing.
    NotVcd(usize),
    Memory,
}

fn blame(stop: TextStop, line: usize) -> VcdStop
    ensures { result ≡ blame_of stop line }
{
    match stop {
        TextStop::Memory => VcdStop::Memory,
        TextStop::Other => VcdStop::NotVcd(line),
    }
}

/// What was read, where nothing is missing and nothing is left; else this line is blamed.
fn finish(reader: DumpReader, line: usize, rest: &[u8]) -> Result<Dump, VcdStop>
    requires linked { IsLinked reader.draft }
    requires stands { machine.Stands reader.stage (waveforms_of reader.draft) }
    ensures none { IfOk result (λ d. rest.now ≡ []) }
    ensures over { IfOk result (λ d. state_of reader ≡ at_stage Stage.Ticks d) }
    ensures blamed { IfErr result (λ e. e ≡ VcdStop.NotVcd line) }
    ensures missing { IfErr result (λ e. (w : Waveforms) → rest.now ≡ [] → state_of reader ≡ at_stage Stage.Ticks w → ⊥) }
{
    let DumpReader { stage, draft } = reader;
    if !rest.is_empty() {
        return Err(VcdStop::NotVcd(line));
    }
    match stage {
        Stage::Ticks => Ok(Dump { draft }),
        Stage::Timescale => Err(VcdStop::NotVcd(line)),
        Stage::Scope => Err(VcdStop::NotVcd(line)),
        Stage::Signals => Err(VcdStop::NotVcd(line)),
        Stage::Definitions => Err(VcdStop::NotVcd(line)),
        Stage::Origin => Err(VcdStop::NotVcd(line)),
        Stage::Dumpvars => Err(VcdStop::NotVcd(line)),
        Stage::First => Err(VcdStop::NotVcd(line)),
        Stage::Tick(_) => Err(VcdStop::NotVcd(line)),
    }
}

/// Reads all lines of a text.
fn read(alloc: Global, bytes: &[u8]) -> Result<Dump, VcdStop>
    ensures { Answers bytes.now result }
{
    let mut reader = DumpReader {
        stage: Stage::Timescale,
        draft: Draft::new(alloc),
    };
    let mut count = 0;
    let mut rest = bytes;
    while let Some((line, more)) = split_line(rest) {
        reader = match pass(reader, line) {
            Ok(reader) => reader,
            Err(stop) => return Err(blame(stop, count + 1)),
        };
        count += 1;
        rest = more;
    }
    finish(reader, count + 1, rest)
}

/// The dump that the bytes spell, exactly where they spell one; else the first wrong line.
pub fn read_vcd(alloc: Global, bytes: &[u8]) -> Result<Dump, VcdStop>
    ensures answer { Answers bytes.now result }

    // Each text for which a dump or a line is due gets that answer, and no other.
    ensures dump { (w : Waveforms) → Spells bytes.now w → Accepts result w }
    ensures line { (k : ℕ) → IsFirstWrong bytes.now k → Blames result k }
{
    read(alloc, bytes)
}
