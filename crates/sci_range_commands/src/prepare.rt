// What the words ask for, with the table that is told; nothing is written.
ghost use Rattle.std.specs.Prelude.{◌≡◌, map, string_bytes, MatchOption};
ghost use Rattle.sci_answers.specs.Answer.{Answer};
ghost use Rattle.sci_files.specs.Look.{stop_answer};
ghost use Rattle.sci_range_commands.specs.Due.{Spells, NoCommand};
ghost use Rattle.sci_range_commands.specs.Prepared.{IsAnswerOf, LooksAt, Reaches};

use sci_base::Refusal;
use sci_files::look::LookStop;
use sci_files::run_files::{RunFiles, look_at_run};
use sci_io::Folder;
use sci_net::Net;
use sci_ranges_find::{Found, find};
use sci_verdict::Checked;
use std::alloc::Global;

/// A net with a table of its ranges.
#[derive(Drop)]
pub struct Ranged {
    /// The net of a diagram that passes its rules.
    pub net: Net,
    /// The table that is told of it, for its input file's columns.
    pub found: Found,
}

/// What a call comes to before it writes.
#[derive(Drop)]
pub enum Prepared {
    /// The words aren't two.
    Usage,
    /// A file breaks a rule.
    Refused(Refusal),
    /// A file can't be read.
    ReadFault,
    /// Memory lacks.
    Memory,
    /// A table of ranges to be told.
    Ranges(Ranged),
}

/// The names of a diagram's file and of its input file, where the words are two.
fn files_named(words: &[String]) -> Option<(&str, &str)>
    ensures { MatchOption result (NoCommand (map string_bytes words.now)) (λ f. Spells (map string_bytes words.now) f.0.now f.1.now) }
{
    match words {
        [file, inputs_file] => Some((file.as_str(), inputs_file.as_str())),
        _ => None,
    }
}

/// Looks at both files, and finds a table.
fn for_files<F: Folder>(
    alloc: Global,
    folder: &mut F,
    file: &str,
    inputs_file: &str,
) -> Result<Prepared, LookStop>
    ensures looks { LooksAt (F.state folder.old) (F.state folder.new) file.now inputs_file.now result }
    ensures kept { (F.state folder.new).files ≡ (F.state folder.old).files }
{
    let files = look_at_run(alloc, folder, file, inputs_file)?;
    let RunFiles { checked, inputs } = files;
    let Checked { net, schedule } = checked;
    let found = find(alloc, &net, schedule.rows, &inputs)?;
    Ok(Prepared::Ranges(Ranged { net, found }))
}

/// What is told where a file gives nothing.
fn stopped(stop: LookStop) -> Prepared
    ensures { (a : Answer) → IsAnswerOf result a → a ≡ stop_answer stop }
{
    match stop {
        LookStop::Refused(refusal) => Prepared::Refused(refusal),
        LookStop::Fault => Prepared::ReadFault,
        LookStop::Memory => Prepared::Memory,
    }
}

/// Looks at the words and the files, and writes nothing.
pub fn prepare<F: Folder>(alloc: Global, words: &[String], folder: &mut F) -> Prepared
    ensures reaches { (a : Answer) → IsAnswerOf result a → Reaches (map string_bytes words.now) (F.state folder.old) (F.state folder.new) a }
    ensures kept { (F.state folder.new).files ≡ (F.state folder.old).files }
{
    match files_named(words) {
        None => Prepared::Usage,
        Some((file, inputs_file)) => match for_files(alloc, folder, file, inputs_file) {
            Ok(prepared) => prepared,
            Err(stop) => stopped(stop),
        },
    }
}
