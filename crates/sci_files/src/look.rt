// One file of a command: its bytes, its limit and its rules.
ghost use Rattle.std.specs.Prelude.{◌≡◌, ◌≤◌, []};
ghost use Rattle.sci_base.specs.declared.limits.TheConstants.{TEXT_BYTES};
ghost use Rattle.sci_answers.specs.Course.{third_slot};
ghost use Rattle.sci_answers.specs.Judge.{BreaksNothing};
ghost use Rattle.sci_files.specs.Judged.{IsBytes};
ghost use Rattle.sci_files.specs.Look.{IsFile, IsLooked, IsRefusal, IsTooLong};

use crate::rules::Rules;
use sci_base::{NoMemory, Refusal, Rule, Stop, limits};
use sci_io::{Folder, ReadEnd};
use std::alloc::Global;

/// The limit of a file that is judged, in bytes.
const LONGEST_TEXT: usize = limits::TEXT_BYTES;

/// Why a file's bytes don't come.
#[derive(Clone, Copy)]
pub enum FileStop {
    /// It has more bytes than the limit.
    TooLong,
    /// It could not be read.
    Failed,
    /// There was no memory for it.
    Memory,
}

/// Why a file gives nothing.
#[derive(Drop)]
pub enum LookStop {
    /// It breaks a rule.
    Refused(Refusal),
    /// It could not be read.
    Fault,
    /// There was no memory for it.
    Memory,
}

impl From<NoMemory> for LookStop {
    ghost use Rattle.sci_files.specs.declared.look.LookStop.TheVariants.{Memory};

    ghost from_gives = { λ _ e. e ≡ Memory };

    fn from(_e: NoMemory) -> LookStop {
        LookStop::Memory
    }
}

// The bytes of a file, which keep the limit.
#[tactic(auto, using(crate::proofs::Whole::may_ask))]
fn file<F: Folder>(
    alloc: Global,
    folder: &mut F,
    name: &str,
    limit: usize,
) -> Result<Vec<u8>, FileStop>
    requires { limit ≤ TEXT_BYTES }
    ensures file { IsFile limit (F.state folder.old) (F.state folder.new) name.now result }
    ensures kept { (F.state folder.new).files ≡ (F.state folder.old).files }
{
    match folder.read(alloc, name, limit) {
        Ok(bytes) => {
            if bytes.len() > limit {
                Err(FileStop::TooLong)
            } else {
                Ok(bytes)
            }
        }
        Err(ReadEnd::Failed) => Err(FileStop::Failed),
        Err(ReadEnd::Memory) => Err(FileStop::Memory),
    }
}

/// The refusal by a rule on a file as a whole, or on what is asked for, with these numbers.
pub fn refused_by(alloc: Global, rule: Rule, detail: &[i64]) -> LookStop
    ensures { IsRefusal (record { rule = rule; place = []; detail = detail.now }) result }
{
    match Stop::by(alloc, rule, &[], detail) {
        Stop::Refused(refusal) => LookStop::Refused(refusal),
        Stop::Memory => LookStop::Memory,
    }
}

// The refusal of a file that is too long: which one of the command it is, and its limit.
fn file_too_long(alloc: Global, which: u32, limit: usize) -> LookStop
    requires { limit ≤ TEXT_BYTES }
    ensures { IsTooLong (record { which = which; longest = limit }) result }
{
    refused_by(alloc, Rule::FileTooLong, &[i64::from(which), limit as i64])
}

/// The bytes of the file of this name, which is a third one and may be any text.
pub fn look_text<F: Folder>(alloc: Global, folder: &mut F, name: &str) -> Result<Vec<u8>, LookStop>
    ensures looked { IsLooked IsBytes BreaksNothing third_slot (F.state folder.old) (F.state folder.new) name.now result }
    ensures kept { (F.state folder.new).files ≡ (F.state folder.old).files }
{
    match file(alloc, folder, name, LONGEST_TEXT) {
        Ok(bytes) => Ok(bytes),
        Err(FileStop::TooLong) => Err(file_too_long(alloc, 3, LONGEST_TEXT)),
        Err(FileStop::Failed) => Err(LookStop::Fault),
        Err(FileStop::Memory) => Err(LookStop::Memory),
    }
}

/// What the rules make of the file of this name, which is the first, the second or a later one of its command.
pub fn look<F: Folder, R: Rules>(
    alloc: Global,
    folder: &mut F,
    name: &str,
    which: u32,
    rules: &R,
) -> Result<R::Made, LookStop>
    ensures looked { IsLooked (R.accepts rules.now) (R.breaks rules.now) (record { which = which; longest = R.LONGEST }) (F.state folder.old)
        (F.state folder.new) name.now result }
    ensures kept { (F.state folder.new).files ≡ (F.state folder.old).files }
{
    match file(alloc, folder, name, R::LONGEST) {
        Ok(bytes) => match rules.judge(alloc, &bytes) {
            Ok(made) => Ok(made),
            Err(Stop::Refused(refusal)) => Err(LookStop::Refused(refusal)),
            Err(Stop::Memory) => Err(LookStop::Memory),
        },
        Err(FileStop::TooLong) => Err(file_too_long(alloc, which, R::LONGEST)),
        Err(FileStop::Failed) => Err(LookStop::Fault),
        Err(FileStop::Memory) => Err(LookStop::Memory),
    }
}
