ghost use Rattle.std.specs.Prelude.{◌≡◌, ◌≢◌, ◌≤◌, [], ◌∷◌, ℕ, codes, decimal, map, string_bytes, IfSome, IfNone};
ghost use Rattle.sci_base.specs.declared.limits.TheConstants.{TICKS, EVENTS};
ghost use Rattle.sci_words.specs.declared.command.Report.{Report};
ghost use Rattle.sci_words.specs.declared.words.Runs.{Runs};
ghost use Rattle.sci_words.specs.Words.{Parses, report_word, run_word};

use crate::command::{Command, Report, RunWords};
use itoa::Buffer;
use sci_base::limits;

/// The number up to this most that the text spells: decimal digits with no sign and no leading zero.
fn canonical(text: &str, most: u64) -> Option<u64>
    ensures some { IfSome result (λ n. text.now ≡ decimal n) }
    ensures small { IfSome result (λ n. n ≤ most) }
    ensures none { IfNone result ((n : ℕ) → n ≤ most → text.now ≢ decimal n) }
{
    match text.parse::<u64>() {
        Ok(n) => {
            if n > most {
                return None;
            }
            if Buffer::new().format(n) == text {
                Some(n)
            } else {
                None
            }
        }
        Err(_) => None,
    }
}

/// The last date and the most events of a run.
fn bounds_of(until: &str, limit: &str) -> Option<(u64, u64)>
    ensures some { IfSome result (λ b. (until.now ≡ decimal b.0) × (limit.now ≡ decimal b.1)) }
    ensures small { IfSome result (λ b. (b.0 ≤ TICKS) × (b.1 ≤ EVENTS)) }
    ensures none { IfNone result ((t n : ℕ) → t ≤ TICKS → n ≤ EVENTS → until.now ≡ decimal t → limit.now ≢ decimal n) }
{
    let until = canonical(until, limits::TICKS)?;
    let limit = canonical(limit, limits::EVENTS)?;
    Some((until, limit))
}

/// What is run on two files, the last date and the most events.
#[derive(Clone, Copy)]
pub enum Runs {
    Simulate,
    RunC,
    Dump,
}

fn runs_of(name: &str) -> Option<Runs>
    ensures some { IfSome result (λ r. name.now ≡ run_word r) }
    ensures none { IfNone result ((r : Runs) → name.now ≢ run_word r) }
{
    match name {
        "simulate" => Some(Runs::Simulate),
        "crun" => Some(Runs::RunC),
        "vcd" => Some(Runs::Dump),
        _ => None,
    }
}

#[tactic(auto, using(crate::proofs::Spoken::no_run))]
fn of_five<'a>(
    name: &str,
    file: &'a str,
    inputs_file: &'a str,
    until: &str,
    limit: &str,
) -> Option<Command<'a>>
    ensures { Parses (name.now ∷ file.now ∷ inputs_file.now ∷ until.now ∷ limit.now ∷ []) result }
{
    let runs = runs_of(name)?;
    let (until, limit) = bounds_of(until, limit)?;
    let run = RunWords {
        file,
        inputs_file,
        until,
        limit,
    };
    Some(match runs {
        Runs::Simulate => Command::Simulate(run),
        Runs::RunC => Command::RunC(run),
        Runs::Dump => Command::Dump(run),
    })
}

fn of_judge<'a>(
    file: &'a str,
    inputs_file: &'a str,
    trace: &'a str,
    until: &str,
    limit: &str,
) -> Option<Command<'a>>
    ensures { Parses (codes "judge" ∷ file.now ∷ inputs_file.now ∷ trace.now ∷ until.now ∷ limit.now ∷ []) result }
{
    let (until, limit) = bounds_of(until, limit)?;
    let run = RunWords {
        file,
        inputs_file,
        until,
        limit,
    };
    Some(Command::Judge(run, trace))
}

fn of_save<'a>(
    file: &'a str,
    inputs_file: &'a str,
    until: &str,
    limit: &str,
    reaction: &str,
) -> Option<Command<'a>>
    ensures { Parses (codes "save" ∷ file.now ∷ inputs_file.now ∷ until.now ∷ limit.now ∷ reaction.now ∷ []) result }
{
    let (until, limit) = bounds_of(until, limit)?;
    let reaction = canonical(reaction, limits::EVENTS + 1)?;
    if reaction == 0 {
        return None;
    }
    let run = RunWords {
        file,
        inputs_file,
        until,
        limit,
    };
    Some(Command::Save(run, reaction))
}

fn of_resume<'a>(
    file: &'a str,
    inputs_file: &'a str,
    saved: &'a str,
    until: &str,
    limit: &str,
) -> Option<Command<'a>>
    ensures { Parses (codes "resume" ∷ file.now ∷ inputs_file.now ∷ saved.now ∷ until.now ∷ limit.now ∷ []) result }
{
    let (until, limit) = bounds_of(until, limit)?;
    let run = RunWords {
        file,
        inputs_file,
        until,
        limit,
    };
    Some(Command::Resume(run, saved))
}

fn of_six<'a>(
    name: &str,
    diagram: &'a str,
    inputs: &'a str,
    fourth: &'a str,
    fifth: &str,
    sixth: &str,
) -> Option<Command<'a>>
    ensures { Parses (name.now ∷ diagram.now ∷ inputs.now ∷ fourth.now ∷ fifth.now ∷ sixth.now ∷ []) result }
{
    match name {
        "judge" => of_judge(diagram, inputs, fourth, fifth, sixth),
        "save" => of_save(diagram, inputs, fourth, fifth, sixth),
        "resume" => of_resume(diagram, inputs, fourth, fifth, sixth),
        _ => None,
    }
}

fn report_of(name: &str) -> Option<Report>
    ensures some { IfSome result (λ r. name.now ≡ report_word r) }
    ensures none { IfNone result ((r : Report) → name.now ≢ report_word r) }
{
    match name {
        "check" => Some(Report::Check),
        "map" => Some(Report::Map),
        "schedule" => Some(Report::Schedule),
        _ => None,
    }
}

#[tactic(auto, using(crate::proofs::Spoken::no_report))]
fn of_two<'a>(name: &str, diagram: &'a str) -> Option<Command<'a>>
    ensures { Parses (name.now ∷ diagram.now ∷ []) result }
{
    if name == "ccode" {
        return Some(Command::Code(diagram));
    }
    let report = report_of(name)?;
    Some(Command::Report(report, diagram))
}

#[tactic(auto, using(crate::proofs::Spoken::no_seed, crate::proofs::Spoken::no_size))]
fn of_bulk<'a>(seed: &str, size: &str) -> Option<Command<'a>>
    ensures { Parses (codes "bulk" ∷ seed.now ∷ size.now ∷ []) result }
{
    let seed = canonical(seed, 4_294_967_295)?;
    let size = canonical(size, 2000)?;
    if size == 0 {
        return None;
    }
    Some(Command::Bulk(seed as u32, size as u32))
}

#[tactic(auto, using(crate::proofs::Spoken::no_tick))]
fn of_dump_at<'a>(file: &'a str, tick: &str) -> Option<Command<'a>>
    ensures { Parses (codes "vcdat" ∷ file.now ∷ tick.now ∷ []) result }
{
    let tick = canonical(tick, limits::TICKS)?;
    Some(Command::DumpAt(file, tick))
}

#[tactic(auto, using(crate::proofs::Spoken::other_name))]
fn of_three<'a>(name: &str, second: &'a str, third: &str) -> Option<Command<'a>>
    ensures { Parses (name.now ∷ second.now ∷ third.now ∷ []) result }
{
    match name {
        "bulk" => of_bulk(second, third),
        "vcdat" => of_dump_at(second, third),
        _ => None,
    }
}

fn of_one<'a>(name: &str) -> Option<Command<'a>>
    ensures { Parses (name.now ∷ []) result }
{
    if name == "host" {
        Some(Command::Host)
    } else {
        None
    }
}

/// The command that the words spell.
pub fn parse(words: &[String]) -> Option<Command<'_>>
    ensures { Parses (map string_bytes words.now) result }
{
    match words {
        [name] => of_one(name.as_str()),
        [name, diagram] => of_two(name.as_str(), diagram.as_str()),
        [name, second, third] => of_three(name.as_str(), second.as_str(), third.as_str()),
        [name, diagram, inputs, until, limit] => of_five(
            name.as_str(),
            diagram.as_str(),
            inputs.as_str(),
            until.as_str(),
            limit.as_str(),
        ),
        [name, diagram, inputs, fourth, fifth, sixth] => of_six(
            name.as_str(),
            diagram.as_str(),
            inputs.as_str(),
            fourth.as_str(),
            fifth.as_str(),
            sixth.as_str(),
        ),
        _ => None,
    }
}
