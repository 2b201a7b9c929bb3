// The verdict on a trace, as it is told.
ghost use Rattle.std.specs.Prelude.{◌≡◌, ◌++◌, codes, decimal};
ghost use Rattle.sci_io.specs.Taken.{Writes};
ghost use Rattle.sci_deliver.specs.Deliver.{Gives};
ghost use Rattle.sci_answers.specs.Judge.{verdict_line, verdict_status};

use itoa::Buffer;
use sci_agree::Verdict;
use sci_io::{Failed, Sink, put_all};

fn put_numbered<O: Sink>(word: &str, number: u64, out: &mut O) -> Result<(), Failed>
    ensures { Writes (O.state out.old) (O.state out.new) (word.now ++ (decimal number ++ codes "\n")) result }
{
    let mut digits = Buffer::new();
    put_all(
        out,
        &[
            word.as_bytes(),
            digits.format(number).as_bytes(),
            "\n".as_bytes(),
        ],
    )
}

#[tactic(auto, unfolding(sci_answers::specs::Judge::verdict_line))]
fn put_verdict<O: Sink>(verdict: Verdict, out: &mut O) -> Result<(), Failed>
    ensures { Writes (O.state out.old) (O.state out.new) (verdict_line verdict) result }
{
    match verdict {
        Verdict::Yes(lines) => put_numbered("yes ", lines, out),
        Verdict::No(line) => put_numbered("no ", line, out),
    }
}

/// Writes the verdict and gives it on.
pub fn give_verdict<O: Sink>(verdict: Verdict, out: &mut O) -> Result<(), Failed>
    ensures { Gives (O.state out.old) (O.state out.new) (verdict_line verdict) result }
{
    put_verdict(verdict, out)?;
    out.flush()
}

/// The status of a verdict: 0 where the text is the trace, and 8 where it isn't.
pub fn status_of(verdict: Verdict) -> u8
    ensures { result ≡ verdict_status verdict }
{
    match verdict {
        Verdict::Yes(_) => 0,
        Verdict::No(_) => 8,
    }
}
