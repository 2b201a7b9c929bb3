// Lines of a word and numbers.
ghost use Rattle.std.specs.Prelude.{◌<◌, ◌++◌, codes, length};
ghost use Rattle.sci_io.specs.Taken.{Writes};
ghost use Rattle.sci_print.specs.Numbers.{spaced, all_spaced, numbers_line};

use itoa::Buffer;
use sci_io::{Failed, Sink, put_all};

fn put_number<S: Sink>(number: u64, out: &mut S) -> Result<(), Failed>
    ensures { Writes (S.state out.old) (S.state out.new) (spaced number) result }
{
    let mut digits = Buffer::new();
    put_all(out, &[" ".as_bytes(), digits.format(number).as_bytes()])
}

fn put_numbers<S: Sink>(numbers: &[u64], out: &mut S) -> Result<(), Failed>
    ensures { Writes (S.state out.old) (S.state out.new) (all_spaced numbers.now) result }
{
    for number in numbers {
        put_number(*number, out)?;
    }
    Ok(())
}

fn put_rest<S: Sink>(numbers: &[u64], out: &mut S) -> Result<(), Failed>
    ensures { Writes (S.state out.old) (S.state out.new) (all_spaced numbers.now ++ codes "\n") result }
{
    put_numbers(numbers, out)?;
    out.put("\n".as_bytes())
}

/// Writes a word and the numbers, each behind a space, as one line. It fails where the sink does.
pub fn put_line<S: Sink>(word: &str, numbers: &[u64], out: &mut S) -> Result<(), Failed>
    requires { 0 < length word.now }
    ensures { Writes (S.state out.old) (S.state out.new) (numbers_line word.now numbers.now) result }
{
    out.put(word.as_bytes())?;
    put_rest(numbers, out)
}
