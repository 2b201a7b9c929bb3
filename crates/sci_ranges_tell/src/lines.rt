// Lines of a word and numbers.
ghost use Rattle.std.specs.Prelude.{◌++◌, ◌<◌, codes, length};
ghost use Rattle.std.specs.Fmt.{signed_decimal};
ghost use Rattle.sci_io.specs.Taken.{Writes};
ghost use Rattle.sci_trace.specs.Lines.{numbers};

use itoa::Buffer;
use sci_io::{Failed, Sink, put_all};

/// Block, port and element, counted from 1.
#[derive(Clone, Copy, Drop)]
pub struct Place {
    pub block: u32,
    pub port: u32,
    pub element: u32,
}

fn put_number<S: Sink>(value: i64, out: &mut S) -> Result<(), Failed>
    ensures { Writes (S.state out.old) (S.state out.new) (codes " " ++ signed_decimal value) result }
{
    let mut digits = Buffer::new();
    put_all(out, &[" ".as_bytes(), digits.format(value).as_bytes()])
}

fn put_numbers<S: Sink>(values: &[i64], out: &mut S) -> Result<(), Failed>
    ensures { Writes (S.state out.old) (S.state out.new) (numbers values.now) result }
{
    for value in values {
        put_number(*value, out)?;
    }
    out.put("\n".as_bytes())
}

/// Writes a word and the numbers, each behind a space, as one line. It fails where the sink does.
pub fn put_line<S: Sink>(word: &str, values: &[i64], out: &mut S) -> Result<(), Failed>
    requires { 0 < length word.now }
    ensures { Writes (S.state out.old) (S.state out.new) (word.now ++ numbers values.now) result }
{
    out.put(word.as_bytes())?;
    put_numbers(values, out)
}
