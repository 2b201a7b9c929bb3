ghost use Rattle.std.specs.Prelude.{◌++◌, codes, decimal};
ghost use Rattle.sci_base.specs.Plain.{violation_of};
ghost use Rattle.sci_io.specs.Taken.{Writes};
ghost use Rattle.sci_print.specs.Line.{place_text, step_text, steps_text, detail_text, details_text, head_text, refused_line};

use itoa::Buffer;
use sci_base::Refusal;
use sci_io::{Failed, Sink, put_all};

fn put_detail<S: Sink>(n: i64, err: &mut S) -> Result<(), Failed>
    ensures { Writes (S.state err.old) (S.state err.new) (detail_text n) result }
{
    let mut number = Buffer::new();
    put_all(err, &[" ".as_bytes(), number.format(n).as_bytes()])
}

fn put_details<S: Sink>(ns: &[i64], err: &mut S) -> Result<(), Failed>
    ensures { Writes (S.state err.old) (S.state err.new) (details_text ns.now) result }
{
    for n in ns {
        put_detail(*n, err)?;
    }
    Ok(())
}

fn put_step<S: Sink>(p: u32, err: &mut S) -> Result<(), Failed>
    ensures { Writes (S.state err.old) (S.state err.new) (step_text p) result }
{
    let mut number = Buffer::new();
    put_all(err, &["/".as_bytes(), number.format(p).as_bytes()])
}

fn put_steps<S: Sink>(ps: &[u32], err: &mut S) -> Result<(), Failed>
    ensures { Writes (S.state err.old) (S.state err.new) (steps_text ps.now) result }
{
    for p in ps {
        put_step(*p, err)?;
    }
    Ok(())
}

fn put_first<S: Sink>(p: u32, err: &mut S) -> Result<(), Failed>
    ensures { Writes (S.state err.old) (S.state err.new) (decimal p) result }
{
    let mut number = Buffer::new();
    put_all(err, &[number.format(p).as_bytes()])
}

/// Writes a place: the positions with a slash between two, or a minus sign for the file as a whole.
pub fn put_place<S: Sink>(path: &[u32], err: &mut S) -> Result<(), Failed>
    ensures { Writes (S.state err.old) (S.state err.new) (place_text path.now) result }
{
    match path {
        [] => err.put("-".as_bytes()),
        [p, ps @ ..] => {
            put_first(*p, err)?;
            put_steps(ps, err)
        }
    }
}

fn put_head<S: Sink>(refusal: &Refusal, err: &mut S) -> Result<(), Failed>
    ensures { Writes (S.state err.old) (S.state err.new) (head_text (violation_of refusal.now)) result }
{
    let mut number = Buffer::new();
    put_all(
        err,
        &[
            "refused ".as_bytes(),
            number.format(refusal.rule.number()).as_bytes(),
            " ".as_bytes(),
            refusal.rule.name().as_bytes(),
            " at ".as_bytes(),
        ],
    )
}

fn put_end<S: Sink>(refusal: &Refusal, err: &mut S) -> Result<(), Failed>
    ensures { Writes (S.state err.old) (S.state err.new) (details_text refusal.now.detail.items ++ codes "\n") result }
{
    put_details(refusal.detail.as_slice(), err)?;
    err.put("\n".as_bytes())
}

fn put_where<S: Sink>(refusal: &Refusal, err: &mut S) -> Result<(), Failed>
    ensures { Writes (S.state err.old) (S.state err.new) (place_text refusal.now.place.path.items
        ++ (details_text refusal.now.detail.items ++ codes "\n")) result }
{
    put_place(refusal.place.path.as_slice(), err)?;
    put_end(refusal, err)
}

/// Writes the line of a refusal.
pub fn put_refused<S: Sink>(refusal: &Refusal, err: &mut S) -> Result<(), Failed>
    ensures { Writes (S.state err.old) (S.state err.new) (refused_line (violation_of refusal.now)) result }
{
    put_head(refusal, err)?;
    put_where(refusal, err)
}
