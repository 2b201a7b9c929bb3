// Events that wait.
ghost use Rattle.std.specs.Prelude.{◌≡◌, OnOk, IfOk};
ghost use Rattle.sci_graph_table.specs.Sized.{IsAt};

use anyhow::bail;
use sci_agenda::agenda::Agenda;
use sci_agenda::chain::ChainAgenda;
use sci_agenda::wheel::WheelAgenda;
use std::alloc::Global;

/// Does what words say to an agenda of one chain, of so many sources.
pub fn show_chain(rt: &impl Print, alloc: Global, words: &[&str]) -> anyhow::Result<()> {
    let Some((ports, calls)) = words.split_first() else {
        bail!("no count of sources");
    };
    let ports: u32 = ports.parse()?;
    let Ok(mut agenda) = ChainAgenda::new(alloc, ports) else {
        bail!("out of memory");
    };
    show(rt, &mut agenda, ports, calls)
}

/// Does what words say to an agenda by a wheel, of so many sources; then prints how many calls changed a chain, and how many put an event.
pub fn show_wheel(rt: &impl Print, alloc: Global, words: &[&str]) -> anyhow::Result<()> {
    let Some((ports, calls)) = words.split_first() else {
        bail!("no count of sources");
    };
    let ports: u32 = ports.parse()?;
    let Ok(mut agenda) = WheelAgenda::new(alloc, ports) else {
        bail!("out of memory");
    };
    show(rt, &mut agenda, ports, calls)?;
    let (work, puts) = (agenda.work(), agenda.puts());
    print!(rt; " work {work} puts {puts}")?;
    Ok(())
}

/// Does what each word says to an agenda that has taken none: `date`, `take`, or as `5:2` the date and the source of an event that is put.
fn show<A: Agenda>(
    rt: &impl Print,
    agenda: &mut A,
    ports: u32,
    calls: &[&str],
) -> anyhow::Result<()>
    requires { IsAt (A.meaning agenda.old) 0 ports }
{
    let mut now = 0;
    for call in calls {
        now = obey(rt, agenda, now, ports, call)?;
    }
    Ok(())
}

/// Does what a word says to an agenda. The answer is the date of the last event that was taken.
fn obey<A: Agenda>(
    rt: &impl Print,
    agenda: &mut A,
    now: u64,
    ports: u32,
    call: &str,
) -> anyhow::Result<u64>
    requires { IsAt (A.meaning agenda.old) now ports }
    ensures { IfOk result (λ date. IsAt (A.meaning agenda.new) date ports) }
{
    match call {
        "date" => {
            let date = agenda.next_date();
            print!(rt; " {date:?}")?;
            Ok(now)
        }
        "take" => show_next(rt, agenda, now, ports),
        _ => {
            put(agenda, now, ports, call)?;
            Ok(now)
        }
    }
}

/// Takes the next event, and prints it. The answer is its date, or the date that it was.
#[tactic(auto, using(crate::proofs::Sizes::at_event, crate::proofs::Sizes::at_none))]
fn show_next<A: Agenda>(
    rt: &impl Print,
    agenda: &mut A,
    now: u64,
    ports: u32,
) -> anyhow::Result<u64>
    requires { IsAt (A.meaning agenda.old) now ports }
    ensures { IfOk result (λ date. IsAt (A.meaning agenda.new) date ports) }
{
    match agenda.take() {
        Some((date, source)) => {
            print!(rt; " {date}:{source}")?;
            Ok(date)
        }
        None => {
            print!(rt; " none")?;
            Ok(now)
        }
    }
}

/// Puts the event of a date and a source.
#[tactic(auto, using(crate::proofs::Sizes::at_put))]
fn put<A: Agenda>(agenda: &mut A, now: u64, ports: u32, call: &str) -> anyhow::Result<()>
    requires { IsAt (A.meaning agenda.old) now ports }
    ensures { OnOk result (IsAt (A.meaning agenda.new) now ports) }
{
    let Some((date, source)) = call.split_once(':') else {
        bail!("no such call: {call}");
    };
    let (date, source): (u64, u32) = (date.parse()?, source.parse()?);
    if source < 1 || source > ports || date < now || date - now >= 2147483648 {
        bail!("no such event may be put: {call}");
    }
    if agenda.is_pending(source) {
        bail!("an event of the source waits: {call}");
    }
    agenda.put(date, source);
    Ok(())
}
