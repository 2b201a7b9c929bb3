// Programming events.
ghost use Rattle.std.specs.Prelude.{◌≡◌, ℕ, ◌+◌, ◌-◌, ◌<◌, ◌^◌, ◌<ℤ◌, ℤ, pos, [], length, true, All};
ghost use Rattle.sci_forms.specs.Form.{has_delay};
ghost use Rattle.sci_net.specs.declared.Source.{Source};
ghost use Rattle.sci_net.specs.Sources.{sources_of, source_of};
ghost use Rattle.sci_net.specs.Parts.{Parts, IsBlock, spec_of};
ghost use Rattle.sci_reaction.specs.Equations.{AreInRange};
ghost use Rattle.sci_pending.specs.Pending.{Pending};
ghost use Rattle.sci_run.specs.Programs.{first_pending};
ghost use Rattle.sci_places.specs.Flat.{values_at};
ghost use Rattle.sci_agenda.specs.Firing.{IsPort};
ghost use Rattle.sci_store.specs.Marks.{mark_at};
ghost use Rattle.sci_store.specs.Blocks.{AreBlocksByNumber};
ghost use Rattle.sci_store.specs.Frame.{AreSeated};
ghost use Rattle.sci_sim.specs.Programming.{firing_at, Keeps, ProgramsSource, ProgramsBlock, ProgramsDelayed};

use sci_agenda::agenda::Agenda;
use sci_bank::Bank;
use sci_bank::library::Library;
use sci_kept::Kept;
use sci_net::{Net, Source};

/// Programs a source after a delay of so many ticks, in place of the event of it that waits; a delay of -1 programs nothing.
pub fn program<A: Agenda>(agenda: &mut A, date: u64, delay: i64, source: u32)
    requires port { IsPort (A.meaning agenda.old) source }
    requires small { date < 2 ^ 63 }
    requires delay { delay <ℤ pos (2 ^ 31) }
    requires keeps { (n : Parts) × (offset : ℕ) × (p : Pending) × Keeps n offset (date + offset) (A.meaning agenda.old) (A.puts agenda.old) p }
    ensures { ProgramsSource date delay source (A.meaning agenda.old) (A.puts agenda.old) (A.meaning agenda.new) (A.puts agenda.new) }
{
    if let Ok(ticks) = u64::try_from(delay) {
        if agenda.is_pending(source) {
            agenda.remove(source);
        }
        agenda.put(date + ticks, source);
    }
}

/// The first event of a source: its date, or -1.
fn firing(net: &Net, source: u32) -> i64
    requires { source < length (sources_of net.now) }
    ensures value { result ≡ firing_at net.now (source_of net.now source) }
    ensures small { result <ℤ pos (2 ^ 31) }
{
    match net.source(source) {
        Source::Start => -1,
        Source::Port(q) => {
            let firing = &net.spec(q.block).firing;
            if q.port as usize <= firing.len() {
                firing.get(q.port as usize - 1)
            } else {
                -1
            }
        }
    }
}

/// The activation outputs with a first event program it.
pub fn program_first<A: Agenda>(net: &Net, agenda: &mut A)
    requires empty { A.meaning agenda.old ≡ record { events = []; now = 0; ports = length (sources_of net.now) - 1 } }
    requires uncounted { A.puts agenda.old ≡ 0 }
    ensures { Keeps net.now 0 0 (A.meaning agenda.new) (A.puts agenda.new) (first_pending net.now) }
{
    for source in 1..net.source_count() {
        program(agenda, 0, firing(net, source), source);
    }
}

/// The activation outputs of a block program their next events.
fn program_block<A: Agenda, B: Bank>(
    kept: &mut Kept,
    lib: &Library<B>,
    block: u32,
    date: u64,
    agenda: &mut A,
)
    requires seated { AreSeated kept.old.fixed lib.now }
    requires block { IsBlock kept.old.fixed.net block }
    requires delayed { has_delay (spec_of kept.old.fixed.net block).kind ≡ true }
    requires active { (mark_at kept.old.store.marks block).active ≡ true }
    requires values { AreInRange kept.old.fixed.net (values_at kept.old.fixed.net kept.old.store.values) }
    requires date { date < 2 ^ 63 }
    requires keeps { (offset : ℕ) × (p : Pending) × Keeps kept.old.fixed.net offset (date + offset) (A.meaning agenda.old) (A.puts agenda.old) p }
    ensures programmed { ProgramsBlock kept.old block date (A.meaning agenda.old) (A.puts agenda.old) (A.meaning agenda.new) (A.puts agenda.new) }
    ensures same { kept.new.store ≡ record kept.old.store { room = kept.new.store.room } }
    ensures room { length kept.new.store.room ≡ length kept.old.store.room }
    ensures fixed { kept.new.fixed ≡ kept.old.fixed }
{
    kept.well_formed();
    let seat = kept.seat(block);
    for port in 0..kept.net().spec(block).evtout {
        let delay = kept.delay(lib, block, port + 1);
        program(agenda, date, delay, seat.first_source + port);
    }
}

/// The active ones of these blocks, which have delays, program their activation outputs, by block and port.
pub fn program_all<A: Agenda, B: Bank>(
    kept: &mut Kept,
    blocks: &[u32],
    lib: &Library<B>,
    date: u64,
    agenda: &mut A,
)
    requires seated { AreSeated kept.old.fixed lib.now }
    requires blocks { AreBlocksByNumber kept.old.fixed.net blocks.now }
    requires delays { All (λ b. has_delay (spec_of kept.old.fixed.net b).kind ≡ true) blocks.now }
    requires values { AreInRange kept.old.fixed.net (values_at kept.old.fixed.net kept.old.store.values) }
    requires date { date < 2 ^ 63 }
    requires keeps { (offset : ℕ) × (p : Pending) × Keeps kept.old.fixed.net offset (date + offset) (A.meaning agenda.old) (A.puts agenda.old) p }
    ensures programmed { ProgramsDelayed kept.old blocks.now date (A.meaning agenda.old) (A.puts agenda.old) (A.meaning agenda.new) (A.puts agenda.new) }
    ensures same { kept.new.store ≡ record kept.old.store { room = kept.new.store.room } }
    ensures room { length kept.new.store.room ≡ length kept.old.store.room }
    ensures fixed { kept.new.fixed ≡ kept.old.fixed }
{
    kept.well_formed();
    for block in blocks {
        if kept.is_active(*block) {
            program_block(kept, lib, *block, date, agenda);
        }
    }
}
