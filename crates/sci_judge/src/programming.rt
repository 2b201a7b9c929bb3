// Programming events.
ghost use Rattle.std.specs.Prelude.{◌≡◌, ◌+◌, ◌-◌, ◌<◌, ◌^◌, ◌<ℤ◌, ℤ, pos, [], length, All};
ghost use Rattle.sci_net.specs.Sources.{sources_of, source_of};
ghost use Rattle.sci_reaction.specs.Equations.{AreInRange};
ghost use Rattle.sci_run.specs.Programs.{first_pending, with_delay};
ghost use Rattle.sci_places.specs.Flat.{values_at};
ghost use Rattle.sci_store.specs.Frame.{AreSeated};
ghost use Rattle.sci_judge.specs.Programming.{firing_at, after_source, after_sources, IsDelayed};

use sci_bank::Bank;
use sci_bank::library::Library;
use sci_events::Events;
use sci_kept::Kept;
use sci_net::{Net, Source};

// Programs a source after a delay of so many ticks, in place of the event of it that waits; a delay of -1 programs nothing.
fn program(events: &mut Events, date: u64, delay: i64, source: u32)
    requires source { source < events.old.sources }
    requires few { events.old.pending.programmed < 2 ^ 63 }
    requires small { date < 2 ^ 63 }
    requires delay { delay <ℤ pos (2 ^ 31) }
    ensures { events.new ≡ record events.old { pending = with_delay date source delay events.old.pending } }
{
    if let Ok(ticks) = u64::try_from(delay) {
        events.program(date + ticks, source);
    }
}

// The first event of a source: its date, or -1.
fn firing(net: &Net, source: u32) -> i64
    requires { source < length (sources_of net.now) }
    ensures value { result ≡ firing_at net.now (source_of net.now source) }
    ensures small { result <ℤ pos (2 ^ 31) }
{
    match net.source(source) {
        Source::Start => -1,
        Source::Port(q) => {
            let firing = &net.spec(q.block).firing;
            if q.port as usize <= firing.len() {
                firing.get(q.port as usize - 1)
            } else {
                -1
            }
        }
    }
}

/// The activation outputs with a first event program it.
pub fn program_first(net: &Net, events: &mut Events)
    requires sources { events.old.sources ≡ length (sources_of net.now) }
    requires empty { events.old.pending ≡ record { events = []; programmed = 0 } }
    ensures { events.new ≡ record events.old { pending = first_pending net.now } }
{
    for source in 1..net.source_count() {
        program(events, 0, firing(net, source), source);
    }
}

// The source at this place programs its next event, if it is an activation output of an active block.
fn program_source<B: Bank>(
    kept: &mut Kept,
    lib: &Library<B>,
    source: u32,
    date: u64,
    events: &mut Events,
)
    requires seated { AreSeated kept.old.fixed lib.now }
    requires source { IsDelayed kept.old.fixed.net source }
    requires values { AreInRange kept.old.fixed.net (values_at kept.old.fixed.net kept.old.store.values) }
    requires date { date < 2 ^ 63 }
    requires sources { events.old.sources ≡ length (sources_of kept.old.fixed.net) }
    requires few { events.old.pending.programmed < 2 ^ 63 }
    ensures programmed { events.new ≡ record events.old { pending = after_source kept.old date source events.old.pending } }
    ensures same { kept.new.store ≡ record kept.old.store { room = kept.new.store.room } }
    ensures room { length kept.new.store.room ≡ length kept.old.store.room }
    ensures fixed { kept.new.fixed ≡ kept.old.fixed }
{
    if let Source::Port(q) = kept.net().source(source) {
        if kept.is_active(q.block) {
            let delay = kept.delay(lib, q.block, q.port);
            program(events, date, delay, source);
        }
    }
}

/// The sources at these places program their next events, those that are activation outputs of active blocks.
pub fn program_all<B: Bank>(
    kept: &mut Kept,
    sources: &[u32],
    lib: &Library<B>,
    date: u64,
    events: &mut Events,
)
    requires seated { AreSeated kept.old.fixed lib.now }
    requires delayed { All (IsDelayed kept.old.fixed.net) sources.now }
    requires values { AreInRange kept.old.fixed.net (values_at kept.old.fixed.net kept.old.store.values) }
    requires date { date < 2 ^ 63 }
    requires sources { events.old.sources ≡ length (sources_of kept.old.fixed.net) }
    requires few { events.old.pending.programmed + length sources.now < 2 ^ 63 }
    ensures programmed { events.new ≡ record events.old { pending = after_sources kept.old date sources.now events.old.pending } }
    ensures same { kept.new.store ≡ record kept.old.store { room = kept.new.store.room } }
    ensures room { length kept.new.store.room ≡ length kept.old.store.room }
    ensures fixed { kept.new.fixed ≡ kept.old.fixed }
{
    for source in sources {
        program_source(kept, lib, *source, date, events);
    }
}
