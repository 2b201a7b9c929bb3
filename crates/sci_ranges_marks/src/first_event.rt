// The event that fires first.
ghost use Rattle.std.specs.Prelude.{◌≡◌, ◌<◌, ◌<ℤ◌, ◌^◌, [], length, pos, IfOk};
ghost use Rattle.sci_net.specs.Sources.{sources_of, source_of};
ghost use Rattle.sci_run.specs.Programs.{first_pending, with_delay};
ghost use Rattle.sci_ranges_marks.specs.First.{firing_at};
ghost use Rattle.sci_ranges_marks.specs.View.{IsFirstPlace};

use sci_base::NoMemory;
use sci_events::Events;
use sci_net::{Net, Source};
use std::alloc::Global;

// The first event of a source: its date, or -1.
fn firing(net: &Net, source: u32) -> i64
    requires { source < length (sources_of net.now) }
    ensures value { result ≡ firing_at net.now (source_of net.now source) }
    ensures small { result <ℤ pos (2 ^ 31) }
{
    match net.source(source) {
        Source::Start => -1,
        Source::Port(q) => {
            let firing = &net.spec(q.block).firing;
            if q.port as usize <= firing.len() {
                firing.get(q.port as usize - 1)
            } else {
                -1
            }
        }
    }
}

// Programs a source for this date, if it is one.
fn program(events: &mut Events, date: i64, source: u32)
    requires source { source < events.old.sources }
    requires few { events.old.pending.programmed < 2 ^ 63 }
    ensures { events.new ≡ record events.old { pending = with_delay 0 source date events.old.pending } }
{
    if let Ok(ticks) = u64::try_from(date) {
        events.program(ticks, source);
    }
}

// Programs the first event of each source that has one.
fn program_first(net: &Net, events: &mut Events)
    requires sources { events.old.sources ≡ length (sources_of net.now) }
    requires empty { events.old.pending ≡ record { events = []; programmed = 0 } }
    ensures { events.new ≡ record events.old { pending = first_pending net.now } }
{
    for source in 0..net.source_count() {
        program(events, firing(net, source), source);
    }
}

/// The place of the source whose event fires first, if any has one: that of the least date, of one date the first.
pub fn first_place(alloc: Global, net: &Net) -> Result<Option<u32>, NoMemory>
    ensures { IfOk result (λ f. IsFirstPlace net.now f) }
{
    let mut events = Events::new(alloc, net.source_count())?;
    program_first(net, &mut events);
    match events.next() {
        Some(event) => Ok(Some(event.source)),
        None => Ok(None),
    }
}
