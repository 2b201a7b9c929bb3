// The pending events as a list.
ghost use Rattle.std.specs.Prelude.{◌≡◌, ◌<◌, ◌^◌, ◌==◌, not, filter, [], IfOk, option_map, vec_capacity};
ghost use Rattle.sci_pending.specs.Pending.{is_earlier, earlier, next, without, replaced};
ghost use Rattle.sci_events.specs.Events.{event_of, events_of};

use sci_base::NoMemory;
use std::alloc::Global;
use std::marker::Model;

/// An event that is pending.
#[derive(Clone, Copy, Drop)]
pub struct Event {
    /// When it fires, in ticks.
    pub date: u64,
    /// How many were programmed before it.
    pub order: u64,
    /// Whose event it is: the place of its activation output among the net's sources.
    pub source: u32,
}

/// The pending events, at most one of each source. All its memory is taken by `new`.
#[derive(Drop)]
pub struct Events {
    // as they were programmed
    events: Vec<Event>,
    programmed: u64,
    sources: u32,
}

impl Model for Events {
    ghost use Rattle.std.specs.Prelude.{vec_capacity};
    ghost use Rattle.sci_events.specs.Events.{events_of, Waiting, AreKept};

    ghost Value = { Waiting };

    ghost view = { λ e. record { pending = record { events = events_of e.events.items; programmed = e.programmed }; sources = e.sources } };

    ghost invariant = { λ e. AreKept e.sources (vec_capacity e.events) (events_of e.events.items) };
}

// Takes out the event of a source, if it has one.
fn drop_source(events: &mut Vec<Event>, source: u32)
    ensures others { events.new.items ≡ filter (λ e. not (e.source == source)) events.old.items }
    ensures room { vec_capacity events.new ≡ vec_capacity events.old }
{
    events.retain(|event| event.source != source);
}

// Takes out the event that was programmed in this order, if it is pending.
fn drop_order(events: &mut Vec<Event>, order: u64)
    ensures others { events.new.items ≡ filter (λ e. not (e.order == order)) events.old.items }
    ensures room { vec_capacity events.new ≡ vec_capacity events.old }
{
    events.retain(|event| event.order != order);
}

// Whether an event fires before another.
fn is_earlier(event: Event, other: Event) -> bool
    ensures { result ≡ is_earlier (event_of event) (event_of other) }
{
    event.date < other.date || (event.date == other.date && event.order < other.order)
}

// The one of them that fires first.
fn earlier(event: Event, other: Option<Event>) -> Event
    ensures { event_of result ≡ earlier (event_of event) (option_map event_of other) }
{
    match other {
        None => event,
        Some(first) => if is_earlier(event, first) {
            event
        } else {
            first
        },
    }
}

// The one that fires first.
fn first(events: &[Event]) -> Option<Event>
    ensures { option_map event_of result ≡ next (events_of events.now) }
{
    let mut first = None;
    for event in events {
        first = Some(earlier(*event, first));
    }
    first
}

impl Events {
    /// Nothing is pending, of so many sources.
    pub fn new(alloc: Global, sources: u32) -> Result<Events, NoMemory>
        ensures { IfOk result (λ e. e ≡ record { pending = record { events = []; programmed = 0 }; sources = sources }) }
    {
        let events = Vec::with_capacity(alloc, sources as usize)?;
        Ok(Events {
            events,
            programmed: 0,
            sources,
        })
    }

    /// Programs an event of a source for this date, in ticks, in place of the one that it has, if any.
    pub fn program(&mut self, date: u64, source: u32)
        requires source { source < self.old.sources }
        requires few { self.old.pending.programmed < 2 ^ 63 }
        ensures { self.new ≡ record self.old { pending = replaced self.old.pending date source } }
    {
        drop_source(&mut self.events, source);
        let order = self.programmed;
        self.programmed += 1;
        let event = Event {
            date,
            order,
            source,
        };
        self.events.push(event).unwrap();
    }

    /// The event that fires next: the one of the least date, and of those the one that was programmed first.
    pub fn next(&self) -> Option<Event>
        ensures { option_map event_of result ≡ next self.now.pending.events }
    {
        first(&self.events)
    }

    /// Takes out an event.
    pub fn remove(&mut self, event: Event)
        ensures { self.new ≡ record self.old { pending = record self.old.pending { events = without event.order self.old.pending.events } } }
    {
        drop_order(&mut self.events, event.order);
    }
}
