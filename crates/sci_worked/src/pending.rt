use sci_events::Events;
use std::test::Fail;

// What fires, in order, as dates and sources.
fn all(mut events: Events) -> [(u64, u32); 4] {
    let mut fired = [(0, 0); 4];
    for at in 0..4 {
        if let Some(event) = events.next() {
            fired[at] = (event.date, event.source);
            events.remove(event);
        }
    }
    fired
}

#[test]
fn the_least_date_fires_first_and_of_one_date_the_one_programmed_first(
    rt: HostRuntime,
) -> Result<(), Fail> {
    let mut events = Events::new(rt.alloc(), 4)?;
    events.program(5, 1);
    events.program(5, 2);
    events.program(4, 3);
    let Some(first) = events.next() else {
        return Err(Fail::from("nothing is pending"));
    };
    assert_eq!(rt; (first.date, first.order, first.source), (4, 2, 3));
    assert_eq!(rt; all(events), [(4, 3), (5, 1), (5, 2), (0, 0)]);
    Ok(())
}

#[test]
fn a_source_has_one_event(rt: HostRuntime) -> Result<(), Fail> {
    let mut events = Events::new(rt.alloc(), 4)?;
    events.program(5, 1);
    events.program(5, 2);
    events.program(4, 3);
    // for the same date once more, which is behind source 2 then
    events.program(5, 1);
    assert_eq!(rt; all(events), [(4, 3), (5, 2), (5, 1), (0, 0)]);
    Ok(())
}

#[test]
fn nothing_is_pending_at_first(rt: HostRuntime) -> Result<(), Fail> {
    let events = Events::new(rt.alloc(), 0)?;
    assert!(rt; events.next().is_none());
    Ok(())
}
