// The lines of pending events.
ghost use Rattle.std.specs.Prelude.{◌≡◌, ◌≤◌, ◌<◌, ◌^◌, length, IfOk, IfSome};
ghost use Rattle.sci_base.specs.declared.limits.TheConstants.{TICKS};
ghost use Rattle.sci_net.specs.Parts.{spec_of};
ghost use Rattle.sci_net.specs.Sources.{block_sources, sources_of};
ghost use Rattle.sci_save.specs.Reading.{Gives, befores, is_port, free_place, event_at, pending_at};

use crate::bounds::Bounds;
use crate::line::line;
use crate::stop::LineStop;
use sci_base::{NoMemory, limits};
use sci_net::{Net, Source};
use sci_text::after_text;
use std::alloc::Global;

/// How many sources a block is.
fn source_count(net: &Net, block: u32) -> u32
    requires least { 1 ≤ block }
    requires most { block ≤ length net.now.specs }
    ensures { result ≡ length (block_sources block (spec_of net.now block)) }
{
    let spec = net.spec(block);
    if spec.kind.is_sync() { 0 } else { spec.evtout }
}

/// How many activation outputs before those of each block are sources.
fn sources_before(alloc: Global, net: &Net) -> Result<Vec<u32>, NoMemory>
    ensures { IfOk result (λ v. v.items ≡ befores 0 1 net.now.specs) }
{
    net.well_formed();
    let mut counts = Vec::new(alloc);
    let mut count = 0;
    for block in 0..net.len() {
        counts.push(count)?;
        count += source_count(net, block + 1);
    }
    Ok(counts)
}

/// Whether a source is this activation output.
fn is_port(source: Source, block: u64, port: u64) -> bool
    ensures { result ≡ is_port block port source }
{
    match source {
        Source::Start => false,
        Source::Port(output) => u64::from(output.block) == block && u64::from(output.port) == port,
    }
}

/// The place of an activation output among the sources, where it is one and isn't marked.
fn free_place(net: &Net, before: &[u32], marks: &[bool], block: u64, port: u64) -> Option<u32>
    requires before { before.now ≡ befores 0 1 net.now.specs }
    requires marks { length marks.now ≡ length (sources_of net.now) }
    requires least { 1 ≤ block }
    requires most { block ≤ length net.now.specs }
    requires port { port < 2 ^ 32 }
    ensures place { result ≡ free_place net.now marks.now block port }
    ensures within { IfSome result (λ k. k < length marks.now) }
{
    net.well_formed();
    let place = before[block as usize - 1] as usize + port as usize;
    if place < marks.len() && !marks[place] && is_port(net.source(place as u32), block, port) {
        Some(place as u32)
    } else {
        None
    }
}

/// The event of a line, whose date is from `last` to `near`, and whose source isn't marked.
#[tactic(auto, unfolding(crate::specs::Reading::event_at))]
fn event<'a>(
    alloc: Global,
    net: &Net,
    before: &[u32],
    marks: &[bool],
    near: u64,
    last: u64,
    bytes: &'a [u8],
) -> Result<((u64, u32), &'a [u8]), LineStop>
    requires before { before.now ≡ befores 0 1 net.now.specs }
    requires marks { length marks.now ≡ length (sources_of net.now) }
    requires near { near < 2 ^ 63 }
    requires last { last < 2 ^ 63 }
    ensures gives { Gives (λ x. (x.0, x.1.now)) result (event_at net.now near last marks.now bytes.now) }
    ensures later { IfOk result (λ x. x.0.0 ≤ near) }
    ensures within { IfOk result (λ x. x.0.1 < length marks.now) }
{
    let bounds = [
        Bounds {
            low: last as i64,
            high: near as i64,
        },
        Bounds {
            low: 1,
            high: i64::from(net.len()),
        },
        Bounds {
            low: 1,
            high: 4_294_967_295,
        },
    ];
    let (numbers, rest) = line(alloc, b"pend", &bounds, bytes)?;
    let block = numbers[1].unsigned_abs();
    let port = numbers[2].unsigned_abs();
    match free_place(net, before, marks, block, port) {
        Some(place) => Ok(((numbers[0].unsigned_abs(), place), rest)),
        None => Err(LineStop::Broken(bytes.len())),
    }
}

/// All pending events, and the last line.
#[tactic(auto, unfolding(crate::specs::Reading::pending_at))]
pub fn pending<'a>(
    alloc: Global,
    net: &Net,
    now: u64,
    bytes: &'a [u8],
) -> Result<(Vec<(u64, u32)>, &'a [u8]), LineStop>
    requires { now ≤ TICKS }
    ensures { Gives (λ x. (x.0.items, x.1.now)) result (pending_at net.now now bytes.now) }
{
    let before = sources_before(alloc, net)?;
    let mut marks = vec![in alloc; false; net.source_count() as usize]?;
    let near = now + limits::DELAY as u64;
    let mut events = Vec::new(alloc);
    let mut last = now;
    let mut rest = bytes;
    for _ in 0..bytes.len() {
        match after_text(rest, b"done\n") {
            Some(end) => return Ok((events, end)),
            None => {
                let (next, behind) = event(alloc, net, &before, &marks, near, last, rest)?;
                marks[next.1 as usize] = true;
                last = next.0;
                events.push(next)?;
                rest = behind;
            }
        }
    }
    Err(LineStop::Broken(rest.len()))
}
