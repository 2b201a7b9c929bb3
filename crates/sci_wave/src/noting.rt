// Noting what the outputs of blocks hold.
ghost use Rattle.std.specs.Prelude.{◌≡◌, ℕ, ◌<◌, ◌≤◌, ◌+◌, List, ℤ, length, slice_index, All, true};
ghost use Rattle.sci_net.specs.Parts.{IsBlock};
ghost use Rattle.sci_net.specs.Net.{IsNet};
ghost use Rattle.sci_places.specs.Flat.{values_at, IsWhole};
ghost use Rattle.sci_run.specs.Run.{State};
ghost use Rattle.sci_bank.specs.Bank.{Meaning};
ghost use Rattle.sci_store.specs.Marks.{mark_at};
ghost use Rattle.sci_sim.specs.At.{IsAt};
ghost use Rattle.sci_wave.specs.Noted.{IsOf, IsMemoryThere, NotesActive, IsActiveRun, AreNotedTo, with_run, holds_there};

use sci_sim::Ready;
use sci_vcd::VcdOut;

/// Notes what the outputs of all blocks hold.
pub fn note_all(ready: &Ready, dump: &mut VcdOut)
    requires net { IsNet ready.now.fixed.net }
    requires of { IsOf ready.now.fixed.net dump.old }
    requires fits { IsMemoryThere ready.now }
    ensures rest { dump.new ≡ record dump.old { noted = dump.new.noted } }
    ensures noted { (b : ℕ) → IsBlock ready.entry.now.fixed.net b → values_at ready.entry.now.fixed.net dump.new.noted b ≡ holds_there ready.entry.now b }
{
    dump.well_formed();
    dump.note_values(0, ready.values());
}

/// Notes what the outputs of blocks hold, from one block to another.
fn note_run(ready: &Ready, dump: &mut VcdOut, first: u32, last: u32)
    requires first { IsBlock ready.now.fixed.net first }
    requires last { IsBlock ready.now.fixed.net last }
    requires order { first ≤ last }
    requires net { IsNet ready.now.fixed.net }
    requires of { IsOf ready.now.fixed.net dump.old }
    requires fits { IsMemoryThere ready.now }
    ensures noted { dump.new ≡ with_run ready.entry.now dump.old first last }
    ensures whole { IsWhole ready.entry.now.fixed.net ready.entry.now.store.values }
{
    let start = dump.before(first);
    let end = dump.before(last + 1);
    dump.note_values(start, &ready.values()[start as usize..end as usize]);
}

/// Whether a block follows upon another by number, and was active in the last reaction.
fn follows(ready: &Ready, before: u32, block: u32) -> bool
    requires net { IsNet ready.now.fixed.net }
    requires before { IsBlock ready.now.fixed.net before }
    requires block { IsBlock ready.now.fixed.net block }
    ensures number { result ≡ true → block ≡ before + 1 }
    ensures active { result ≡ true → (mark_at ready.entry.now.store.marks block).active ≡ true }
{
    block == before + 1 && ready.is_active(block)
}

/// The place behind the active blocks whose numbers adjoin, from a place on at which one stands.
fn run_end(ready: &Ready, blocks: &[u32], at: usize) -> usize
    requires at { at < length blocks.now }
    requires active { (mark_at ready.now.store.marks (slice_index blocks.now at)).active ≡ true }
    requires net { IsNet ready.now.fixed.net }
    requires blocks { All (IsBlock ready.now.fixed.net) blocks.now }
    ensures { IsActiveRun ready.entry.now blocks.now at result }
{
    for end in at + 1..blocks.len() {
        if !follows(ready, blocks[end - 1], blocks[end]) {
            return end;
        }
    }
    blocks.len()
}

/// Notes what the outputs of the active blocks hold whose numbers adjoin, from a place on; none where the first isn't active. The answer is the place
/// behind those that were looked at.
fn note_from(ready: &Ready, dump: &mut VcdOut, blocks: &[u32], at: usize) -> usize
    requires at { at < length blocks.now }
    requires blocks { All (IsBlock ready.now.fixed.net) blocks.now }
    requires net { IsNet ready.now.fixed.net }
    requires of { IsOf ready.now.fixed.net dump.old }
    requires fits { IsMemoryThere ready.now }
    ensures least { at < result }
    ensures most { result ≤ length blocks.now }
    ensures rest { dump.new ≡ record dump.old { noted = dump.new.noted } }
    ensures noted { (old : List ℤ) → AreNotedTo ready.entry.now old dump.old.noted blocks.now at
        → AreNotedTo ready.entry.now old dump.new.noted blocks.now result }
{
    if !ready.is_active(blocks[at]) {
        return at + 1;
    }
    let end = run_end(ready, blocks, at);
    note_run(ready, dump, blocks[at], blocks[end - 1]);
    end
}

/// Notes what the outputs of the blocks hold that were active in the last reaction. The run hasn't stopped.
pub fn note_active(ready: &Ready, dump: &mut VcdOut)
    requires net { IsNet ready.now.fixed.net }
    requires of { IsOf ready.now.fixed.net dump.old }
    requires stands { (banks : List Meaning) × (st : State) × IsAt ready.now banks st }
    ensures rest { dump.new ≡ record dump.old { noted = dump.new.noted } }
    ensures noted { NotesActive ready.entry.now dump.old dump.new }
{
    dump.well_formed();
    let blocks = ready.possible();
    let mut at = 0;
    while at < blocks.len() {
        at = note_from(ready, dump, blocks, at);
    }
}
