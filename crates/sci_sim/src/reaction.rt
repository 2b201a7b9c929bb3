// What the active blocks do behind the values of a reaction.
ghost use Rattle.std.specs.Prelude.{◌≡◌, ℕ, ◌+◌, ◌<◌, ◌^◌};
ghost use Rattle.sci_pending.specs.Pending.{Pending};
ghost use Rattle.sci_store.specs.Frame.{AreSeated};
ghost use Rattle.sci_store.specs.Passed.{AreAlikeCounts, KeepsValues};
ghost use Rattle.sci_store.specs.Runs.{MayStep};
ghost use Rattle.sci_store.specs.Rows.{IsReadyRow, KeepsBegun};
ghost use Rattle.sci_store.specs.Reaction.{Steps};
ghost use Rattle.sci_sim.specs.Programming.{Keeps, ProgramsNext};

use crate::programming::program_all;
use sci_agenda::agenda::Agenda;
use sci_bank::Bank;
use sci_bank::library::Library;
use sci_kept::Kept;
use sci_store::ReadyRow;
use sci_trace::inputs::Inputs;

/// A reaction whose values are known and written: the active blocks of its row program their events and step their states.
pub fn finish<A: Agenda, B: Bank>(
    kept: &mut Kept,
    agenda: &mut A,
    lib: &mut Library<B>,
    inputs: &Inputs,
    row: &ReadyRow,
    date: u64,
)
    requires seated { AreSeated kept.old.fixed lib.old }
    requires row { IsReadyRow kept.old.fixed row.now }
    requires begun { KeepsBegun kept.old.fixed row.now kept.old.store }
    requires may_step { MayStep kept.old.fixed inputs.now kept.old.store lib.old }
    requires date { date < 2 ^ 63 }
    requires keeps { (offset : ℕ) × (p : Pending) × Keeps kept.old.fixed.net offset (date + offset) (A.meaning agenda.old) (A.puts agenda.old) p }
    ensures programmed { ProgramsNext kept.old row.now.blocks date (A.meaning agenda.old) (A.puts agenda.old) (A.meaning agenda.new) (A.puts agenda.new) }
    ensures stepped { Steps kept.old.fixed row.now kept.old.store kept.new.store lib.old lib.new }
    ensures values { KeepsValues kept.old.store kept.new.store }
    ensures fixed { kept.new.fixed ≡ kept.old.fixed }
    ensures seated { AreSeated kept.old.fixed lib.new }
    ensures counts { AreAlikeCounts lib.old lib.new }
{
    program_all(kept, &row.delays, lib, date, agenda);
    kept.update_all(lib, inputs, row);
}
