// How long the schedules of a net are, without their rows.
ghost use Rattle.std.specs.Prelude.{◌≡◌, ◌<◌, ◌^◌, sum_by};
ghost use Rattle.sci_sched.specs.Outlines.{outline_size};
ghost use Rattle.sci_sched.specs.Measured.{outline_entries, outline_guards};
ghost use Rattle.sci_sched.specs.Laws.{OneSize};

use crate::outline::Outline;

/// How long the schedules of all sources are. The two numbers together are at most 262,144.
#[derive(Clone, Copy, Drop)]
pub struct Size {
    /// How many entries all rows have.
    pub entries: u64,
    /// How many guards these entries have.
    pub guards: u64,
}

/// The entries and guards that these sources have.
pub fn measured(outlines: &[Outline]) -> Size
    requires { sum_by outline_size outlines.now < 2 ^ 63 }
    ensures entries { result.entries ≡ sum_by outline_entries outlines.now }
    ensures guards { result.guards ≡ sum_by outline_guards outlines.now }
{
    let mut entries = 0;
    let mut guards = 0;
    for outline in outlines {
        entries += outline.blocks.len() as u64;
        guards += outline.guards;
    }
    Size { entries, guards }
}

/// The size that `measure` gives is that of each schedule of the net.
pub fn one_size()
    ensures { OneSize }
{}
