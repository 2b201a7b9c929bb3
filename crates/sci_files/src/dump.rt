// The file of a value change dump.
ghost use Rattle.std.specs.Prelude.{◌≤◌, length};
ghost use Rattle.sci_base.specs.declared.limits.TheConstants.{TEXT_BYTES};
ghost use Rattle.sci_answers.specs.DumpAt.{AcceptsDump, BreaksDump};
ghost use Rattle.sci_files.specs.Judged.{IsJudged};

use crate::rules::{Rules, blame};
use sci_base::{Rule, Stop, limits};
use sci_vcd::{Dump, VcdStop, read_vcd};
use std::alloc::Global;

// The dump that a file's bytes spell.
fn dump_of(alloc: Global, bytes: &[u8]) -> Result<Dump, Stop>
    requires { length bytes.now ≤ TEXT_BYTES }
    ensures { IsJudged AcceptsDump BreaksDump bytes.now result }
{
    match read_vcd(alloc, bytes) {
        Ok(dump) => Ok(dump),
        Err(VcdStop::NotVcd(line)) => Err(blame(alloc, Rule::NotVcd, line)),
        Err(VcdStop::Memory) => Err(Stop::Memory),
    }
}

/// The rules of a value change dump's file.
#[derive(Drop)]
pub struct DumpRules;

impl Rules for DumpRules {
    ghost use Rattle.std.proofs.Common.{rules};
    ghost use Rattle.sci_answers.specs.DumpAt.{AcceptsDump, BreaksDump};

    type Made = Dump;

    const LONGEST: usize = limits::TEXT_BYTES;

    ghost LONGEST = { TEXT_BYTES };

    ghost accepts = { λ _ bytes dump. AcceptsDump bytes dump };

    ghost breaks = { λ _ bytes v. BreaksDump bytes v };

    fn judge(&self, alloc: Global, bytes: &[u8]) -> Result<Dump, Stop> {
        dump_of(alloc, bytes)
    }

    ghost within = { Prim.search rules };
}
