// What a spec says.
ghost use Rattle.std.specs.Prelude.{◌≡◌, ◌<◌, ◌≤◌, ◌^◌, length};
ghost use Rattle.sci_forms.specs.Words.{param as param_of};
ghost use Rattle.sci_forms.specs.Ports.{total};
ghost use Rattle.sci_kinds.specs.Table.{mode_of as mode_by_code};
ghost use Rattle.sci_cgen_blocks.specs.Terms.{is_looped as is_looped_by_count};

use sci_base::Mode;
use sci_base::bits::two_to;
use sci_forms::{Ports, Spec};
use sci_kinds::mode_of;

/// The mode that parameter 0 names.
pub(crate) fn mode(spec: &Spec) -> Mode
    ensures { result ≡ mode_by_code (param_of spec.now 0) }
{
    mode_of(spec.param(0))
}

/// How many inputs there are.
pub(crate) fn inputs(spec: &Spec) -> u32
    requires { length spec.now.ins < 2 ^ 32 }
    ensures { result ≡ length spec.now.ins }
{
    spec.ins.len() as u32
}

/// A power of 2.
pub(crate) fn power(k: u32) -> u64
    requires { k ≤ 32 }
    ensures value { result ≡ 2 ^ k }
    ensures small { result ≤ 4294967296 }
{
    two_to(k)
}

/// Whether some ports have so many elements together that a loop goes over them.
#[tactic(auto, using(sci_forms::proofs::PortLemmas::total_step, sci_forms::proofs::PortLemmas::total_end))]
pub(crate) fn is_looped(ports: &Ports) -> bool
    ensures { result ≡ is_looped_by_count (total ports.now) }
{
    let mut count = 0;
    for port in 0..ports.len() {
        let more = ports.port(port).elements();
        if 2 < more {
            return true;
        }
        count += more as u32;
        if 2 < count {
            return true;
        }
    }
    false
}
