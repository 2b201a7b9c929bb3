// The rules on the types and sizes of a net whose typing is known.
ghost use Rattle.std.specs.Prelude.{◌≡◌, ◌<◌, ◌≤◌, ◌+◌, ◌*◌, ◌^◌, length, IfSome, None, All};
ghost use Rattle.sci_base.specs.declared.limits.TheConstants.{BLOCKS, PORTS};
ghost use Rattle.sci_forms.specs.Ports.{elements, total};
ghost use Rattle.sci_net.specs.Net.{all_elements};
ghost use Rattle.sci_infer.specs.Broken.{spec_broken, specs_broken, outs_large, specs_large, sum_large, net_broken};

use sci_base::{Rule, limits};
use sci_forms::{Broken, Detail, Ports, Spec};

/// Of one block the rule on types first, then the one on sizes.
fn spec_broken(spec: &Spec) -> Option<Broken>
    ensures { result ≡ spec_broken spec.now }
{
    match spec.types_broken() {
        Some(broken) => Some(broken),
        None => spec.sizes_broken(),
    }
}

/// The first block that breaks a rule on types or sizes, by its number.
fn specs_broken(specs: &[Spec]) -> Option<(u32, Broken)>
    requires { length specs.now ≤ BLOCKS }
    ensures value { result ≡ specs_broken 1 specs.now }
    ensures block { IfSome result (λ r. r.0 ≤ length specs.now) }
{
    for (at, spec) in specs.iter().enumerate() {
        if let Some(broken) = spec_broken(spec) {
            return Some((at as u32 + 1, broken));
        }
    }
    None
}

/// The first output that has more than 256 elements.
fn outs_large(ports: &Ports) -> Option<Broken>
    requires { All (λ p. elements p < 2 ^ 63) ports.now }
    ensures { result ≡ outs_large 1 ports.now }
{
    for at in 0..ports.len() {
        let elements = ports.get(at).elements();
        if elements > u128::from(limits::PORT_ELEMENTS) {
            return Some(Broken {
                rule: Rule::SignalTooLarge,
                detail: Detail::Pair(at as i64 + 1, elements as i64),
            });
        }
    }
    None
}

/// The first block with such an output, by its number.
fn specs_large(specs: &[Spec]) -> Option<(u32, Broken)>
    requires few { length specs.now ≤ BLOCKS }
    requires small { All (λ s. All (λ p. elements p < 2 ^ 63) s.outs) specs.now }
    ensures value { result ≡ specs_large 1 specs.now }
    ensures block { IfSome result (λ r. r.0 ≤ length specs.now) }
{
    for (at, spec) in specs.iter().enumerate() {
        if let Some(broken) = outs_large(&spec.outs) {
            return Some((at as u32 + 1, broken));
        }
    }
    None
}

/// How many elements all outputs have.
fn all_elements(specs: &[Spec]) -> u64
    requires few { length specs.now ≤ BLOCKS }
    requires few_outs { All (λ s. length s.outs ≤ PORTS) specs.now }
    requires small { specs_large 1 specs.now ≡ None }
    ensures value { result ≡ all_elements specs.now }
    ensures small { result < 2 ^ 63 }
{
    let mut sum = 0;
    for spec in specs {
        sum += u64::from(spec.outs.total());
    }
    sum
}

/// All outputs together having more than 65,536 elements.
fn sum_large(specs: &[Spec]) -> Option<(u32, Broken)>
    requires few { length specs.now ≤ BLOCKS }
    requires few_outs { All (λ s. length s.outs ≤ PORTS) specs.now }
    requires small { specs_large 1 specs.now ≡ None }
    ensures value { result ≡ sum_large specs.now }
    ensures block { IfSome result (λ r. r.0 ≡ 0) }
{
    let sum = all_elements(specs);
    if sum <= u64::from(limits::ALL_ELEMENTS) {
        None
    } else {
        Some((
            0,
            Broken {
                rule: Rule::SignalTooLarge,
                detail: Detail::Pair(0, sum as i64),
            },
        ))
    }
}

/// The first of these rules that a net breaks, and the block's number; 0 for the diagram as a whole.
pub fn net_broken(specs: &[Spec]) -> Option<(u32, Broken)>
    requires few { length specs.now ≤ BLOCKS }
    requires few_outs { All (λ s. length s.outs ≤ PORTS) specs.now }
    requires small { All (λ s. All (λ p. elements p < 2 ^ 63) s.outs) specs.now }
    ensures value { result ≡ net_broken specs.now }
    ensures block { IfSome result (λ r. r.0 ≤ length specs.now) }
{
    if let Some(blamed) = specs_broken(specs) {
        return Some(blamed);
    }
    match specs_large(specs) {
        Some(blamed) => Some(blamed),
        None => sum_large(specs),
    }
}
