// Which activation inputs may be activated where a block acts.
ghost use Rattle.std.specs.Prelude.{◌≡◌, ◌<◌};
ghost use Rattle.sci_ranges_base.specs.Masks.{may_choose, some_choose, lets_both, may_be_both, lets_one_lack, may_lack_one};

use sci_base::bits::two_to;

/// The activation inputs that surely are activated, and those that may be: bit `p - 1` for input `p`.
#[derive(Clone, Copy, Debug, Drop, PartialEq, Eq)]
pub struct Masks {
    pub certain: u64,
    pub may: u64,
}

/// Whether input `k` may be that of the least activated port.
fn may_choose(k: u32, masks: Masks) -> bool
    requires { k < 64 }
    ensures { result ≡ may_choose k masks }
{
    masks.may / two_to(k) % 2 == 1 && masks.certain % two_to(k) == 0
}

/// The same by one of these.
pub fn some_choose(all: &[Masks], k: u32) -> bool
    requires { k < 64 }
    ensures { result ≡ some_choose all.now k }
{
    all.iter().any(|masks| may_choose(k, *masks))
}

fn lets_both(masks: Masks) -> bool
    ensures { result ≡ lets_both masks }
{
    masks.may % 4 == 3
}

/// Whether both of two activation inputs may be activated.
pub fn may_be_both(all: &[Masks]) -> bool
    ensures { result ≡ may_be_both all.now }
{
    all.iter().any(|masks| lets_both(*masks))
}

fn lets_one_lack(masks: Masks) -> bool
    ensures { result ≡ lets_one_lack masks }
{
    !(masks.certain % 4 == 3)
}

/// Whether one of them may not be.
pub fn may_lack_one(all: &[Masks]) -> bool
    ensures { result ≡ may_lack_one all.now }
{
    all.iter().any(|masks| lets_one_lack(*masks))
}
