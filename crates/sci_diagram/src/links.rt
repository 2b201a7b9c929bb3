ghost use Rattle.std.specs.Prelude.{◌≡◌, ◌≤◌, Ok, IfOk, IfErr, pos};
ghost use Rattle.sci_json.specs.View.{view};
ghost use Rattle.sci_diagram.specs.Objects.{link};
ghost use Rattle.sci_diagram.specs.Names.{name_of};
ghost use Rattle.sci_diagram.specs.Numbers.{link_kind};
ghost use Rattle.sci_diagram.specs.Tree.{link_end, read_link};
ghost use Rattle.sci_diagram.specs.Telling.{Tells};

use crate::diagram::{End, LinkObj};
use crate::fields::{missing, wrong};
use crate::keys;
use crate::numbers::{end_of, kind_of};
use crate::table::Fields;
use sci_base::Stop;
use std::alloc::Global;

#[tactic(auto, using(crate::proofs::Told::tells_then), unfolding(crate::specs::Tree::read_link))]
pub(crate) fn read_link(alloc: Global, v: &Fields<'_, '_, '_>, at: &[u32]) -> Result<LinkObj, Stop>
    ensures ok { IfOk result
        (λ l. read_link at.now (view v.now) ≡ Ok (link l.from l.to l.kind)) }
    ensures stop { IfErr result (λ e. Tells (read_link at.now (view v.now)) e) }
{
    let from = read_end(alloc, v, keys::FROM, 0, at)?;
    let to = read_end(alloc, v, keys::TO, 1, at)?;
    let kind = read_kind(alloc, v, at)?;
    Ok(LinkObj { from, to, kind })
}

#[inline]
#[tactic(auto, using(crate::proofs::Told::tells_violation))]
fn read_end(
    alloc: Global,
    v: &Fields<'_, '_, '_>,
    code: u32,
    side: i64,
    at: &[u32],
) -> Result<End, Stop>
    requires first { 1 ≤ code }
    requires last { code ≤ 21 }
    ensures ok { IfOk result (λ e. link_end at.now (pos code) side (name_of code) (view v.now) ≡ Ok e) }
    ensures stop { IfErr result (λ e. Tells (link_end at.now (pos code) side (name_of code) (view v.now)) e) }
{
    match v.get(code) {
        None => Err(missing(alloc, at, code)),
        Some(found) => match end_of(found, side) {
            None => Err(wrong(alloc, at, code)),
            Some(end) => Ok(end),
        },
    }
}

#[inline]
#[tactic(auto, using(crate::proofs::Told::tells_violation))]
fn read_kind(alloc: Global, v: &Fields<'_, '_, '_>, at: &[u32]) -> Result<i64, Stop>
    ensures ok { IfOk result (λ k. link_kind at.now (view v.now) ≡ Ok k) }
    ensures stop { IfErr result (λ e. Tells (link_kind at.now (view v.now)) e) }
{
    match v.get(keys::CT) {
        None => Err(missing(alloc, at, keys::CT)),
        Some(found) => match kind_of(found) {
            None => Err(wrong(alloc, at, keys::CT)),
            Some(kind) => Ok(kind),
        },
    }
}
