ghost use Rattle.std.specs.Prelude.{◌≡◌, ◌≤◌, ◌^◌, ◌<◌, Ok, IfOk, IfErr, pos, codes, option_map};
ghost use Rattle.serde_json.specs.Find.{get};
ghost use Rattle.sci_base.specs.Plain.{dep_of, fields_of};
ghost use Rattle.sci_json.specs.View.{view};
ghost use Rattle.sci_json.specs.Field.{field, as_dep};
ghost use Rattle.sci_diagram.specs.Names.{name_of};
ghost use Rattle.sci_diagram.specs.Tree.{is_super_name, sim_name, is_super, list_where, inner_there, dep_at, count_of, read_fields};
ghost use Rattle.sci_base.specs.Stops.{Stops};
ghost use Rattle.sci_diagram.specs.Telling.{Tells};
ghost use Rattle.sci_diagram.specs.Weight.{weight};

use crate::fields::{missing, optional_ints, small_ints, wrong};
use crate::keys;
use crate::numbers::small_count;
use crate::sorts::ObjectRole;
use crate::table::Fields;
use sci_base::{BlockFields, Dep, Stop};
use sci_json::FieldStop;
use sci_json::document::Value;
use std::alloc::Global;

fn is_super_name(name: &str) -> bool
    ensures { result ≡ is_super_name name.now }
{
    name == "super" || name == "csuper"
}

fn sim_name<'a>(v: &Value<'_, 'a>) -> Option<&'a str>
    ensures { option_map (λ s. s.now) result ≡ sim_name (view v.now) }
{
    match v.items() {
        Some(mut items) => items.next()?.as_str(),
        None => v.as_str(),
    }
}

/// Whether the block is a superblock.
#[tactic(auto, using(crate::proofs::Told::tells_violation))]
pub(crate) fn is_super(alloc: Global, model: &Fields<'_, '_, '_>, at: &[u32]) -> Result<bool, Stop>
    ensures ok { IfOk result
        (λ b. is_super at.now (field sim_name (codes "sim") (view model.now)) ≡ Ok b) }
    ensures stop { IfErr result
        (λ e. Tells (is_super at.now (field sim_name (codes "sim") (view model.now))) e) }
{
    match model.get(keys::SIM) {
        None => Ok(false),
        Some(found) => match sim_name(found) {
            None => Err(wrong(alloc, at, keys::SIM)),
            Some(name) => Ok(is_super_name(name)),
        },
    }
}

#[inline(always)]
fn ints_where(
    alloc: Global,
    looked_at: bool,
    v: &Fields<'_, '_, '_>,
    code: u32,
    at: &[u32],
) -> Result<Vec<i64>, Stop>
    requires first { 1 ≤ code }
    requires last { code ≤ 21 }
    ensures ok { IfOk result
        (λ xs. list_where looked_at at.now (pos code) (name_of code) (view v.now) ≡ Ok xs.items) }
    ensures stop { IfErr result
        (λ e. Stops (list_where looked_at at.now (pos code) (name_of code) (view v.now)) e) }
{
    if looked_at {
        optional_ints(alloc, v, code, at)
    } else {
        Ok(Vec::new(alloc))
    }
}

#[inline(always)]
#[tactic(auto, using(crate::proofs::Told::tells_violation))]
fn inner_there(
    alloc: Global,
    role: ObjectRole,
    model: &Fields<'_, '_, '_>,
    at: &[u32],
) -> Result<(), Stop>
    ensures ok { IfOk result (λ u. inner_there role at.now (view model.now) ≡ Ok u) }
    ensures stop { IfErr result (λ e. Tells (inner_there role at.now (view model.now)) e) }
{
    match role {
        ObjectRole::Super => match model.get(keys::RPAR) {
            None => Err(missing(alloc, at, keys::RPAR)),
            Some(_) => Ok(()),
        },
        _ => Ok(()),
    }
}

#[inline(always)]
fn dep_ut(alloc: Global, model: &Fields<'_, '_, '_>, at: &[u32]) -> Result<Option<Dep>, Stop>
    ensures ok { IfOk result
        (λ o. dep_at at.now (field as_dep (codes "dep_ut") (view model.now)) ≡ Ok (dep_of o)) }
    ensures stop { IfErr result
        (λ e. Stops (dep_at at.now (field as_dep (codes "dep_ut") (view model.now))) e) }
{
    match model.get(keys::DEP_UT) {
        None => Ok(None),
        Some(found) => match sci_json::dep_of(alloc, found) {
            Ok(dep) => Ok(Some(dep)),
            Err(FieldStop::Memory) => Err(Stop::Memory),
            Err(_) => Err(wrong(alloc, at, keys::DEP_UT)),
        },
    }
}

#[inline(always)]
#[tactic(auto, using(crate::proofs::Told::tells_violation))]
fn count(alloc: Global, v: &Fields<'_, '_, '_>, code: u32, at: &[u32]) -> Result<u32, Stop>
    requires first { 1 ≤ code }
    requires last { code ≤ 21 }
    requires light { weight (view v.now) < 2 ^ 32 }
    ensures ok { IfOk result (λ n. count_of at.now (pos code) (name_of code) (view v.now) ≡ Ok n) }
    ensures stop { IfErr result (λ e. Tells (count_of at.now (pos code) (name_of code) (view v.now)) e) }
{
    match v.get(code) {
        None => Ok(0),
        Some(found) => match small_count(found) {
            None => Err(wrong(alloc, at, code)),
            Some(n) => Ok(n),
        },
    }
}

/// What a block's model says.
#[tactic(auto, using(sci_base::proofs::Stopping::stops_then, crate::proofs::Told::told_then), unfolding(crate::specs::Tree::read_fields))]
pub(crate) fn read_fields(
    alloc: Global,
    role: ObjectRole,
    model: &Fields<'_, '_, '_>,
    at: &[u32],
) -> Result<BlockFields, Stop>
    requires light { weight (view model.now) < 2 ^ 32 }
    ensures ok { IfOk result
        (λ f. read_fields role at.now (view model.now) ≡ Ok (fields_of f)) }
    ensures stop { IfErr result (λ e. Stops (read_fields role at.now (view model.now)) e) }
{
    let ins = small_ints(alloc, model, keys::IN, at)?;
    let in2 = small_ints(alloc, model, keys::IN2, at)?;
    let intyp = small_ints(alloc, model, keys::INTYP, at)?;
    let outs = small_ints(alloc, model, keys::OUT, at)?;
    let out2 = small_ints(alloc, model, keys::OUT2, at)?;
    let outtyp = small_ints(alloc, model, keys::OUTTYP, at)?;
    let evtin = count(alloc, model, keys::EVTIN, at)?;
    let evtout = count(alloc, model, keys::EVTOUT, at)?;
    let dstate = ints_where(alloc, role.keeps_state(), model, keys::DSTATE, at)?;
    inner_there(alloc, role, model, at)?;
    let ipar = ints_where(alloc, role.keeps_ipar(), model, keys::IPAR, at)?;
    let firing = ints_where(alloc, role.keeps_state(), model, keys::FIRING, at)?;
    let dep = dep_ut(alloc, model, at)?;
    Ok(BlockFields {
        ins,
        in2,
        intyp,
        outs,
        out2,
        outtyp,
        evtin,
        evtout,
        dstate,
        ipar,
        firing,
        dep,
    })
}
