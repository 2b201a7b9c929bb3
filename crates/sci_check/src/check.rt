// The check of one block's fields, and the spec that they give.
ghost use Rattle.std.specs.Prelude.{◌≡◌, ◌<◌, ◌≤◌, ◌^◌, ◌+◌, IfSome, ◌∷◌, [], pos, length, ℕ, IfOk, IfErr, None, Some, Ok, Err, ◌≢◌, true};
ghost use Rattle.sci_base.specs.Plain.{fields_of, feedthrough_of, dep_of};
ghost use Rattle.sci_forms.specs.declared.Kind.TheVariants.{Logic as LogicKind, ModuloCount as CountKind};
ghost use Rattle.sci_forms.specs.Forms.{first_not};
ghost use Rattle.sci_forms.specs.Form.{has_delay, has_state};
ghost use Rattle.sci_names.specs.Names.{by_name};
ghost use Rattle.sci_base.specs.Stops.{Stops};
ghost use Rattle.sci_check.specs.Check.{is_integer, integer_at, date_ok, shape, cols_ok, types_len_ok, firing_len_ok, counts_broken, lengths_broken};
ghost use Rattle.sci_check.specs.Check.{forms_broken, not_integer, side_broken, types_broken, bad, params_broken, state_broken, events_broken, feed_by};
ghost use Rattle.sci_check.specs.Check.{feed_of, list_broken, part_broken, feed_broken, values_broken, active_broken, broken, columns_at, declared_port};
ghost use Rattle.sci_check.specs.Check.{declared_ports, kept, spec_of, checked, checked_kind, judged};

use sci_base::{
    BlockFields, Dep, DirectFeedthrough, Ints, NoMemory, Place, Rule, Stop, Truths, limits,
};
use sci_forms::values::{
    between, first_fed, first_param, first_state, first_unfed, own_feed, params_len_ok,
    state_len_ok, within,
};
use sci_forms::{Broken, Detail, Kind, Port, Ports, Spec, first_failing};
use std::alloc::Global;

fn shape(code: i64, n: usize) -> Broken
    requires { n < 2 ^ 63 }
    ensures { result ≡ shape code n }
{
    Broken {
        rule: Rule::PortShape,
        detail: Detail::Pair(code, n as i64),
    }
}

fn bad(field: i64, k: usize, v: i64) -> Broken
    requires { k < 2 ^ 63 }
    ensures { result ≡ bad field k v }
{
    Broken {
        rule: Rule::BadParameter,
        detail: Detail::Triple(field, k as i64, v),
    }
}

fn cols_ok(len: usize, n: usize) -> bool
    ensures { result ≡ cols_ok len n }
{
    len == 0 || len == n
}

fn types_len_ok(len: usize, n: usize) -> bool
    ensures { result ≡ types_len_ok len n }
{
    n == 0 || len == n
}

fn firing_len_ok(kind: Kind, len: usize) -> bool
    ensures { result ≡ firing_len_ok kind len }
{
    !kind.has_delay() || len == 1
}

/// The counts of ports.
fn counts_broken(kind: Kind, f: &BlockFields) -> Option<Broken>
    ensures { result ≡ counts_broken kind (fields_of f.now) }
{
    let c = kind.counts(f.ins.len());
    if !within(c.ins_least, c.ins_most, f.ins.len()) {
        return Some(shape(1, f.ins.len()));
    }
    if !within(c.outs_least, c.outs_most, f.outs.len()) {
        return Some(shape(2, f.outs.len()));
    }
    if !within(c.evtin_least, c.evtin_most, f.evtin as usize) {
        return Some(shape(3, f.evtin as usize));
    }
    if !within(c.evtout_least, c.evtout_most, f.evtout as usize) {
        return Some(shape(4, f.evtout as usize));
    }
    None
}

/// The lengths of the lists of columns, types and first dates.
fn lengths_broken(kind: Kind, f: &BlockFields) -> Option<Broken>
    ensures { result ≡ lengths_broken kind (fields_of f.now) }
{
    if !cols_ok(f.in2.len(), f.ins.len()) {
        return Some(shape(5, f.in2.len()));
    }
    if !types_len_ok(f.intyp.len(), f.ins.len()) {
        return Some(shape(6, f.intyp.len()));
    }
    if !cols_ok(f.out2.len(), f.outs.len()) {
        return Some(shape(7, f.out2.len()));
    }
    if !types_len_ok(f.outtyp.len(), f.outs.len()) {
        return Some(shape(8, f.outtyp.len()));
    }
    if !firing_len_ok(kind, f.firing.len()) {
        return Some(shape(9, f.firing.len()));
    }
    None
}

fn forms_broken(kind: Kind, f: &BlockFields) -> Option<Broken>
    ensures { result ≡ forms_broken kind (fields_of f.now) }
{
    match counts_broken(kind, f) {
        Some(b) => Some(b),
        None => lengths_broken(kind, f),
    }
}

fn not_integer(side: i64, ts: &[i64], k: usize) -> Broken
    requires at { k < length ts.now }
    requires few { k + 1 < 2 ^ 63 }
    ensures { result ≡ not_integer side ts.now k }
{
    Broken {
        rule: Rule::NotInteger,
        detail: Detail::Triple(side, (k + 1) as i64, ts[k]),
    }
}

fn side_broken(side: i64, ts: &[i64], n: usize) -> Option<Broken>
    requires within { n ≤ length ts.now }
    requires few { n < 2 ^ 63 }
    ensures { result ≡ side_broken side ts.now n }
{
    match first_type(ts, n) {
        None => None,
        Some(k) => Some(not_integer(side, ts, k)),
    }
}

fn is_integer(v: i64) -> bool
    ensures { result ≡ is_integer v }
{
    v < 0 || between(3, 8, v)
}

/// The first of `n` types that is none of integers.
fn first_type(ts: &[i64], n: usize) -> Option<usize>
    requires { n ≤ length ts.now }
    ensures first { result ≡ first_not (integer_at ts.now) n }
    ensures within { IfSome result (λ k. k < n) }
{
    first_failing(n, |k| is_integer(ts[k]))
}

/// The first date of an activation output.
fn date_ok(kind: Kind, firing: &[i64]) -> bool
    requires { has_delay kind ≡ true → 0 < length firing.now }
    ensures { result ≡ date_ok kind firing.now }
{
    !kind.has_delay() || firing[0] <= limits::DELAY
}

/// The parameters.
fn params_broken(kind: Kind, f: &BlockFields) -> Option<Broken>
    requires forms { forms_broken kind (fields_of f.now) ≡ None }
    ensures { result ≡ params_broken kind (fields_of f.now) }
{
    if !params_len_ok(kind, f.ins.len(), f.outs.len(), f.ipar.len()) {
        return Some(bad(1, 0, f.ipar.len() as i64));
    }
    match first_param(kind, f.ins.len(), f.ipar.as_slice()) {
        None => None,
        Some(k) => Some(bad(1, k + 1, f.ipar[k])),
    }
}

/// The state.
fn state_broken(kind: Kind, f: &BlockFields) -> Option<Broken>
    requires params { params_broken kind (fields_of f.now) ≡ None }
    ensures { result ≡ state_broken kind (fields_of f.now) }
{
    if !state_len_ok(kind, f.dstate.len()) {
        return Some(bad(2, 0, f.dstate.len() as i64));
    }
    match first_state(kind, f.ipar.as_slice(), f.dstate.as_slice()) {
        None => None,
        Some(k) => Some(bad(2, k + 1, f.dstate[k])),
    }
}

/// A list of truths, one for each of `n` inputs.
fn list_broken(kind: Kind, truths: &[bool], n: usize) -> Option<Broken>
    requires { n < 2 ^ 63 }
    ensures { result ≡ list_broken kind truths.now n }
{
    if truths.len() != n {
        return Some(bad(4, 0, truths.len() as i64));
    }
    match first_unfed(kind, truths, n) {
        None => None,
        Some(k) => Some(bad(4, k + 1, 0)),
    }
}

/// What is declared of the feedthrough of `n` inputs.
fn part_broken(kind: Kind, part: &DirectFeedthrough, n: usize) -> Option<Broken>
    requires { n < 2 ^ 63 }
    ensures { result ≡ part_broken kind (feedthrough_of part.now) n }
{
    match part {
        DirectFeedthrough::All(true) => None,
        DirectFeedthrough::All(false) => match first_fed(kind, n) {
            None => None,
            Some(_) => Some(bad(4, 1, 0)),
        },
        DirectFeedthrough::Each(truths) => list_broken(kind, truths.as_slice(), n),
    }
}

fn feed_broken(kind: Kind, dep: &Option<Dep>, n: usize) -> Option<Broken>
    requires { n < 2 ^ 63 }
    ensures { result ≡ feed_broken kind (dep_of dep.now) n }
{
    match dep {
        None => None,
        Some(dep) => part_broken(kind, &dep.part, n),
    }
}

/// Of each of `n` inputs whether it has feedthrough, as it is declared.
fn feed_by(alloc: Global, part: &DirectFeedthrough, n: usize) -> Result<Truths, NoMemory>
    ensures { IfOk result (λ r. r ≡ feed_by (feedthrough_of part.now) n) }
{
    match part {
        DirectFeedthrough::All(truth) => Truths::repeated(alloc, *truth, n),
        DirectFeedthrough::Each(truths) => Ok(Truths::of(truths.as_slice().to_vec(alloc)?)),
    }
}

/// Of each of `n` inputs whether it has feedthrough.
fn feed_of(alloc: Global, kind: Kind, dep: &Option<Dep>, n: usize) -> Result<Truths, NoMemory>
    requires { n < 2 ^ 63 }
    ensures { IfOk result (λ r. r ≡ feed_of kind (dep_of dep.now) n) }
{
    match dep {
        None => own_feed(alloc, kind, n),
        Some(dep) => feed_by(alloc, &dep.part, n),
    }
}

/// The first date and the feedthrough.
fn events_broken(kind: Kind, f: &BlockFields) -> Option<Broken>
    requires forms { forms_broken kind (fields_of f.now) ≡ None }
    ensures { result ≡ events_broken kind (fields_of f.now) }
{
    if !date_ok(kind, f.firing.as_slice()) {
        return Some(bad(3, 1, f.firing[0]));
    }
    feed_broken(kind, &f.dep, f.ins.len())
}

fn values_broken(kind: Kind, f: &BlockFields) -> Option<Broken>
    requires forms { forms_broken kind (fields_of f.now) ≡ None }
    ensures { result ≡ values_broken kind (fields_of f.now) }
{
    match params_broken(kind, f) {
        Some(b) => Some(b),
        None => match state_broken(kind, f) {
            Some(b) => Some(b),
            None => events_broken(kind, f),
        },
    }
}

fn types_broken(f: &BlockFields) -> Option<Broken>
    requires ins { length (fields_of f.now).ins ≤ length (fields_of f.now).intyp }
    requires outs { length (fields_of f.now).outs ≤ length (fields_of f.now).outtyp }
    ensures { result ≡ types_broken (fields_of f.now) }
{
    match side_broken(1, f.intyp.as_slice(), f.ins.len()) {
        Some(b) => Some(b),
        None => side_broken(2, f.outtyp.as_slice(), f.outs.len()),
    }
}

fn active_broken(f: &BlockFields) -> Option<Broken>
    ensures { result ≡ active_broken (fields_of f.now) }
{
    match &f.dep {
        Some(dep) if dep.always => Some(Broken {
            rule: Rule::AlwaysActive,
            detail: Detail::Empty,
        }),
        _ => None,
    }
}

/// The first broken rule of a block of this kind.
fn broken(kind: Kind, f: &BlockFields) -> Option<Broken>
    ensures { result ≡ broken kind (fields_of f.now) }
{
    match forms_broken(kind, f) {
        Some(b) => Some(b),
        None => match types_broken(f) {
            Some(b) => Some(b),
            None => match active_broken(f) {
                Some(b) => Some(b),
                None => values_broken(kind, f),
            },
        },
    }
}

fn columns_at(cols: &[i64], k: usize) -> i64
    requires { length cols.now ≢ 0 → k < length cols.now }
    ensures { result ≡ columns_at cols.now k }
{
    if cols.len() == 0 { 1 } else { cols[k] }
}

/// The ports of one side.
#[tactic(auto, using(crate::proofs::CheckSteps::one_more_port))]
fn declared_ports(
    alloc: Global,
    rows: &[i64],
    cols: &[i64],
    types: &[i64],
) -> Result<Ports, NoMemory>
    requires cols { cols_ok (length cols.now) (length rows.now) ≡ true }
    requires types { length rows.now ≤ length types.now }
    ensures { IfOk result (λ r. r ≡ declared_ports rows.now cols.now types.now (length rows.now)) }
{
    let mut items = Vec::new(alloc);
    for k in 0..rows.len() {
        items.push(Port {
            rows: rows[k],
            cols: columns_at(cols, k),
            ty: types[k],
        })?;
    }
    Ok(Ports::of(items))
}

/// A list where the kind has it, else none.
fn kept(alloc: Global, b: bool, vs: &[i64]) -> Result<Ints, NoMemory>
    ensures { IfOk result (λ r. r ≡ kept b vs.now) }
{
    if b {
        Ok(Ints::of(vs.to_vec(alloc)?))
    } else {
        Ok(Ints::of(Vec::new(alloc)))
    }
}

/// The spec of a block that breaks no rule.
fn spec_of(alloc: Global, kind: Kind, f: &BlockFields) -> Result<Spec, NoMemory>
    requires { forms_broken kind (fields_of f.now) ≡ None }
    ensures { IfOk result (λ s. s ≡ spec_of kind (fields_of f.now)) }
{
    Ok(Spec {
        kind,
        params: Ints::of(f.ipar.as_slice().to_vec(alloc)?),
        state: kept(alloc, kind.has_state(), f.dstate.as_slice())?,
        firing: kept(alloc, kind.has_delay(), f.firing.as_slice())?,
        ins: declared_ports(
            alloc,
            f.ins.as_slice(),
            f.in2.as_slice(),
            f.intyp.as_slice(),
        )?,
        outs: declared_ports(
            alloc,
            f.outs.as_slice(),
            f.out2.as_slice(),
            f.outtyp.as_slice(),
        )?,
        evtin: f.evtin,
        evtout: f.evtout,
        feed: feed_of(alloc, kind, &f.dep, f.ins.len())?,
    })
}

/// The spec of the block at `place` whose model has these fields and whose `gui` is this name, or the first rule that it breaks,
/// in the order 7, 9, 10, 11, 8. Rule 8 looks at the parameters (their number, then each), the state, the first date and the
/// feedthrough. The block is neither a superblock nor a pass-through object.
pub fn check_spec(alloc: Global, gui: &str, f: &BlockFields, place: &Place) -> Result<Spec, Stop>
    ensures ok { IfOk result (λ s. checked place.now.path.items gui.now (fields_of f.now) ≡ Ok s) }
    ensures stop { IfErr result (λ e. Stops (checked place.now.path.items gui.now (fields_of f.now)) e) }
{
    match sci_names::by_name(gui) {
        None => {
            let unknown = Broken {
                rule: Rule::UnknownBlock,
                detail: Detail::Empty,
            };
            Err(unknown.stop(alloc, place.path.as_slice()))
        }
        Some(kind) => check_kind(alloc, kind, f, place),
    }
}

/// The same for a known kind.
#[tactic(auto, using(sci_base::proofs::Stopping::stops_violation))]
fn check_kind(alloc: Global, kind: Kind, f: &BlockFields, place: &Place) -> Result<Spec, Stop>
    ensures ok { IfOk result (λ s. checked_kind place.now.path.items (fields_of f.now) (Some kind) ≡ Ok s) }
    ensures stop { IfErr result (λ e. Stops (checked_kind place.now.path.items (fields_of f.now) (Some kind)) e) }
{
    match broken(kind, f) {
        Some(b) => Err(b.stop(alloc, place.path.as_slice())),
        None => Ok(spec_of(alloc, kind, f)?),
    }
}
