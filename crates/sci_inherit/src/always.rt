// The lists by source: the activation inputs that it feeds, and the blocks that it activates whatever the values are.
ghost use Rattle.std.specs.Prelude.{◌≡◌, ℕ, ◌<◌, ◌≤◌, ◌+◌, ◌-◌, ◌↔◌, length, map, Contains, IfOk, OnOk, IsTrue, vec_len};
ghost use Rattle.sci_loop.specs.Lists.{plain};
ghost use Rattle.sci_net.specs.Sources.{sources_of, source_of};
ghost use Rattle.sci_reaction.specs.Links.{IsConstant};
ghost use Rattle.sci_reaction.specs.Active.{IsAlways};
ghost use Rattle.sci_inherit.specs.Followers.{AreFollowers, AreFedRows, AreInOrder};
ghost use Rattle.sci_inherit.specs.Live.{HaveSources};
ghost use Rattle.sci_inherit.specs.Gather.{AreEach, AreFeeding, AreSetOff, AreAlways, AreConstants};

use crate::Fed;
use crate::followers::Followers;
use crate::rows::FedRows;
use sci_base::NoMemory;
use sci_loop::walk::Walk;
use sci_net::{Net, Source};
use std::alloc::Global;

// Whether a block has neither inputs nor activation inputs.
fn is_constant(net: &Net, block: u32) -> bool
    requires least { 1 ≤ block }
    requires most { block ≤ length net.now.specs }
    ensures { IsTrue result ↔ IsConstant net.now block }
{
    let spec = net.spec(block);
    spec.ins.len() == 0 && spec.evtin == 0
}

// Puts a block, if it has neither inputs nor activation inputs.
fn push_constant(constants: &mut Vec<u32>, net: &Net, block: u32) -> Result<(), NoMemory>
    requires least { 1 ≤ block }
    requires most { block ≤ length net.now.specs }
    requires constants { AreConstants net.now (block - 1) constants.old.items }
    ensures { OnOk result (AreConstants net.now block constants.new.items) }
{
    if is_constant(net, block) {
        constants.push(block)?;
        Ok(())
    } else {
        Ok(())
    }
}

/// The blocks that have neither inputs nor activation inputs.
pub fn constants(alloc: Global, net: &Net) -> Result<Vec<u32>, NoMemory>
    ensures { IfOk result (λ v. AreConstants net.now (length net.now.specs) v.items) }
{
    let mut constants = Vec::new(alloc);
    for at in 0..net.len() {
        push_constant(&mut constants, net, at + 1)?;
    }
    Ok(constants)
}

/// The blocks of some activation inputs.
pub fn blocks_of(alloc: Global, fed: &[Fed]) -> Result<Vec<u32>, NoMemory>
    ensures { IfOk result (λ v. v.items ≡ map (λ f. f.block) fed.now) }
{
    let mut blocks = vec![in alloc; 0; fed.len()]?;
    for at in 0..fed.len() {
        blocks[at] = fed[at].block;
    }
    Ok(blocks)
}

// The activation inputs that the source at this place feeds.
fn fed_by<'a>(net: &Net, rows: &'a FedRows, at: u32) -> &'a [Fed]
    requires rows { AreFedRows net.now rows.now }
    requires wanted { HaveSources net.now rows.now.wanted.items }
    requires source { at < length (sources_of net.now) }
    ensures feeding { AreFeeding net.now (source_of net.now at) result.now }
    ensures in_order { AreInOrder result.now }
{
    match net.source(at) {
        Source::Start => &[],
        Source::Port(feed) => rows.of_output(feed),
    }
}

/// By source, the activation inputs that it feeds, by block and input, each once.
pub fn feeding(alloc: Global, net: &Net, rows: &FedRows) -> Result<Vec<Vec<Fed>>, NoMemory>
    requires rows { AreFedRows net.now rows.now }
    requires wanted { HaveSources net.now rows.now.wanted.items }
    ensures feeding { IfOk result (λ v. AreEach (λ k fs. AreFeeding net.now (source_of net.now k) fs) (plain v.items)) }
    ensures in_order { IfOk result (λ v. AreEach (λ k fs. AreInOrder fs) (plain v.items)) }
    ensures len { IfOk result (λ v. vec_len v ≡ length (sources_of net.now)) }
{
    let mut feeding = Vec::new(alloc);
    for at in 0..net.source_count() {
        let fed = fed_by(net, rows, at);
        feeding.push(Vec::from_slice(alloc, fed)?)?;
    }
    Ok(feeding)
}

// The blocks that a source activates by itself.
fn set_off(alloc: Global, net: &Net, source: Source, fed: &[Fed]) -> Result<Vec<u32>, NoMemory>
    requires { AreFeeding net.now source fed.now }
    ensures { IfOk result (λ v. AreSetOff net.now source v.items) }
{
    net.well_formed();
    match source {
        Source::Start => constants(alloc, net),
        Source::Port(_) => blocks_of(alloc, fed),
    }
}

/// Finds, by a walk, the blocks that a source activates whatever the values are.
pub fn find_always(
    alloc: Global,
    net: &Net,
    links: &Followers,
    walk: &mut Walk,
    source: Source,
    fed: &[Fed],
) -> Result<(), NoMemory>
    requires links { AreFollowers net.now links.now }
    requires walk { walk.old.count ≡ length net.now.specs + 1 }
    requires fed { AreFeeding net.now source fed.now }
    ensures always { OnOk result ((b : ℕ) → Contains walk.new.found b ↔ IsAlways net.now source b) }
    ensures count { walk.new.count ≡ walk.old.count }
{
    net.well_formed();
    let starts = set_off(alloc, net, source, fed)?;
    walk.walk(&links.heirs, &starts)
}

// The blocks that a source activates whatever the values are.
fn always_of(
    alloc: Global,
    net: &Net,
    links: &Followers,
    walk: &mut Walk,
    source: Source,
    fed: &[Fed],
) -> Result<Vec<u32>, NoMemory>
    requires links { AreFollowers net.now links.now }
    requires walk { walk.old.count ≡ length net.now.specs + 1 }
    requires fed { AreFeeding net.now source fed.now }
    ensures always { IfOk result (λ v. AreAlways net.now source v.items) }
    ensures count { walk.new.count ≡ walk.old.count }
{
    find_always(alloc, net, links, walk, source, fed)?;
    Ok(Vec::from_slice(alloc, walk.found())?)
}

/// By source, the blocks that it activates whatever the values are, each once.
pub fn always(
    alloc: Global,
    net: &Net,
    links: &Followers,
    walk: &mut Walk,
    feeding: &[Vec<Fed>],
) -> Result<Vec<Vec<u32>>, NoMemory>
    requires links { AreFollowers net.now links.now }
    requires walk { walk.old.count ≡ length net.now.specs + 1 }
    requires feeding { AreEach (λ k fs. AreFeeding net.now (source_of net.now k) fs) (plain feeding.now) }
    requires len { length feeding.now ≡ length (sources_of net.now) }
    ensures always { IfOk result (λ v. AreEach (λ k bs. AreAlways net.now (source_of net.now k) bs) (plain v.items)) }
    ensures len { IfOk result (λ v. vec_len v ≡ length (sources_of net.now)) }
    ensures count { walk.new.count ≡ walk.old.count }
{
    let mut always = Vec::new(alloc);
    for at in 0..net.source_count() {
        let fed = &feeding[at as usize];
        always.push(always_of(alloc, net, links, walk, net.source(at), fed)?)?;
    }
    Ok(always)
}
