// Flat nets whose types and sizes are known.
ghost use Rattle.std.specs.Prelude.{◌≡◌, ◌<◌, ◌≤◌, ◌^◌, ◌++◌, ◌∷◌, length, IfOk, OnOk, All, true};
ghost use Rattle.sci_base.specs.declared.limits.TheConstants.{BLOCKS};
ghost use Rattle.sci_forms.specs.Typed.{typed};
ghost use Rattle.sci_net.specs.declared.Source.TheVariants.{Start};
ghost use Rattle.sci_net.specs.Parts.{with_specs, spec_of, path_of, wire_of, feeds_of, column_of};
ghost use Rattle.sci_forms.specs.Form.{is_sensor};
ghost use Rattle.sci_net.specs.Net.{IsNet};
ghost use Rattle.sci_net.specs.Sources.{ports_to, block_sources, sources_from, sources_of, source_of, sensor_columns, columns_from, columns_of};

use crate::{Feed, Source, Wire, Wiring};
use sci_base::{NoMemory, Place, Ty};
use sci_forms::Spec;
use std::alloc::Global;
use std::marker::Model;

/// A column of the input file, from 1 to 255, the type of its values, and the SENSOR that reads it.
#[derive(Clone, Copy, Drop)]
pub struct Column {
    pub number: u32,
    pub ty: Ty,
    pub block: u32,
}

/// A flat net whose types and sizes are known. Blocks and ports are counted from 1.
#[derive(Drop)]
pub struct Net {
    specs: Vec<Spec>,
    wiring: Wiring,
    sources: Vec<Source>,
}

impl Model for Net {
    ghost use Rattle.sci_net.specs.Parts.{Parts, with_specs};
    ghost use Rattle.sci_net.specs.Sources.{IsKept};

    ghost Value = { Parts };

    ghost view = { λ n. with_specs n.wiring n.specs.items };

    ghost invariant = { λ n. IsKept (with_specs n.wiring n.specs.items) n.sources.items };
}

impl Net {
    /// The net of exactly these specs and this wiring.
    pub fn assemble(alloc: Global, specs: Vec<Spec>, wiring: Wiring) -> Result<Net, NoMemory>
        requires { IsNet (with_specs wiring specs.items) }
        ensures { IfOk result (λ n. n ≡ with_specs wiring specs.items) }
    {
        let sources = sources(alloc, &specs)?;
        Ok(Net {
            specs,
            wiring,
            sources,
        })
    }

    /// What holds of every net.
    pub fn well_formed(&self)
        ensures { IsNet self.now }
    {
        let _blocks = self.specs.len();
    }

    /// How many blocks there are, at most 2,048.
    pub fn len(&self) -> u32
        ensures { result ≡ length self.now.specs }
    {
        self.specs.len() as u32
    }

    /// The spec of a block, which is typed.
    pub fn spec(&self, block: u32) -> &Spec
        requires least { 1 ≤ block }
        requires most { block ≤ length self.now.specs }
        ensures value { result.now ≡ spec_of self.now block }
        ensures is_typed { typed result.now ≡ true }
    {
        &self.specs[block as usize - 1]
    }

    /// The place of a block's object in the diagram.
    pub fn path(&self, block: u32) -> &Place
        requires least { 1 ≤ block }
        requires most { block ≤ length self.now.specs }
        ensures { result.now.path.items ≡ path_of self.now block }
    {
        self.wiring.path(block)
    }

    /// The regular output that feeds a regular input.
    pub fn wire(&self, block: u32, port: u32) -> Wire
        requires block_least { 1 ≤ block }
        requires block_most { block ≤ length self.now.specs }
        requires port_least { 1 ≤ port }
        requires port_most { port ≤ length (spec_of self.now block).ins }
        ensures { result ≡ wire_of self.now block port }
    {
        self.wiring.wire(block, port)
    }

    /// The activation outputs that feed an activation input, by block and port, without repeats.
    pub fn feeds(&self, block: u32, port: u32) -> &[Feed]
        requires block_least { 1 ≤ block }
        requires block_most { block ≤ length self.now.specs }
        requires port_least { 1 ≤ port }
        requires port_most { port ≤ (spec_of self.now block).evtin }
        ensures { result.now ≡ feeds_of self.now block port }
    {
        self.wiring.feeds(block, port)
    }

    /// How many sources of activation there are: start, and each activation output of a block that isn't synchronous.
    pub fn source_count(&self) -> u32
        ensures { result ≡ length (sources_of self.now) }
    {
        self.sources.len() as u32
    }

    /// A source of activation: 0 is start, and the others follow by block and port.
    pub fn source(&self, at: u32) -> Source
        requires { at < length (sources_of self.now) }
        ensures { result ≡ source_of self.now at }
    {
        self.sources[at as usize]
    }
}

/// The activation outputs of a block.
fn push_ports(sources: &mut Vec<Source>, block: u32, count: u32) -> Result<(), NoMemory>
    requires { count < 65536 }
    ensures { OnOk result (sources.new.items ≡ sources.old.items ++ ports_to block count) }
{
    for port in 0..count {
        sources.push(Source::Port(Feed {
            block,
            port: port + 1,
        }))?;
    }
    Ok(())
}

/// The sources of a block.
fn push_sources(sources: &mut Vec<Source>, block: u32, spec: &Spec) -> Result<(), NoMemory>
    requires { spec.now.evtout < 65536 }
    ensures { OnOk result (sources.new.items ≡ sources.old.items ++ block_sources block spec.now) }
{
    if spec.kind.is_sync() {
        Ok(())
    } else {
        push_ports(sources, block, spec.evtout)
    }
}

/// Start, and the sources of all blocks.
fn sources(alloc: Global, specs: &[Spec]) -> Result<Vec<Source>, NoMemory>
    requires few { length specs.now ≤ BLOCKS }
    requires typed_specs { All (λ s. typed s ≡ true) specs.now }
    ensures { IfOk result (λ v. v.items ≡ Start ∷ sources_from 1 specs.now) }
{
    let mut sources = Vec::new(alloc);
    sources.push(Source::Start)?;
    for (at, spec) in specs.iter().enumerate() {
        push_sources(&mut sources, at as u32 + 1, spec)?;
    }
    Ok(sources)
}

/// The column of a block, if it is a sensor.
fn push_column(columns: &mut Vec<Column>, block: u32, spec: &Spec) -> Result<(), NoMemory>
    requires { typed spec.now ≡ true }
    ensures { OnOk result (columns.new.items ≡ columns.old.items ++ sensor_columns block spec.now) }
{
    if spec.kind.is_sensor() {
        columns.push(Column {
            number: spec.params.at(0).unsigned_abs() as u32,
            ty: spec.outs.port(0).kind_of_type(),
            block,
        })?;
    }
    Ok(())
}

/// The columns of all blocks.
fn spec_columns(alloc: Global, specs: &[Spec]) -> Result<Vec<Column>, NoMemory>
    requires few { length specs.now ≤ BLOCKS }
    requires typed_specs { All (λ s. typed s ≡ true) specs.now }
    ensures { IfOk result (λ v. v.items ≡ columns_from 1 specs.now) }
{
    let mut columns = Vec::new(alloc);
    for (at, spec) in specs.iter().enumerate() {
        push_column(&mut columns, at as u32 + 1, spec)?;
    }
    Ok(columns)
}

/// The columns of the input file that the net's sensors read, one for each sensor, by block.
pub fn columns(alloc: Global, net: &Net) -> Result<Vec<Column>, NoMemory>
    ensures { IfOk result (λ v. v.items ≡ columns_of net.now) }
{
    spec_columns(alloc, &net.specs)
}
