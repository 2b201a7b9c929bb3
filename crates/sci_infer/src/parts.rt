// The parts of ports, in order.
ghost use Rattle.std.specs.Prelude.{◌≡◌, ◌<◌, ◌≤◌, ◌+◌, ◌++◌, ◌∷◌, [], length, OnOk, IfOk, All};
ghost use Rattle.sci_base.specs.declared.limits.TheConstants.{PORTS};
ghost use Rattle.sci_infer.specs.Typing.{is_type};
ghost use Rattle.sci_infer.specs.PortParts.{port_parts, side_parts, block_parts, parts_in};
ghost use Rattle.sci_infer.specs.Layout.{offset, IsLayout};

use sci_base::NoMemory;
use sci_forms::{Port, Ports, Spec};
use sci_net::Flat;
use std::alloc::Global;

/// The two sides of a block.
#[derive(Clone, Copy, Drop)]
pub enum Side {
    Input,
    Output,
}

/// What is inferred of a port.
#[derive(Clone, Copy, Drop)]
pub enum What {
    DataType,
    Rows,
    Columns,
}

/// A part of a port, and the number that its block declares for it: a number above 0 is fixed, and any other is unknown. Block and
/// port are counted from 1.
#[derive(Clone, Copy, Drop)]
pub struct PortPart {
    pub block: u32,
    pub side: Side,
    pub port: u32,
    pub what: What,
    pub declared: i64,
}

/// The parts of all ports in order, and where each block's parts start.
#[derive(Drop)]
pub struct PartLayout {
    pub parts: Vec<PortPart>,
    pub starts: Vec<usize>,
}

impl What {
    /// The place among a port's parts.
    pub fn offset(self) -> usize
        ensures { result ≡ offset self }
    {
        match self {
            What::DataType => 0,
            What::Rows => 1,
            What::Columns => 2,
        }
    }

    /// Whether a type is meant, and no size.
    pub fn is_type(self) -> bool
        ensures { result ≡ is_type self }
    {
        match self {
            What::DataType => true,
            What::Rows | What::Columns => false,
        }
    }
}

/// The three parts of a port.
fn push_port(
    parts: &mut Vec<PortPart>,
    block: u32,
    side: Side,
    port: u32,
    declared: Port,
) -> Result<(), NoMemory>
    ensures { OnOk result (parts.new.items ≡ parts.old.items ++ port_parts block side port declared) }
{
    parts.push(PortPart {
        block,
        side,
        port,
        what: What::DataType,
        declared: declared.ty,
    })?;
    parts.push(PortPart {
        block,
        side,
        port,
        what: What::Rows,
        declared: declared.rows,
    })?;
    parts.push(PortPart {
        block,
        side,
        port,
        what: What::Columns,
        declared: declared.cols,
    })?;
    Ok(())
}

/// The parts of one side of a block.
fn push_side(
    parts: &mut Vec<PortPart>,
    block: u32,
    side: Side,
    ports: &Ports,
) -> Result<(), NoMemory>
    requires { length ports.now ≤ PORTS }
    ensures { OnOk result (parts.new.items ≡ parts.old.items ++ side_parts block side 1 ports.now) }
{
    for at in 0..ports.len() {
        push_port(parts, block, side, at as u32 + 1, ports.get(at))?;
    }
    Ok(())
}

/// The parts of a block.
fn push_block(parts: &mut Vec<PortPart>, number: u32, spec: &Spec) -> Result<(), NoMemory>
    requires ins { length spec.now.ins ≤ PORTS }
    requires outs { length spec.now.outs ≤ PORTS }
    ensures { OnOk result (parts.new.items ≡ parts.old.items ++ block_parts number spec.now) }
{
    push_side(parts, number, Side::Input, &spec.ins)?;
    push_side(parts, number, Side::Output, &spec.outs)?;
    Ok(())
}

/// The parts of a flat net's ports, and where each block's start.
pub fn lay_out(alloc: Global, flat: &Flat) -> Result<PartLayout, NoMemory>
    ensures { IfOk result (λ l. IsLayout flat.now l) }
{
    flat.well_formed();
    let mut parts = Vec::new(alloc);
    let mut starts = Vec::new(alloc);
    for at in 0..flat.len() {
        starts.push(parts.len())?;
        push_block(&mut parts, at + 1, flat.spec(at + 1))?;
    }
    Ok(PartLayout { parts, starts })
}
