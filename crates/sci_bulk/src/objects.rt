// The objects of a bulk diagram.
ghost use Rattle.std.specs.Prelude.{◌≡◌, ◌<◌, ◌^◌, [], pos, IfOk};
ghost use Rattle.sci_base.specs.Lists.{repeated};
ghost use Rattle.sci_base.specs.Plain.{fields_of};
ghost use Rattle.sci_diagram.specs.Objects.{object_view, block};
ghost use Rattle.sci_bulk.specs.declared.data_block.DataBlock.TheVariants.{One, Delay, Sum, Triple};
ghost use Rattle.sci_bulk.specs.Bulk.{fields, clock, data_object, activates, feeds};

use crate::data_block::DataBlock;
use sci_base::{BlockFields, NoMemory};
use sci_diagram::{BlockObj, End, LinkObj, Obj};
use std::alloc::Global;

// How many ports a block has.
#[derive(Clone, Copy)]
struct BulkPorts {
    ins: u32,
    outs: u32,
    evtin: u32,
    evtout: u32,
}

// A block's lists of numbers.
#[derive(Drop)]
struct Lists {
    ipar: Vec<i64>,
    dstate: Vec<i64>,
    firing: Vec<i64>,
}

// The value for each port.
fn repeated(alloc: Global, value: i64, count: u32) -> Result<Vec<i64>, NoMemory>
    ensures { IfOk result (λ values. values.items ≡ repeated value count) }
{
    let mut values = Vec::new(alloc);
    for _port in 0..count {
        values.push(value)?;
    }
    Ok(values)
}

fn fields(alloc: Global, ports: BulkPorts, lists: Lists) -> Result<BlockFields, NoMemory>
    ensures { IfOk result (λ f. fields_of f
        ≡ fields ports.ins ports.outs ports.evtin ports.evtout lists.ipar.items lists.dstate.items lists.firing.items) }
{
    Ok(BlockFields {
        ins: repeated(alloc, 1, ports.ins)?,
        in2: Vec::new(alloc),
        intyp: repeated(alloc, 3, ports.ins)?,
        outs: repeated(alloc, 1, ports.outs)?,
        out2: Vec::new(alloc),
        outtyp: repeated(alloc, 3, ports.outs)?,
        evtin: ports.evtin,
        evtout: ports.evtout,
        dstate: lists.dstate,
        ipar: lists.ipar,
        firing: lists.firing,
        dep: None,
    })
}

fn block(alloc: Global, gui: &str, ports: BulkPorts, lists: Lists) -> Result<Obj, NoMemory>
    ensures { IfOk result (λ o. object_view o
        ≡ block gui.now (fields ports.ins ports.outs ports.evtin ports.evtout lists.ipar.items lists.dstate.items lists.firing.items)) }
{
    let gui = String::from_str(alloc, gui)?;
    let fields = fields(alloc, ports, lists)?;
    Ok(Obj::Block(BlockObj {
        gui,
        fields,
        inner: None,
    }))
}

/// The clock that fires every so many ticks.
pub(crate) fn clock(alloc: Global, ticks: u32) -> Result<Obj, NoMemory>
    ensures { IfOk result (λ o. object_view o ≡ clock ticks) }
{
    let ports = BulkPorts {
        ins: 0,
        outs: 0,
        evtin: 1,
        evtout: 1,
    };
    let lists = Lists {
        ipar: vec![in alloc; i64::from(ticks)]?,
        dstate: Vec::new(alloc),
        firing: vec![in alloc; i64::from(ticks)]?,
    };
    block(alloc, "EVTDLY_c", ports, lists)
}

fn data_ports(ins: u32, evtin: u32) -> BulkPorts
    ensures { result ≡ record { ins = ins; outs = 1; evtin = evtin; evtout = 0 } }
{
    BulkPorts {
        ins,
        outs: 1,
        evtin,
        evtout: 0,
    }
}

fn parameters(alloc: Global, ipar: Vec<i64>) -> Lists
    ensures ipar { result.ipar ≡ ipar }
    ensures dstate { result.dstate.items ≡ [] }
    ensures firing { result.firing.items ≡ [] }
{
    Lists {
        ipar,
        dstate: Vec::new(alloc),
        firing: Vec::new(alloc),
    }
}

fn first_state(alloc: Global, dstate: Vec<i64>) -> Lists
    ensures ipar { result.ipar.items ≡ [] }
    ensures dstate { result.dstate ≡ dstate }
    ensures firing { result.firing.items ≡ [] }
{
    Lists {
        ipar: Vec::new(alloc),
        dstate,
        firing: Vec::new(alloc),
    }
}

fn one(alloc: Global) -> Result<Obj, NoMemory>
    ensures { IfOk result (λ o. object_view o ≡ data_object One) }
{
    let lists = parameters(alloc, vec![in alloc; 1]?);
    block(alloc, "CONST_m", data_ports(0, 0), lists)
}

fn delay(alloc: Global) -> Result<Obj, NoMemory>
    ensures { IfOk result (λ o. object_view o ≡ data_object (Delay 0 0)) }
{
    let lists = first_state(alloc, vec![in alloc; 0]?);
    block(alloc, "DOLLAR_m", data_ports(1, 1), lists)
}

fn sum(alloc: Global) -> Result<Obj, NoMemory>
    ensures { IfOk result (λ o. object_view o ≡ data_object (Sum 0 0)) }
{
    let lists = parameters(alloc, vec![in alloc; 0, 1, 1]?);
    block(alloc, "SUMMATION", data_ports(2, 0), lists)
}

fn triple(alloc: Global) -> Result<Obj, NoMemory>
    ensures { IfOk result (λ o. object_view o ≡ data_object (Triple 0)) }
{
    let lists = parameters(alloc, vec![in alloc; 0, 3]?);
    block(alloc, "GAINBLK", data_ports(1, 0), lists)
}

/// The object of a data block.
pub(crate) fn data_object(alloc: Global, data: DataBlock) -> Result<Obj, NoMemory>
    ensures { IfOk result (λ o. object_view o ≡ data_object «data») }
{
    match data {
        DataBlock::One => one(alloc),
        DataBlock::Delay(_, _) => delay(alloc),
        DataBlock::Sum(_, _) => sum(alloc),
        DataBlock::Triple(_) => triple(alloc),
    }
}

/// The activation link from a clock to an object.
pub(crate) fn activates(clock: u32, object: u32) -> Obj
    ensures { object_view result ≡ activates clock object }
{
    Obj::Link(LinkObj {
        from: output_end(u64::from(clock)),
        to: input_end(object, 1),
        kind: -1,
    })
}

/// The regular link from a data block to an input of an object.
pub(crate) fn feeds(source: u32, object: u32, port: u32) -> Obj
    ensures { object_view result ≡ feeds source object port }
{
    Obj::Link(LinkObj {
        from: output_end(8 + u64::from(source)),
        to: input_end(object, port),
        kind: 1,
    })
}

fn output_end(object: u64) -> End
    requires { object < 2 ^ 33 }
    ensures { result ≡ record { block = pos object; port = pos 1; side = pos 0 } }
{
    End {
        block: object as i64,
        port: 1,
        side: 0,
    }
}

fn input_end(object: u32, port: u32) -> End
    ensures { result ≡ record { block = pos object; port = pos port; side = pos 1 } }
{
    End {
        block: i64::from(object),
        port: i64::from(port),
        side: 1,
    }
}
