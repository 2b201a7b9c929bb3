ghost use Rattle.std.specs.Prelude.{◌≡◌, ◌≤◌, ◌++◌, length, codes};
ghost use Rattle.sci_io.specs.Taken.{Writes};
ghost use Rattle.sci_print.specs.Line.{place_text};
ghost use Rattle.sci_net.specs.Parts.{spec_of, path_of};
ghost use Rattle.sci_print.specs.Map.{type_text, output_text, outputs_text, number_text, kind_text, block_line, map_text};

use crate::report::put_place;
use itoa::Buffer;
use sci_base::Ty;
use sci_forms::{Port, Ports, Spec};
use sci_io::{Failed, Sink, put_all};
use sci_net::Net;

fn type_text(ty: Ty) -> &'static str
    ensures { result.now ≡ type_text ty }
{
    match ty {
        Ty::I32 => "int32",
        Ty::I16 => "int16",
        Ty::I8 => "int8",
        Ty::U32 => "uint32",
        Ty::U16 => "uint16",
        Ty::U8 => "uint8",
    }
}

fn put_output<S: Sink>(port: Port, out: &mut S) -> Result<(), Failed>
    ensures { Writes (S.state out.old) (S.state out.new) (output_text port) result }
{
    let mut rows = Buffer::new();
    let mut cols = Buffer::new();
    put_all(
        out,
        &[
            " ".as_bytes(),
            type_text(port.kind_of_type()).as_bytes(),
            "[".as_bytes(),
            rows.format(port.rows).as_bytes(),
            "x".as_bytes(),
            cols.format(port.cols).as_bytes(),
            "]".as_bytes(),
        ],
    )
}

fn put_outputs<S: Sink>(ports: &Ports, out: &mut S) -> Result<(), Failed>
    ensures { Writes (S.state out.old) (S.state out.new) (outputs_text ports.now) result }
{
    for at in 0..ports.len() {
        put_output(ports.get(at), out)?;
    }
    Ok(())
}

fn put_number<S: Sink>(block: u32, out: &mut S) -> Result<(), Failed>
    ensures { Writes (S.state out.old) (S.state out.new) (number_text block) result }
{
    let mut number = Buffer::new();
    put_all(out, &[number.format(block).as_bytes(), " ".as_bytes()])
}

fn put_kind<S: Sink>(spec: &Spec, out: &mut S) -> Result<(), Failed>
    ensures { Writes (S.state out.old) (S.state out.new) (kind_text spec.now) result }
{
    put_all(
        out,
        &[" ".as_bytes(), sci_names::name_of(spec.kind).as_bytes()],
    )
}

fn put_ports<S: Sink>(spec: &Spec, out: &mut S) -> Result<(), Failed>
    ensures { Writes (S.state out.old) (S.state out.new) (outputs_text spec.now.outs ++ codes "\n") result }
{
    put_outputs(&spec.outs, out)?;
    out.put("\n".as_bytes())
}

fn put_block<S: Sink>(spec: &Spec, out: &mut S) -> Result<(), Failed>
    ensures { Writes (S.state out.old) (S.state out.new) (kind_text spec.now ++ (outputs_text spec.now.outs ++ codes "\n")) result }
{
    put_kind(spec, out)?;
    put_ports(spec, out)
}

fn put_placed<S: Sink>(path: &[u32], spec: &Spec, out: &mut S) -> Result<(), Failed>
    ensures { Writes (S.state out.old) (S.state out.new) (place_text path.now ++ (kind_text spec.now ++ (outputs_text spec.now.outs ++ codes "\n"))) result }
{
    put_place(path, out)?;
    put_block(spec, out)
}

fn put_line<S: Sink>(block: u32, path: &[u32], spec: &Spec, out: &mut S) -> Result<(), Failed>
    ensures { Writes (S.state out.old) (S.state out.new) (block_line block path.now spec.now) result }
{
    put_number(block, out)?;
    put_placed(path, spec, out)
}

fn put_line_of<S: Sink>(net: &Net, block: u32, out: &mut S) -> Result<(), Failed>
    requires least { 1 ≤ block }
    requires most { block ≤ length net.now.specs }
    ensures { Writes (S.state out.old) (S.state out.new) (block_line block (path_of net.now block) (spec_of net.now block)) result }
{
    let place = net.path(block);
    put_line(block, place.path.as_slice(), net.spec(block), out)
}

/// Writes the map of a net: for each block a line `<number> <place> <kind>`, and ` <type>[<rows>x<columns>]` for each of its outputs. It
/// fails where the sink does.
pub fn write_map<S: Sink>(net: &Net, out: &mut S) -> Result<(), Failed>
    ensures { Writes (S.state out.old) (S.state out.new) (map_text net.now) result }
{
    for at in 0..net.len() {
        put_line_of(net, at + 1, out)?;
    }
    Ok(())
}
