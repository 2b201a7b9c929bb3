//! The kinds of block by their names, as `gui` in a diagram's file has them, and by their numbers.
#![tactic(auto)]

ghost use Rattle.std.specs.Prelude.{◌≡◌};
ghost use Rattle.std.specs.Array.Iter.{array_into_iter_items};
ghost use Rattle.sci_forms.specs.Numbers.{all_kinds, kind_at};
ghost use Rattle.sci_names.specs.Names.{name_of, by_name};

use sci_forms::Kind;
use std::array;

/// All kinds, in the order of their numbers.
pub fn all_kinds() -> array::IntoIter<Kind, 34>
    ensures { array_into_iter_items result ≡ all_kinds }
{
    [
        Kind::Const,
        Kind::Summation,
        Kind::GainBlk,
        Kind::Product,
        Kind::AbsValue,
        Kind::Signum,
        Kind::MaxMin,
        Kind::Saturation,
        Kind::DeadBand,
        Kind::Convert,
        Kind::Mux,
        Kind::Demux,
        Kind::Extractor,
        Kind::LogicalOp,
        Kind::RelationalOp,
        Kind::Shift,
        Kind::BitSet,
        Kind::BitClear,
        Kind::ExtractBits,
        Kind::Switch2,
        Kind::Select,
        Kind::Logic,
        Kind::AndLog,
        Kind::Dollar,
        Kind::SampHold,
        Kind::Register,
        Kind::ModuloCount,
        Kind::GatedDelay,
        Kind::Sensor,
        Kind::EvtDly,
        Kind::EvtVarDly,
        Kind::IfThEl,
        Kind::ESelect,
        Kind::Halt,
    ]
    .into_iter()
}

/// The kind of a name.
pub fn by_name(s: &str) -> Option<Kind>
    ensures { result ≡ by_name s.now }
{
    for kind in all_kinds() {
        if s == name_of(kind) {
            return Some(kind);
        }
    }
    None
}

/// The name of a kind.
pub fn name_of(kind: Kind) -> &'static str
    ensures { result.now ≡ name_of kind }
{
    match kind {
        Kind::Const => "CONST_m",
        Kind::Summation => "SUMMATION",
        Kind::GainBlk => "GAINBLK",
        Kind::Product => "PRODUCT",
        Kind::AbsValue => "ABS_VALUE",
        Kind::Signum => "SIGNUM",
        Kind::MaxMin => "MAXMIN",
        Kind::Saturation => "SATURATION",
        Kind::DeadBand => "DEADBAND",
        Kind::Convert => "CONVERT",
        Kind::Mux => "MUX",
        Kind::Demux => "DEMUX",
        Kind::Extractor => "EXTRACTOR",
        Kind::LogicalOp => "LOGICAL_OP",
        Kind::RelationalOp => "RELATIONALOP",
        Kind::Shift => "SHIFT",
        Kind::BitSet => "BITSET",
        Kind::BitClear => "BITCLEAR",
        Kind::ExtractBits => "EXTRACTBITS",
        Kind::Switch2 => "SWITCH2_m",
        Kind::Select => "SELECT_m",
        Kind::Logic => "LOGIC",
        Kind::AndLog => "ANDLOG_f",
        Kind::Dollar => "DOLLAR_m",
        Kind::SampHold => "SAMPHOLD_m",
        Kind::Register => "REGISTER",
        Kind::ModuloCount => "Modulo_Count",
        Kind::GatedDelay => "GATED_DELAY",
        Kind::Sensor => "SENSOR",
        Kind::EvtDly => "EVTDLY_c",
        Kind::EvtVarDly => "EVTVARDLY",
        Kind::IfThEl => "IFTHEL_f",
        Kind::ESelect => "ESELECT_f",
        Kind::Halt => "HALT_f",
    }
}

/// The kind of a number.
pub fn kind_at(n: u8) -> Option<Kind>
    ensures { result ≡ kind_at n }
{
    match n {
        1 => Some(Kind::Const),
        2 => Some(Kind::Summation),
        3 => Some(Kind::GainBlk),
        4 => Some(Kind::Product),
        5 => Some(Kind::AbsValue),
        6 => Some(Kind::Signum),
        7 => Some(Kind::MaxMin),
        8 => Some(Kind::Saturation),
        9 => Some(Kind::DeadBand),
        10 => Some(Kind::Convert),
        11 => Some(Kind::Mux),
        12 => Some(Kind::Demux),
        13 => Some(Kind::Extractor),
        14 => Some(Kind::LogicalOp),
        15 => Some(Kind::RelationalOp),
        16 => Some(Kind::Shift),
        17 => Some(Kind::BitSet),
        18 => Some(Kind::BitClear),
        19 => Some(Kind::ExtractBits),
        20 => Some(Kind::Switch2),
        21 => Some(Kind::Select),
        22 => Some(Kind::Logic),
        23 => Some(Kind::AndLog),
        24 => Some(Kind::Dollar),
        25 => Some(Kind::SampHold),
        26 => Some(Kind::Register),
        27 => Some(Kind::ModuloCount),
        28 => Some(Kind::GatedDelay),
        29 => Some(Kind::Sensor),
        30 => Some(Kind::EvtDly),
        31 => Some(Kind::EvtVarDly),
        32 => Some(Kind::IfThEl),
        33 => Some(Kind::ESelect),
        34 => Some(Kind::Halt),
        _ => None,
    }
}
