// The banks of all kinds as one type.
ghost use Rattle.std.specs.Prelude.{◌≡◌};
ghost use Rattle.sci_library.specs.Banks.{fresh, meaning_of};

use sci_bank::{Bank, Call, Fate, Stuck};
use sci_bank_logic::{
    AndLog, BitClear, BitSet, ExtractBits, Logic, LogicalOp, RelationalOp, Select, Shift, Switch2,
};
use sci_bank_math::{
    AbsValue, Const, Convert, DeadBand, Demux, Extractor, GainBlk, MaxMin, Mux, Product,
    Saturation, Signum, Summation,
};
use sci_bank_time::{
    Dollar, ESelect, EvtDly, EvtVarDly, GatedDelay, Halt, IfThEl, ModuloCount, Register, SampHold,
    Sensor,
};
use sci_base::NoMemory;
use sci_kinds::{Kind, Spec};
use sci_span::Place;
use std::alloc::Global;

/// The bank of any kind.
#[derive(Drop)]
pub enum AnyBank {
    Const(Const),
    Summation(Summation),
    GainBlk(GainBlk),
    Product(Product),
    AbsValue(AbsValue),
    Signum(Signum),
    MaxMin(MaxMin),
    Saturation(Saturation),
    DeadBand(DeadBand),
    Convert(Convert),
    Mux(Mux),
    Demux(Demux),
    Extractor(Extractor),
    LogicalOp(LogicalOp),
    RelationalOp(RelationalOp),
    Shift(Shift),
    BitSet(BitSet),
    BitClear(BitClear),
    ExtractBits(ExtractBits),
    Switch2(Switch2),
    Select(Select),
    Logic(Logic),
    AndLog(AndLog),
    Dollar(Dollar),
    SampHold(SampHold),
    Register(Register),
    ModuloCount(ModuloCount),
    GatedDelay(GatedDelay),
    Sensor(Sensor),
    EvtDly(EvtDly),
    EvtVarDly(EvtVarDly),
    IfThEl(IfThEl),
    ESelect(ESelect),
    Halt(Halt),
}

// The same call of the bank, whichever it is.
macro_rules! call {
    ($self:expr, $bank:ident => $call:expr) => {
        match $self {
            AnyBank::Const($bank) => $call,
            AnyBank::Summation($bank) => $call,
            AnyBank::GainBlk($bank) => $call,
            AnyBank::Product($bank) => $call,
            AnyBank::AbsValue($bank) => $call,
            AnyBank::Signum($bank) => $call,
            AnyBank::MaxMin($bank) => $call,
            AnyBank::Saturation($bank) => $call,
            AnyBank::DeadBand($bank) => $call,
            AnyBank::Convert($bank) => $call,
            AnyBank::Mux($bank) => $call,
            AnyBank::Demux($bank) => $call,
            AnyBank::Extractor($bank) => $call,
            AnyBank::LogicalOp($bank) => $call,
            AnyBank::RelationalOp($bank) => $call,
            AnyBank::Shift($bank) => $call,
            AnyBank::BitSet($bank) => $call,
            AnyBank::BitClear($bank) => $call,
            AnyBank::ExtractBits($bank) => $call,
            AnyBank::Switch2($bank) => $call,
            AnyBank::Select($bank) => $call,
            AnyBank::Logic($bank) => $call,
            AnyBank::AndLog($bank) => $call,
            AnyBank::Dollar($bank) => $call,
            AnyBank::SampHold($bank) => $call,
            AnyBank::Register($bank) => $call,
            AnyBank::ModuloCount($bank) => $call,
            AnyBank::GatedDelay($bank) => $call,
            AnyBank::Sensor($bank) => $call,
            AnyBank::EvtDly($bank) => $call,
            AnyBank::EvtVarDly($bank) => $call,
            AnyBank::IfThEl($bank) => $call,
            AnyBank::ESelect($bank) => $call,
            AnyBank::Halt($bank) => $call,
        }
    };
}

impl AnyBank {
    /// The bank of a kind, without instances and calls.
    pub fn of_kind(alloc: Global, kind: Kind) -> AnyBank
        ensures { meaning_of result ≡ fresh kind }
    {
        match kind {
            Kind::Const => AnyBank::Const(Const::new(alloc)),
            Kind::Summation => AnyBank::Summation(Summation::new(alloc)),
            Kind::GainBlk => AnyBank::GainBlk(GainBlk::new(alloc)),
            Kind::Product => AnyBank::Product(Product::new(alloc)),
            Kind::AbsValue => AnyBank::AbsValue(AbsValue::new(alloc)),
            Kind::Signum => AnyBank::Signum(Signum::new(alloc)),
            Kind::MaxMin => AnyBank::MaxMin(MaxMin::new(alloc)),
            Kind::Saturation => AnyBank::Saturation(Saturation::new(alloc)),
            Kind::DeadBand => AnyBank::DeadBand(DeadBand::new(alloc)),
            Kind::Convert => AnyBank::Convert(Convert::new(alloc)),
            Kind::Mux => AnyBank::Mux(Mux::new(alloc)),
            Kind::Demux => AnyBank::Demux(Demux::new(alloc)),
            Kind::Extractor => AnyBank::Extractor(Extractor::new(alloc)),
            Kind::LogicalOp => AnyBank::LogicalOp(LogicalOp::new(alloc)),
            Kind::RelationalOp => AnyBank::RelationalOp(RelationalOp::new(alloc)),
            Kind::Shift => AnyBank::Shift(Shift::new(alloc)),
            Kind::BitSet => AnyBank::BitSet(BitSet::new(alloc)),
            Kind::BitClear => AnyBank::BitClear(BitClear::new(alloc)),
            Kind::ExtractBits => AnyBank::ExtractBits(ExtractBits::new(alloc)),
            Kind::Switch2 => AnyBank::Switch2(Switch2::new(alloc)),
            Kind::Select => AnyBank::Select(Select::new(alloc)),
            Kind::Logic => AnyBank::Logic(Logic::new(alloc)),
            Kind::AndLog => AnyBank::AndLog(AndLog::new(alloc)),
            Kind::Dollar => AnyBank::Dollar(Dollar::new(alloc)),
            Kind::SampHold => AnyBank::SampHold(SampHold::new(alloc)),
            Kind::Register => AnyBank::Register(Register::new(alloc)),
            Kind::ModuloCount => AnyBank::ModuloCount(ModuloCount::new(alloc)),
            Kind::GatedDelay => AnyBank::GatedDelay(GatedDelay::new(alloc)),
            Kind::Sensor => AnyBank::Sensor(Sensor::new(alloc)),
            Kind::EvtDly => AnyBank::EvtDly(EvtDly::new(alloc)),
            Kind::EvtVarDly => AnyBank::EvtVarDly(EvtVarDly::new(alloc)),
            Kind::IfThEl => AnyBank::IfThEl(IfThEl::new(alloc)),
            Kind::ESelect => AnyBank::ESelect(ESelect::new(alloc)),
            Kind::Halt => AnyBank::Halt(Halt::new(alloc)),
        }
    }
}

impl Bank for AnyBank {
    ghost use Rattle.sci_library.specs.Banks.{meaning_of};

    ghost meaning = { meaning_of };

    fn kind(&self) -> Kind {
        call!(self, bank => bank.kind())
    }

    fn outs(&self) -> u64 {
        call!(self, bank => bank.outs())
    }

    fn reset(&mut self) {
        call!(self, bank => bank.reset())
    }

    fn add(&mut self, spec: &Spec) -> Result<usize, NoMemory> {
        call!(self, bank => bank.add(spec))
    }

    fn out(&mut self, slot: usize, mask: u64, ins: &[i64], outs: &mut [i64]) -> Fate {
        call!(self, bank => bank.out(slot, mask, ins, outs))
    }

    fn out_run(&mut self, calls: &[Call], places: &[Place], values: &mut [i64]) -> Option<Stuck> {
        call!(self, bank => bank.out_run(calls, places, values))
    }

    fn branch(&self, slot: usize, ins: &[i64]) -> u32 {
        call!(self, bank => bank.branch(slot, ins))
    }

    fn delay(&self, slot: usize, port: u32, ins: &[i64]) -> i64 {
        call!(self, bank => bank.delay(slot, port, ins))
    }

    fn update(&mut self, slot: usize, mask: u64, ins: &[i64]) {
        call!(self, bank => bank.update(slot, mask, ins))
    }

    fn update_run(&mut self, calls: &[Call], places: &[Place], values: &[i64]) {
        call!(self, bank => bank.update_run(calls, places, values))
    }

    fn state_at(&self, slot: usize, i: usize) -> i64 {
        call!(self, bank => bank.state_at(slot, i))
    }
}
