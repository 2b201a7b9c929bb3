// What each kind asks of its blocks, kind by kind.
ghost use Rattle.std.specs.Prelude.{◌≡◌};
ghost use Rattle.sci_forms.specs.Form.{form, role_of, is_sensor, is_halt, is_sync, has_delay, has_state, remembers, feeds, reads_mask, one, two, three, each};

use crate::Kind;
use sci_base::limits;

/// How many ports of a class a block has.
#[derive(Clone, Copy, Drop)]
pub enum Count {
    /// So many, at least and at most.
    Between(usize, usize),
    /// As many as it has inputs.
    AsInputs,
}

/// Which inputs have direct feedthrough: within a reaction the outputs, or the branch that is taken, depend on their values.
#[derive(Clone, Copy, Drop)]
pub enum Feedthrough {
    /// None of them.
    None,
    /// All of them.
    All,
    /// The second alone.
    Second,
}

/// What a state is.
#[derive(Clone, Copy, Drop)]
pub enum Memory {
    /// A value for each element of the output, in its type; `dstate` has these, or one for all.
    Elements,
    /// From 1 to 256 values in the output's type, which move up.
    Moving,
    /// One number from 0 to below parameter 0.
    Counter,
}

/// What a kind's blocks do beside giving values.
#[derive(Clone, Copy, Drop)]
pub enum Role {
    /// They give values alone.
    Values,
    /// They have a state.
    State(Memory),
    /// Their activation output fires after a delay.
    Delay,
    /// They choose a branch.
    Branch,
    /// They take values of the input file.
    Sensor,
    /// They end the run.
    Halt,
}

/// How many parameters a block has.
#[derive(Clone, Copy, Drop)]
pub enum ParamCount {
    /// So many.
    Exactly(usize),
    /// One for each element of the output, or one for all.
    PerElement,
    /// From 1 to 256, and as many as the output has elements.
    PerRow,
    /// One for each input, behind one more.
    BehindOne,
    /// One for each output in each row of truths of the inputs.
    Truths,
}

/// What a parameter is.
#[derive(Clone, Copy, Drop)]
pub enum Param {
    /// Any number.
    Any,
    /// A number from one to another.
    Between(i64, i64),
    /// What is done on overflow: 0 wraps around, 1 saturates, 2 stops the run.
    Mode,
    /// 1 or -1.
    Sign,
    /// 0 or 1.
    Flag,
    /// A value of the type.
    Value,
    /// A value of the type, at least the parameter before.
    High,
    /// The number of an element of the input, from 1.
    Element,
    /// A logical operation: 5 of one input, and 0 to 4 of more.
    Operation,
    /// Places to shift by, of which there are less than the type has bits.
    Places,
    /// A bit of the type.
    Bit,
    /// A bit of the type, at least the one before.
    LastBit,
    /// A base, from 1 to 2147483647, up to which the numbers are of the type.
    Base,
}

/// The parameters: how many, and what the first, the second and each one behind these are.
#[derive(Clone, Copy, Drop)]
pub struct Params {
    pub count: ParamCount,
    pub first: Param,
    pub second: Param,
    pub third: Param,
}

/// The types of the ports.
#[derive(Clone, Copy, Drop)]
pub enum Types {
    /// One type for all.
    Alike,
    /// One type for all inputs, any type for the outputs.
    AnyOutput,
    /// Any type for the second input, one for all others.
    AnySecond,
    /// Any types.
    Any,
    /// int32.
    Int32,
}

/// The sizes of the ports.
#[derive(Clone, Copy, Drop)]
pub enum Sizes {
    /// One size for all.
    Alike,
    /// Scalars.
    Scalars,
    /// A scalar as the second input, one size for all others.
    ScalarSecond,
    /// Inputs of one column, one below the other as the output.
    Stacked,
    /// An input of one column, cut into the outputs.
    Cut,
    /// An output of one column, with an element for each parameter.
    Chosen,
}

/// Whether it means something which activation inputs are activated.
#[derive(Clone, Copy, Drop)]
pub enum Mask {
    /// No.
    Unread,
    /// Yes, also where none is.
    Read,
    /// Yes, and one is.
    Needed,
}

/// What a kind asks of its blocks.
#[derive(Clone, Copy, Drop)]
pub struct Form {
    pub ins: Count,
    pub outs: Count,
    pub evtin: Count,
    pub evtout: Count,
    pub feedthrough: Feedthrough,
    pub params: Params,
    pub role: Role,
    /// Whether the outputs hold the state before the first activation, and not 0.
    pub holds_state: bool,
    pub types: Types,
    pub sizes: Sizes,
    pub mask: Mask,
}

const NO: Count = Count::Between(0, 0);

const ONE: Count = Count::Between(1, 1);

const TWO: Count = Count::Between(2, 2);

const THREE: Count = Count::Between(3, 3);
/// From two on, as many as a block may have.
const MANY: Count = Count::Between(2, limits::PORTS as usize);

/// Parameters of which the first is so, and no other is there.
const fn one(first: Param) -> Params
    ensures { result ≡ one first }
{
    Params {
        count: ParamCount::Exactly(1),
        first,
        second: Param::Any,
        third: Param::Any,
    }
}

/// Two parameters.
const fn two(first: Param, second: Param) -> Params
    ensures { result ≡ two first second }
{
    Params {
        count: ParamCount::Exactly(2),
        first,
        second,
        third: Param::Any,
    }
}

/// Three parameters.
const fn three(first: Param, second: Param, third: Param) -> Params
    ensures { result ≡ three first second third }
{
    Params {
        count: ParamCount::Exactly(3),
        first,
        second,
        third,
    }
}

/// Parameters that are all so.
const fn each(count: ParamCount, param: Param) -> Params
    ensures { result ≡ each count param }
{
    Params {
        count,
        first: param,
        second: param,
        third: param,
    }
}

/// What most kinds ask: one input and one output, alike, none or one activation input, feedthrough, and no parameters.
const USUAL: Form = Form {
    ins: ONE,
    outs: ONE,
    evtin: Count::Between(0, 1),
    evtout: NO,
    feedthrough: Feedthrough::All,
    params: Params {
        count: ParamCount::Exactly(0),
        first: Param::Any,
        second: Param::Any,
        third: Param::Any,
    },
    role: Role::Values,
    holds_state: false,
    types: Types::Alike,
    sizes: Sizes::Alike,
    mask: Mask::Unread,
};

impl Kind {
    /// What the kind asks of its blocks.
    #[inline(always)]
    pub fn form(self) -> Form
        ensures { result ≡ form self }
    {
        match self {
            Kind::Const => Form {
                ins: NO,
                evtin: NO,
                feedthrough: Feedthrough::None,
                params: each(ParamCount::PerElement, Param::Value),
                ..USUAL
            },
            Kind::Summation => Form {
                ins: MANY,
                params: Params {
                    count: ParamCount::BehindOne,
                    first: Param::Mode,
                    second: Param::Sign,
                    third: Param::Sign,
                },
                ..USUAL
            },
            Kind::GainBlk => Form {
                params: two(Param::Mode, Param::Value),
                ..USUAL
            },
            Kind::Product => Form {
                ins: TWO,
                params: two(Param::Mode, Param::Sign),
                ..USUAL
            },
            Kind::AbsValue => Form {
                params: one(Param::Mode),
                ..USUAL
            },
            Kind::Signum => USUAL,
            Kind::MaxMin => Form {
                ins: MANY,
                params: one(Param::Between(1, 2)),
                ..USUAL
            },
            Kind::Saturation => Form {
                params: two(Param::Value, Param::High),
                ..USUAL
            },
            Kind::DeadBand => Form {
                params: three(Param::Mode, Param::Value, Param::High),
                ..USUAL
            },
            Kind::Convert => Form {
                params: one(Param::Mode),
                types: Types::AnyOutput,
                ..USUAL
            },
            Kind::Mux => Form {
                ins: MANY,
                sizes: Sizes::Stacked,
                ..USUAL
            },
            Kind::Demux => Form {
                outs: MANY,
                sizes: Sizes::Cut,
                ..USUAL
            },
            Kind::Extractor => Form {
                params: each(ParamCount::PerRow, Param::Element),
                sizes: Sizes::Chosen,
                ..USUAL
            },
            Kind::LogicalOp => Form {
                ins: Count::Between(1, limits::PORTS as usize),
                params: two(Param::Operation, Param::Flag),
                ..USUAL
            },
            Kind::RelationalOp => Form {
                ins: TWO,
                params: one(Param::Between(0, 5)),
                types: Types::AnyOutput,
                ..USUAL
            },
            Kind::Shift => Form {
                params: two(Param::Places, Param::Flag),
                ..USUAL
            },
            Kind::BitSet => Form {
                params: one(Param::Bit),
                ..USUAL
            },
            Kind::BitClear => Form {
                params: one(Param::Bit),
                ..USUAL
            },
            Kind::ExtractBits => Form {
                params: two(Param::Between(0, 31), Param::LastBit),
                ..USUAL
            },
            Kind::Switch2 => Form {
                ins: THREE,
                params: two(
                    Param::Between(0, 2),
                    Param::Between(-2147483648, 4294967295),
                ),
                types: Types::AnySecond,
                sizes: Sizes::ScalarSecond,
                ..USUAL
            },
            Kind::Select => Form {
                ins: Count::Between(2, 8),
                evtin: Count::AsInputs,
                mask: Mask::Needed,
                ..USUAL
            },
            Kind::Logic => Form {
                ins: Count::Between(1, 8),
                outs: Count::Between(1, 8),
                params: each(ParamCount::Truths, Param::Flag),
                types: Types::Any,
                sizes: Sizes::Scalars,
                ..USUAL
            },
            Kind::AndLog => Form {
                ins: NO,
                evtin: TWO,
                feedthrough: Feedthrough::None,
                types: Types::Int32,
                sizes: Sizes::Scalars,
                mask: Mask::Read,
                ..USUAL
            },
            Kind::Dollar => Form {
                feedthrough: Feedthrough::None,
                role: Role::State(Memory::Elements),
                holds_state: true,
                ..USUAL
            },
            Kind::SampHold => USUAL,
            Kind::Register => Form {
                feedthrough: Feedthrough::None,
                role: Role::State(Memory::Moving),
                holds_state: true,
                sizes: Sizes::Scalars,
                ..USUAL
            },
            Kind::ModuloCount => Form {
                ins: NO,
                evtin: ONE,
                feedthrough: Feedthrough::None,
                params: one(Param::Base),
                role: Role::State(Memory::Counter),
                holds_state: true,
                sizes: Sizes::Scalars,
                ..USUAL
            },
            Kind::GatedDelay => Form {
                ins: TWO,
                feedthrough: Feedthrough::Second,
                role: Role::State(Memory::Elements),
                types: Types::AnySecond,
                sizes: Sizes::ScalarSecond,
                ..USUAL
            },
            Kind::Sensor => Form {
                ins: NO,
                evtin: ONE,
                feedthrough: Feedthrough::None,
                params: one(Param::Between(1, 255)),
                role: Role::Sensor,
                sizes: Sizes::Scalars,
                ..USUAL
            },
            Kind::EvtDly => Form {
                ins: NO,
                outs: NO,
                evtin: ONE,
                evtout: ONE,
                feedthrough: Feedthrough::None,
                params: one(Param::Between(-1, limits::DELAY)),
                role: Role::Delay,
                ..USUAL
            },
            Kind::EvtVarDly => Form {
                outs: NO,
                evtin: ONE,
                evtout: ONE,
                feedthrough: Feedthrough::None,
                role: Role::Delay,
                sizes: Sizes::Scalars,
                ..USUAL
            },
            Kind::IfThEl => Form {
                outs: NO,
                evtout: TWO,
                role: Role::Branch,
                sizes: Sizes::Scalars,
                ..USUAL
            },
            Kind::ESelect => Form {
                outs: NO,
                evtout: MANY,
                role: Role::Branch,
                sizes: Sizes::Scalars,
                ..USUAL
            },
            Kind::Halt => Form {
                ins: NO,
                outs: NO,
                evtin: ONE,
                feedthrough: Feedthrough::None,
                role: Role::Halt,
                ..USUAL
            },
        }
    }

    /// What the kind's blocks do beside giving values.
    pub fn role(self) -> Role
        ensures { result ≡ role_of self }
    {
        self.form().role
    }

    /// Whether the kind chooses a branch.
    pub fn is_sync(self) -> bool
        ensures { result ≡ is_sync self }
    {
        match self.role() {
            Role::Branch => true,
            Role::Values | Role::State(_) | Role::Delay | Role::Sensor | Role::Halt => false,
        }
    }

    /// Whether the kind's activation outputs have a delay.
    pub fn has_delay(self) -> bool
        ensures { result ≡ has_delay self }
    {
        match self.role() {
            Role::Delay => true,
            Role::Values | Role::State(_) | Role::Branch | Role::Sensor | Role::Halt => false,
        }
    }

    /// Whether the kind has a state.
    pub fn has_state(self) -> bool
        ensures { result ≡ has_state self }
    {
        match self.role() {
            Role::State(_) => true,
            Role::Values | Role::Delay | Role::Branch | Role::Sensor | Role::Halt => false,
        }
    }

    /// Whether the kind takes values of the input file.
    pub fn is_sensor(self) -> bool
        ensures { result ≡ is_sensor self }
    {
        match self.role() {
            Role::Sensor => true,
            Role::Values | Role::State(_) | Role::Delay | Role::Branch | Role::Halt => false,
        }
    }

    /// Whether the kind ends the run.
    pub fn is_halt(self) -> bool
        ensures { result ≡ is_halt self }
    {
        match self.role() {
            Role::Halt => true,
            Role::Values | Role::State(_) | Role::Delay | Role::Branch | Role::Sensor => false,
        }
    }

    /// Whether the kind's blocks remember more than their outputs: a state, or how far they have read their column.
    pub fn remembers(self) -> bool
        ensures { result ≡ remembers self }
    {
        self.has_state() || self.is_sensor()
    }

    /// Whether it means something to the kind which activation inputs are activated.
    pub fn reads_mask(self) -> bool
        ensures { result ≡ reads_mask self }
    {
        match self.form().mask {
            Mask::Unread => false,
            Mask::Read | Mask::Needed => true,
        }
    }

    /// Whether the kind has direct feedthrough from an input, counted from 1.
    pub fn feeds(self, input: u32) -> bool
        ensures { result ≡ feeds self input }
    {
        self.feeds_at(input as usize)
    }

    pub(crate) fn feeds_at(self, input: usize) -> bool
        ensures { result ≡ feeds self input }
    {
        match self.form().feedthrough {
            Feedthrough::None => false,
            Feedthrough::All => true,
            Feedthrough::Second => input == 2,
        }
    }
}
