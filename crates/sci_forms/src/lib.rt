//! The kinds of block and their forms: numbers, the table of what each kind asks of its ports, parameters and state, the spec of a
//! block, and the rules on types and sizes.
#![tactic(auto)]

ghost use Rattle.std.specs.Prelude.{◌≡◌};
ghost use Rattle.sci_forms.specs.Numbers.{number_of};

mod broken;
pub mod form;
mod forms;
mod ports;
mod search;
mod spec;
mod typed;
pub mod values;

pub use broken::{Broken, Detail};
pub use form::{Form, Memory, Role};
pub use forms::Counts;
pub use ports::{Port, Ports};
pub use search::first_failing;
pub use spec::Spec;

/// The kinds of block, in the order of their numbers, each with the name that a diagram's `gui` has. In what follows u1, u2, ..
/// are a block's inputs, y1, y2, .. its outputs and x its state; operations go element by element.
#[derive(Clone, Copy, Drop)]
pub enum Kind {
    /// `CONST_m`: y is the parameters.
    Const = 1,
    /// `SUMMATION`: the sum of the inputs, each with its sign, fitted once.
    Summation,
    /// `GAINBLK`: u1 times a number.
    GainBlk,
    /// `PRODUCT`: u1 times u2, or u1 over u2 rounded toward zero.
    Product,
    /// `ABS_VALUE`: the magnitude of u1.
    AbsValue,
    /// `SIGNUM`: -1, 0 or 1 by the sign of u1.
    Signum,
    /// `MAXMIN`: the least or the greatest input.
    MaxMin,
    /// `SATURATION`: u1 brought into a range.
    Saturation,
    /// `DEADBAND`: what u1 has beyond a range.
    DeadBand,
    /// `CONVERT`: u1 fitted to the output's type.
    Convert,
    /// `MUX`: the inputs one below the other.
    Mux,
    /// `DEMUX`: u1 cut in order.
    Demux,
    /// `EXTRACTOR`: chosen elements of u1.
    Extractor,
    /// `LOGICAL_OP`: AND, OR, NAND, NOR, XOR or NOT, of truths or bit by bit.
    LogicalOp,
    /// `RELATIONALOP`: u1 compared with u2.
    RelationalOp,
    /// `SHIFT`: u1 times a power of two, or its bits turned in a circle.
    Shift,
    /// `BITSET`: one bit of u1 made 1.
    BitSet,
    /// `BITCLEAR`: one bit of u1 made 0.
    BitClear,
    /// `EXTRACTBITS`: a range of the bits of u1, as a number.
    ExtractBits,
    /// `SWITCH2_m`: u1 or u3, as u2 compares with a number.
    Switch2,
    /// `SELECT_m`: the input of the least activated port.
    Select,
    /// `LOGIC`: a table of truths.
    Logic,
    /// `ANDLOG_f`: whether both activation inputs are activated.
    AndLog,
    /// `DOLLAR_m`: u1 of the activation before.
    Dollar,
    /// `SAMPHOLD_m`: u1, held between activations.
    SampHold,
    /// `REGISTER`: u1 delayed by as many activations as the state has values.
    Register,
    /// `Modulo_Count`: counts activations modulo a base.
    ModuloCount,
    /// `GATED_DELAY`: u1 of the activation before where u2 is above 0, else 0.
    GatedDelay,
    /// `SENSOR`: the next value of a column of the input file.
    Sensor,
    /// `EVTDLY_c`: an event after a fixed delay.
    EvtDly,
    /// `EVTVARDLY`: an event after a delay of u1 ticks.
    EvtVarDly,
    /// `IFTHEL_f`: activates its first output where u1 is above 0, else its second, at once.
    IfThEl,
    /// `ESELECT_f`: activates the output with the number u1, at once.
    ESelect,
    /// `HALT_f`: ends the run after its reaction.
    Halt,
}

/// How many kinds there are.
pub const KINDS: u8 = 34;

impl Kind {
    /// The number of the kind, from 1.
    pub fn number(self) -> u8
        ensures { result ≡ number_of self }
    {
        self as u8
    }
}
