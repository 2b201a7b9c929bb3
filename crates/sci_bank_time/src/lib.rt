//! The banks of the kinds with states, sensors, delays and branches, numbers 24 to 34. A kind is functions of one element;
//! storage, loops, counting and stops are `KindBank`'s.
#![tactic(auto)]

mod branching;
mod delayed;
mod dollar;
mod e_select;
mod evt_dly;
mod evt_var_dly;
mod gated_delay;
mod halt;
mod if_th_el;
mod modulo_count;
mod register;
mod samp_hold;
mod sensor;
mod stateful;

pub use branching::{BranchRule, Branching};
pub use delayed::{DelayRule, Delayed};
pub use dollar::{Dollar, DollarRule};
pub use e_select::{ESelect, ESelectRule};
pub use evt_dly::{EvtDly, EvtDlyRule};
pub use evt_var_dly::{EvtVarDly, EvtVarDlyRule};
pub use gated_delay::{GatedDelay, GatedDelayRule};
pub use halt::{Halt, HaltRule};
pub use if_th_el::{IfThEl, IfThElRule};
pub use modulo_count::{ModuloCount, ModuloCountRule};
pub use register::{Register, RegisterRule};
pub use samp_hold::{SampHold, SampHoldRule};
pub use sensor::{Sensor, SensorRule};
pub use stateful::{StateRule, Stateful};
