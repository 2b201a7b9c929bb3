// The numbers of one object's ports.
ghost use Rattle.std.specs.Prelude.{◌≡◌, ◌<◌, ◌^◌};
ghost use Rattle.sci_base.specs.Plain.{fields_of};
ghost use Rattle.sci_blocks.specs.Ports.{ports};
ghost use Rattle.sci_flat.specs.PortNumbers.{seat_at, no_seat, past, start, count, port_number};

use sci_base::BlockFields;
use sci_blocks::PortClass;

/// The numbers of an object's ports, one after another: its regular inputs, its regular outputs, its activation inputs and its activation
/// outputs.
#[derive(Clone, Copy, Drop)]
pub struct PortNumbers {
    /// The number of the first port.
    pub first: u32,
    /// How many regular inputs there are.
    pub ins: u32,
    /// How many regular outputs there are.
    pub outs: u32,
    /// How many activation inputs there are.
    pub evtin: u32,
    /// How many activation outputs there are.
    pub evtout: u32,
}

impl PortNumbers {
    /// The seat of a block whose first port has this number.
    pub(crate) fn of(first: u32, f: &BlockFields) -> PortNumbers
        requires { past (seat_at first (fields_of f.now)) < 2 ^ 32 }
        ensures { result ≡ seat_at first (fields_of f.now) }
    {
        PortNumbers {
            first,
            ins: f.ins.len() as u32,
            outs: f.outs.len() as u32,
            evtin: f.evtin,
            evtout: f.evtout,
        }
    }

    /// The seat of an object without ports.
    pub(crate) fn empty(first: u32) -> PortNumbers
        ensures { result ≡ no_seat first }
    {
        PortNumbers {
            first,
            ins: 0,
            outs: 0,
            evtin: 0,
            evtout: 0,
        }
    }

    /// One more than the number of the last port.
    pub(crate) fn past(self) -> u32
        requires { past self < 2 ^ 32 }
        ensures { result ≡ past self }
    {
        self.first + self.ins + self.outs + self.evtin + self.evtout
    }

    /// The number of the first port of a class, or where it would be.
    pub fn start(self, class: PortClass) -> u32
        requires { past self < 2 ^ 32 }
        ensures { result ≡ start self class }
    {
        match class {
            PortClass::Input => self.first,
            PortClass::Output => self.first + self.ins,
            PortClass::ActivationInput => self.first + self.ins + self.outs,
            PortClass::ActivationOutput => self.first + self.ins + self.outs + self.evtin,
        }
    }

    /// The same, also where the numbers pass 2^32.
    pub fn first_of(self, class: PortClass) -> u64
        ensures { result ≡ start self class }
    {
        let ins = u64::from(self.first) + u64::from(self.ins);
        let outs = ins + u64::from(self.outs);
        match class {
            PortClass::Input => u64::from(self.first),
            PortClass::Output => ins,
            PortClass::ActivationInput => outs,
            PortClass::ActivationOutput => outs + u64::from(self.evtin),
        }
    }

    /// How many ports of a class there are.
    pub fn count(self, class: PortClass) -> u32
        ensures { result ≡ count self class }
    {
        match class {
            PortClass::Input => self.ins,
            PortClass::Output => self.outs,
            PortClass::ActivationInput => self.evtin,
            PortClass::ActivationOutput => self.evtout,
        }
    }

    /// The number of a port, which is counted from 1 in its class; none where there is no such port.
    pub(crate) fn port(self, class: PortClass, port: i64) -> Option<u32>
        requires { past self < 2 ^ 32 }
        ensures { result ≡ port_number self class port }
    {
        if port < 1 || port > i64::from(self.count(class)) {
            return None;
        }
        Some(self.start(class) + (port - 1) as u32)
    }
}
