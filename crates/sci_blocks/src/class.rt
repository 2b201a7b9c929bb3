// The classes of ports, and the types of links.
use sci_base::BlockFields;

/// A class of ports.
#[derive(Clone, Copy, Debug, Drop)]
pub enum PortClass {
    /// Regular inputs.
    Input,
    /// Regular outputs.
    Output,
    /// Activation inputs.
    ActivationInput,
    /// Activation outputs.
    ActivationOutput,
}

impl PortClass {
    ghost use Rattle.std.specs.Prelude.{◌≡◌, ◌<◌, ◌^◌, pos};
    ghost use Rattle.sci_base.specs.Plain.{fields_of};
    ghost use Rattle.sci_blocks.specs.Ports.{ports, name_of, class_number};
    ghost use Rattle.sci_blocks.specs.Wiring.{side_number};

    /// The name of the port blocks that stand for a superblock's ports of this class.
    pub fn name(self) -> &'static str
        ensures { result.now ≡ name_of self }
    {
        match self {
            PortClass::Input => "IN_f",
            PortClass::Output => "OUT_f",
            PortClass::ActivationInput => "CLKINV_f",
            PortClass::ActivationOutput => "CLKOUTV_f",
        }
    }

    /// The number of the class in a refusal, from 1 to 4.
    pub fn number(self) -> i64
        ensures { result ≡ pos (class_number self) }
    {
        match self {
            PortClass::Input => 1,
            PortClass::Output => 2,
            PortClass::ActivationInput => 3,
            PortClass::ActivationOutput => 4,
        }
    }

    /// The side of a link's end at a port of this class: 0 for an output, 1 for an input.
    pub fn side(self) -> i64
        ensures { result ≡ side_number self }
    {
        match self {
            PortClass::Input | PortClass::ActivationInput => 1,
            PortClass::Output | PortClass::ActivationOutput => 0,
        }
    }

    /// How many ports of this class a block has.
    pub fn ports(self, f: &BlockFields) -> usize
        ensures value { result ≡ ports (fields_of f.now) self }
        ensures few { result < 2 ^ 63 }
    {
        match self {
            PortClass::Input => f.ins.len(),
            PortClass::Output => f.outs.len(),
            PortClass::ActivationInput => f.evtin as usize,
            PortClass::ActivationOutput => f.evtout as usize,
        }
    }
}

/// What a link carries.
#[derive(Clone, Copy, Debug, Drop, PartialEq, Eq, PartialOrd, Ord)]
pub enum LinkType {
    /// Values.
    Regular,
    /// Activations.
    Activation,
}

impl LinkType {
    ghost use Rattle.std.specs.Prelude.{◌≡◌};
    ghost use Rattle.sci_blocks.specs.Wiring.{link_type, source_class, target_class};

    /// The type of a number: 1 for regular links, -1 for activation links.
    pub fn of(kind: i64) -> Option<LinkType>
        ensures { result ≡ link_type kind }
    {
        if sci_forms::values::is_equal(kind, 1) {
            Some(LinkType::Regular)
        } else if sci_forms::values::is_equal(kind, -1) {
            Some(LinkType::Activation)
        } else {
            None
        }
    }

    /// The class of ports that links of this type come from.
    pub fn source(self) -> PortClass
        ensures { result ≡ source_class self }
    {
        match self {
            LinkType::Regular => PortClass::Output,
            LinkType::Activation => PortClass::ActivationOutput,
        }
    }

    /// The class of ports that links of this type end at.
    pub fn target(self) -> PortClass
        ensures { result ≡ target_class self }
    {
        match self {
            LinkType::Regular => PortClass::Input,
            LinkType::Activation => PortClass::ActivationInput,
        }
    }
}
