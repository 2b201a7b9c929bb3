// Pass-through objects.
ghost use Rattle.std.specs.Prelude.{◌≡◌};
ghost use Rattle.sci_blocks.specs.Rows.{counts};

use crate::class::{LinkType, PortClass};
use sci_base::limits;
use sci_forms::Counts;

/// A pass-through object.
#[derive(Clone, Copy, Debug, Drop)]
pub enum PassThrough {
    /// `SPLIT_f`: joins its input to each of its outputs.
    Split,
    /// `CLKSPLIT_f`: joins its activation input to each of its activation outputs.
    ActivationSplit,
    /// `CLKSOM_f`, `CLKSOMV_f`: joins each of its activation inputs to its activation output.
    Union,
    /// `IN_f`, `OUT_f`, `CLKINV_f`, `CLKOUTV_f`: stands for a port of this class of the superblock around it.
    PortBlock(PortClass),
    /// `GOTO`, `CLKGOTO`: gives its tag what comes to its input.
    Giver(LinkType),
    /// `FROM`, `CLKFROM`: takes to its output what its tag is given.
    Taker(LinkType),
}

impl PassThrough {
    ghost use Rattle.sci_blocks.specs.Rows.{pass_through, row};

    /// The pass-through object of a name.
    pub fn of(gui: &str) -> Option<PassThrough>
        ensures { result ≡ pass_through gui.now }
    {
        match gui {
            "SPLIT_f" => Some(PassThrough::Split),
            "CLKSPLIT_f" => Some(PassThrough::ActivationSplit),
            "CLKSOM_f" | "CLKSOMV_f" => Some(PassThrough::Union),
            "IN_f" => Some(PassThrough::PortBlock(PortClass::Input)),
            "OUT_f" => Some(PassThrough::PortBlock(PortClass::Output)),
            "CLKINV_f" => Some(PassThrough::PortBlock(PortClass::ActivationInput)),
            "CLKOUTV_f" => Some(PassThrough::PortBlock(PortClass::ActivationOutput)),
            "GOTO" => Some(PassThrough::Giver(LinkType::Regular)),
            "FROM" => Some(PassThrough::Taker(LinkType::Regular)),
            "CLKGOTO" => Some(PassThrough::Giver(LinkType::Activation)),
            "CLKFROM" => Some(PassThrough::Taker(LinkType::Activation)),
            _ => None,
        }
    }

    /// The least and the most ports of each class.
    pub fn row(self) -> Counts
        ensures { result ≡ row self }
    {
        match self {
            PassThrough::Split => regular(1, 1, 1, limits::PORTS as usize),
            PassThrough::ActivationSplit => activation(1, 1, 1, limits::PORTS as usize),
            PassThrough::Union => activation(1, limits::PORTS as usize, 1, 1),
            PassThrough::PortBlock(PortClass::Input) => regular(0, 0, 1, 1),
            PassThrough::PortBlock(PortClass::Output) => regular(1, 1, 0, 0),
            PassThrough::PortBlock(PortClass::ActivationInput) => activation(0, 0, 1, 1),
            PassThrough::PortBlock(PortClass::ActivationOutput) => activation(1, 1, 0, 0),
            PassThrough::Giver(LinkType::Regular) => regular(1, 1, 0, 0),
            PassThrough::Giver(LinkType::Activation) => activation(1, 1, 0, 0),
            PassThrough::Taker(LinkType::Regular) => regular(0, 0, 1, 1),
            PassThrough::Taker(LinkType::Activation) => activation(0, 0, 1, 1),
        }
    }
}

/// Regular ports alone.
fn regular(ins_least: usize, ins_most: usize, outs_least: usize, outs_most: usize) -> Counts
    ensures { result ≡ counts ins_least ins_most outs_least outs_most 0 0 0 0 }
{
    Counts {
        ins_least,
        ins_most,
        outs_least,
        outs_most,
        evtin_least: 0,
        evtin_most: 0,
        evtout_least: 0,
        evtout_most: 0,
    }
}

/// Activation ports alone.
fn activation(
    evtin_least: usize,
    evtin_most: usize,
    evtout_least: usize,
    evtout_most: usize,
) -> Counts
    ensures { result ≡ counts 0 0 0 0 evtin_least evtin_most evtout_least evtout_most }
{
    Counts {
        ins_least: 0,
        ins_most: 0,
        outs_least: 0,
        outs_most: 0,
        evtin_least,
        evtin_most,
        evtout_least,
        evtout_most,
    }
}
