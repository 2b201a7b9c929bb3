//! Reads a whole program of the C subset, or blames the byte where the text stops being one.
#![tactic(auto)]

pub mod laws;
mod names;
mod reader;

ghost use Rattle.std.specs.Prelude.{◌≡◌, ℕ};
ghost use Rattle.c_ast.specs.Syntax.{Whole};
ghost use Rattle.c_read.specs.Answers.{Answers, IsAccepted, IsRefused, Accepts, Blames};

use c_ast::Program;
use c_rules::fault;
use reader::read;
use sci_base::NoMemory;
use std::alloc::Global;

/// Why a text is no program.
#[derive(Debug, PartialEq, Eq, Drop)]
pub enum ProgramStop {
    /// This byte is blamed, by how many bytes stand before it, from 0 to the length of the text: where no program within the bounds
    /// spells the text, the first byte of the first line that doesn't go on as some program; where one does, the first byte of the
    /// first name that the static rules blame.
    NotC(usize),
    Memory,
}

impl From<NoMemory> for ProgramStop {
    ghost use Rattle.c_read.specs.declared.ProgramStop.TheVariants.{Memory};

    ghost from_gives = { λ _ e. e ≡ Memory };

    fn from(_e: NoMemory) -> ProgramStop {
        ProgramStop::Memory
    }
}

/// The program that the text spells, exactly where one within the bounds does and keeps the static rules; else the byte that is blamed.
pub fn parse(alloc: Global, bytes: &[u8]) -> Result<Program, ProgramStop>
    ensures answer { Answers bytes.now result }

    // Each text for which a program or a byte is due gets that answer, and no other.
    ensures program { (p : Whole) → IsAccepted bytes.now p → Accepts result p }
    ensures byte { (n : ℕ) → IsRefused bytes.now n → Blames result n }
{
    let read = read(alloc, bytes)?;
    match fault(alloc, &read.program)? {
        None => Ok(read.program),
        Some(event) => Err(ProgramStop::NotC(read.places[event])),
    }
}
