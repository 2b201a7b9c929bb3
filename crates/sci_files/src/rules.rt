// The rules of each kind of file.
ghost use Rattle.std.specs.Prelude.{◌≤◌, ◌<◌, ◌^◌, pos, [], ◌∷◌, length};
ghost use Rattle.sci_base.specs.declared.limits.TheConstants.{DIAGRAM_BYTES, INPUT_BYTES, TEXT_BYTES};
ghost use Rattle.sci_answers.specs.RunC.{BreaksC};
ghost use Rattle.sci_base.specs.Stops.{IsViolation};
ghost use Rattle.sci_files.specs.Judged.{IsJudged, AcceptsProgram};

use crate::told::report_on;
use c_ast::Program;
use c_read::{ProgramStop, parse};
use sci_answers::told::Told;
use sci_base::{Rule, Stop, limits};
use sci_trace::inputs::{Inputs, Need, read_inputs};
use sci_verdict::{Checked, check};
use sci_words::command::Report;
use std::alloc::Global;

/// The rules of a file, and what is made of one that keeps them.
pub trait Rules {
    ghost use Rattle.std.specs.Prelude.{ℕ, ◌≤◌, List, length};
    ghost use Rattle.sci_base.specs.Plain.{Violation};
    ghost use Rattle.sci_files.specs.Judged.{IsJudged};

    /// What is made of the file.
    type Made: Drop;

    /// The limit of the file, in bytes.
    const LONGEST: usize;

    ghost LONGEST: { ℕ };

    // The bytes keep the rules, and this is made of them.
    ghost accepts: { Self → List ℕ → Self.Made → Type 0 };

    // This is the first rule that the bytes break.
    ghost breaks: { Self → List ℕ → Violation → Type 0 };

    /// What is made of the bytes, or the first rule that they break.
    fn judge(&self, alloc: Global, bytes: &[u8]) -> Result<Self::Made, Stop>
        requires { length bytes.now ≤ LONGEST }
        ensures { IsJudged (accepts self.now) (breaks self.now) bytes.now result };

    ghost within: { LONGEST ≤ TEXT_BYTES };
}

/// The rules of a diagram's file, of which this is told.
#[derive(Drop)]
pub struct DiagramRules {
    pub report: Report,
}

impl Rules for DiagramRules {
    ghost use Rattle.std.proofs.Common.{rules};
    ghost use Rattle.sci_verdict.specs.Verdict.{Breaks};
    ghost use Rattle.sci_files.specs.Judged.{AcceptsTold};

    type Made = Told;

    const LONGEST: usize = limits::DIAGRAM_BYTES;

    ghost LONGEST = { DIAGRAM_BYTES };

    ghost accepts = { λ s bytes told. AcceptsTold s.report bytes told };

    ghost breaks = { λ _ bytes v. Breaks bytes v };

    fn judge(&self, alloc: Global, bytes: &[u8]) -> Result<Told, Stop> {
        report_on(alloc, self.report, bytes)
    }

    ghost within = { Prim.search rules };
}

/// The rules of a diagram's file, of which the net with its schedules is made.
#[derive(Drop)]
pub struct PlanRules;

impl Rules for PlanRules {
    ghost use Rattle.std.proofs.Common.{rules};
    ghost use Rattle.sci_verdict.specs.Verdict.{Breaks};
    ghost use Rattle.sci_files.specs.Judged.{AcceptsChecked};

    type Made = Checked;

    const LONGEST: usize = limits::DIAGRAM_BYTES;

    ghost LONGEST = { DIAGRAM_BYTES };

    ghost accepts = { λ _ bytes checked. AcceptsChecked bytes checked };

    ghost breaks = { λ _ bytes v. Breaks bytes v };

    fn judge(&self, alloc: Global, bytes: &[u8]) -> Result<Checked, Stop> {
        check(alloc, bytes)
    }

    ghost within = { Prim.search rules };
}

/// The refusal of a file by this rule, which blames a byte or a line of it.
pub fn blame(alloc: Global, rule: Rule, at: usize) -> Stop
    requires { at < 2 ^ 63 }
    ensures { IsViolation (record { rule = rule; place = []; detail = pos at ∷ [] }) result }
{
    Stop::by(alloc, rule, &[], &[at as i64])
}

// The program that a C file's bytes spell.
fn program_of(alloc: Global, bytes: &[u8]) -> Result<Program, Stop>
    requires { length bytes.now ≤ TEXT_BYTES }
    ensures { IsJudged AcceptsProgram BreaksC bytes.now result }
{
    match parse(alloc, bytes) {
        Ok(program) => Ok(program),
        Err(ProgramStop::NotC(byte)) => Err(blame(alloc, Rule::NotC, byte)),
        Err(ProgramStop::Memory) => Err(Stop::Memory),
    }
}

/// The rules of a C file.
#[derive(Drop)]
pub struct CRules;

impl Rules for CRules {
    ghost use Rattle.std.proofs.Common.{rules};
    ghost use Rattle.sci_answers.specs.RunC.{BreaksC};
    ghost use Rattle.sci_files.specs.Judged.{AcceptsProgram};

    type Made = Program;

    const LONGEST: usize = limits::TEXT_BYTES;

    ghost LONGEST = { TEXT_BYTES };

    ghost accepts = { λ _ bytes program. AcceptsProgram bytes program };

    ghost breaks = { λ _ bytes v. BreaksC bytes v };

    fn judge(&self, alloc: Global, bytes: &[u8]) -> Result<Program, Stop> {
        program_of(alloc, bytes)
    }

    ghost within = { Prim.search rules };
}

/// The rules of an input file, of which this is needed.
#[derive(Drop)]
pub struct ColumnRules {
    pub needs: Vec<Need>,
}

impl Rules for ColumnRules {
    ghost use Rattle.std.specs.Prelude.{map};
    ghost use Rattle.std.proofs.Common.{rules};
    ghost use Rattle.sci_trace.specs.Columns.{needed_of};
    ghost use Rattle.sci_answers.specs.Inputs.{AcceptsColumns, BreaksColumns};

    type Made = Inputs;

    const LONGEST: usize = limits::INPUT_BYTES;

    ghost LONGEST = { INPUT_BYTES };

    ghost accepts = { λ s bytes columns. AcceptsColumns (map needed_of s.needs.items) bytes columns };

    ghost breaks = { λ s bytes v. BreaksColumns (map needed_of s.needs.items) bytes v };

    fn judge(&self, alloc: Global, bytes: &[u8]) -> Result<Inputs, Stop> {
        read_inputs(alloc, bytes, &self.needs)
    }

    ghost within = { Prim.search rules };
}
