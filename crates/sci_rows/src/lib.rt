//! Rows of the table of kinds and of the check of blocks: what single blocks give at the corners of their types, and over several
//! elements and steps, and which rule single blocks break, by values from outside the program. They stand in proofs/, each proved
//! by computing; `math_rows.py`, `kind_rows.py`, `logic_rows.py`, `time_rows.py`, `refusal_rows.py` and `typed_rows.py` of tools/ write them.
//! With them a law on where typed specs come from.
#![tactic(auto)]

ghost use Rattle.sci_rows.specs.Laws.{OriginLaw};

/// Every typed spec is what the check gives of some fields.
pub fn origin_law()
    ensures { OriginLaw }
{}
