// What the definitions of flattening say of each other.
ghost use Rattle.std.specs.Prelude.{◌≡◌, ℕ, List, length, ◌≤◌};
ghost use Rattle.sci_base.specs.declared.limits.TheConstants.{DIAGRAM_BYTES};
ghost use Rattle.sci_diagram.specs.Objects.{Objects};
ghost use Rattle.sci_diagram.specs.Reading.{Accepts};
ghost use Rattle.sci_base.specs.Plain.{Violation};
ghost use Rattle.sci_net.specs.Parts.{Parts};
ghost use Rattle.sci_flat.specs.Ready.{IsReady};
ghost use Rattle.sci_flat.specs.Flat.{IsFlatNet};
ghost use Rattle.sci_flat.specs.Refused.{Breaks};
ghost use Rattle.sci_flat.specs.Tagged.{DrawnAlone};

/// Every diagram that is read from a file has what flattening asks of it.
pub fn read_is_ready()
    ensures { (bytes : List ℕ) (t : Objects) → length bytes ≤ DIAGRAM_BYTES → Accepts bytes t → IsReady t }
{}

/// No tree both has a flat net and breaks a rule.
pub fn one_verdict()
    ensures { (t : Objects) (n : Parts) (v : Violation) → IsFlatNet t n → Breaks t v → ⊥ }
{}

/// A tree breaks at most one rule first.
pub fn one_violation()
    ensures { (t : Objects) (v w : Violation) → Breaks t v → Breaks t w → v ≡ w }
{}

/// A diagram in which no object is a tag has the steps of its drawing alone.
pub fn drawn_alone()
    ensures { DrawnAlone }
{}
