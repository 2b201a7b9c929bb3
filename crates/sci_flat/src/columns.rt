// The columns of sensors.
ghost use Rattle.std.specs.Prelude.{◌≡◌, ◌<◌, ◌↔◌, IsTrue, length};
ghost use Rattle.sci_net.specs.Parts.{column_of};
ghost use Rattle.sci_forms.specs.Form.{is_sensor};
ghost use Rattle.sci_flat.specs.Refused.{ShareColumn};
ghost use Rattle.sci_flat.specs.Wired.{IsTakenAt};

use sci_forms::Spec;

/// The column of the input file that a sensor reads.
fn column_of(spec: &Spec) -> u64
    ensures { result ≡ column_of spec.now }
{
    spec.params.at(0).unsigned_abs()
}

/// Whether these are sensors that read one column.
fn share_column(a: &Spec, b: &Spec) -> bool
    ensures { IsTrue result ↔ ShareColumn a.now b.now }
{
    a.kind.is_sensor() && b.kind.is_sensor() && column_of(a) == column_of(b)
}

// Whether an earlier sensor shares its column with this block.
fn is_shared(specs: &[Spec], block: usize) -> bool
    requires { block < length specs.now }
    ensures { IsTrue result ↔ IsTakenAt specs.now block }
{
    for earlier in 0..block {
        if share_column(&specs[earlier], &specs[block]) {
            return true;
        }
    }
    false
}

/// Whether an earlier sensor reads the column of this block, which is counted from 0.
pub(crate) fn is_taken(specs: &[Spec], block: usize) -> bool
    requires { block < length specs.now }
    ensures { IsTrue result ↔ IsTakenAt specs.now block }
{
    specs[block].kind.is_sensor() && is_shared(specs, block)
}
