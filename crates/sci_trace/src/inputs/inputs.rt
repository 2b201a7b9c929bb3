// The columns of an input file, and what a net needs of them.
ghost use Rattle.std.specs.Prelude.{◌≡◌};
ghost use Rattle.sci_trace.specs.Columns.{columns_view};

use sci_base::{Place, Ty};
use std::marker::Model;

/// The columns of an input file; column 1 comes first. Contracts see it as the list of their lists of values.
#[derive(Drop)]
pub struct Inputs {
    columns: Vec<Vec<i64>>,
}

impl Model for Inputs {
    ghost use Rattle.std.specs.Prelude.{List, ℤ};
    ghost use Rattle.sci_trace.specs.Columns.{columns_view};

    ghost Value = { List (List ℤ) };

    ghost view = { λ s. columns_view s.columns.items };
}

impl Inputs {
    /// An input file with these columns, in their order.
    pub fn of(columns: Vec<Vec<i64>>) -> Inputs
        ensures { result ≡ columns_view columns.items }
    {
        Inputs { columns }
    }

    /// All columns, each with its values in the order of the file.
    pub fn columns(&self) -> &[Vec<i64>]
        ensures { columns_view result.now ≡ self.now }
    {
        self.columns.as_slice()
    }
}

/// A column that a block takes values from: its number from 1, the type of the values, and the block's place.
#[derive(Drop)]
pub struct Need {
    pub column: u32,
    pub ty: Ty,
    pub place: Place,
}
