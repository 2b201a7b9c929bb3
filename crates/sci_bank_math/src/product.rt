// PRODUCT: two inputs multiplied, or the first over the second rounded toward zero.
ghost use Rattle.std.specs.Prelude.{refl};
ghost use Rattle.sci_forms.specs.declared.Kind.TheVariants.{Product as ProductKind};

use sci_bank::words::{Words, alike_input, div_cell, mode, out_type, param, product_cell};
use sci_forms::values::is_equal;
use sci_kind_bank::{CellRule, KindBank, Plain};
use sci_kinds::{Cell, Kind};
use sci_span::Entering;

/// One element of the output.
#[derive(Drop)]
pub struct ProductRule;

/// The bank of `Product` blocks.
pub type Product = KindBank<Plain<ProductRule>>;

impl CellRule for ProductRule {
    ghost kind = { ProductKind };

    fn rule() -> Self {
        ProductRule
    }

    fn kind(&self) -> Kind {
        Kind::Product
    }

    #[inline(always)]
    fn cell(&self, spec: &Words, _mask: u64, ins: &Entering, at: usize) -> Cell {
        let a = alike_input(spec, ins, 0, at);
        let b = alike_input(spec, ins, 1, at);
        if is_equal(param(spec, 1), 1) {
            product_cell(spec, a, b)
        } else {
            div_cell(out_type(spec), mode(spec), a, b)
        }
    }

    ghost no_state = { λ s. refl };

    ghost no_branch = { refl };

    ghost no_delay = { refl };
}
