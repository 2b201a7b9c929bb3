//! The C text of a block: how its values, its next state, its delays and its branch are worked out.
#![tactic(auto)]

ghost use Rattle.sci_cgen_blocks.specs.Laws.{CellLaw, CellReadsLaw, NextLaw, NextReadsLaw, NextAlongLaw, NextAlongReadsLaw, DelayTermLaw, BranchTermLaw};

mod arithmetic_kinds;
pub mod array_names;
mod bit_kinds;
mod block_layout;
mod block_texts;
mod choice_texts;
mod element_texts;
mod fit_terms;
mod kind_recipes;
mod kind_terms;
mod laws;
mod logical_kinds;
mod product_terms;
mod recipe_parts;
mod spec_words;
mod table_texts;
pub mod writing;

pub use block_layout::BlockLayout;
pub use block_texts::{block_body, block_branch, block_delay, block_next};
pub use kind_terms::{counts_next, scratch_of};
pub use laws::{
    bounds_law, branch_law, delay_law, may_law, next_state_law, rules_law, sensor_law, values_law,
};

/// The way of a block's values gives each element of its outputs what the table of kinds says: its
/// value, or the stop of an overflow or of a zero divisor.
pub fn cell_law()
    ensures { CellLaw }
{}

/// It reads inputs with feedthrough and the state alone, and its decisions nest at most eight deep.
pub fn cell_reads_law()
    ensures { CellReadsLaw }
{}

/// The term of each value of the next state gives this value.
pub fn next_law()
    ensures { NextLaw }
{}

/// It reads the inputs, and the state from this value on.
pub fn next_reads_law()
    ensures { NextReadsLaw }
{}

/// Where values of the next state are worked out alike, one term gives each.
pub fn next_along_law()
    ensures { NextAlongLaw }
{}

/// It reads the inputs, and the state from this value on.
pub fn next_along_reads_law()
    ensures { NextAlongReadsLaw }
{}

/// The term of a delay gives the delay, and reads the inputs alone.
pub fn delay_term_law()
    ensures { DelayTermLaw }
{}

/// The term of a branch gives the branch, and reads the inputs alone.
pub fn branch_term_law()
    ensures { BranchTermLaw }
{}
