//! The banks of the arithmetic kinds, numbers 1 to 13. A kind is the function of one element of its output; storage, loops,
//! counting and stops are `KindBank`'s.
#![tactic(auto)]

mod abs_value;
mod const_values;
mod convert;
mod dead_band;
mod demux;
mod extractor;
mod gain;
mod max_min;
mod mux;
mod product;
mod saturation;
mod signum;
mod summation;

pub use abs_value::{AbsValue, AbsValueRule};
pub use const_values::{Const, ConstRule};
pub use convert::{Convert, ConvertRule};
pub use dead_band::{DeadBand, DeadBandRule};
pub use demux::{Demux, DemuxRule};
pub use extractor::{Extractor, ExtractorRule};
pub use gain::{GainBlk, GainBlkRule};
pub use max_min::{MaxMin, MaxMinRule};
pub use mux::{Mux, MuxRule};
pub use product::{Product, ProductRule};
pub use saturation::{Saturation, SaturationRule};
pub use signum::{Signum, SignumRule};
pub use summation::{Summation, SummationRule};
