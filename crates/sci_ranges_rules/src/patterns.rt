/// Patterns of bits from a least to a greatest one.
#[derive(Clone, Copy, Debug, Drop, PartialEq, Eq)]
pub struct Patterns {
    pub least: u64,
    pub greatest: u64,
}
