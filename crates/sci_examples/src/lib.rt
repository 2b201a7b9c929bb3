//! Examples of what the definitions say of small nets, texts and files, worked out by hand and computed by the prover: pending
//! events, nets, reactions, runs, schedules, feeding, inference, traces, images, dumps and verdicts. They stand in proofs/.
#![tactic(auto)]

/// How many blocks the largest of the nets has.
pub const BLOCKS: u8 = 7;
