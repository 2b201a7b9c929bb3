//! Numbers and intervals that are fitted, events that are pending, and readers and writers that are interrupted or fail, tried on values that were worked
//! out by hand.
//! There is nothing here but tests.
#![tactic(auto)]

#[cfg(test)]
mod fitting;
#[cfg(test)]
mod pending;
#[cfg(test)]
mod ranges;
#[cfg(test)]
mod streams;
