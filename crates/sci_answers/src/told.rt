// What is told of a diagram's file.
use sci_net::Net;
use sci_verdict::{Checked, Measured};

/// What is told of a diagram.
#[derive(Drop)]
pub enum Told {
    /// How many blocks, sources, schedule entries and guards it has.
    Check(Measured),
    /// Its blocks.
    Map(Net),
    /// Its static schedules.
    Schedule(Checked),
}
