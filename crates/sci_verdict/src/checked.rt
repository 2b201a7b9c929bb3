use sci_net::Net;
use sci_sched::{Schedule, Size};

/// A diagram that keeps all rules.
#[derive(Drop)]
pub struct Checked {
    /// Its typed net.
    pub net: Net,
    /// The static schedules of the net.
    pub schedule: Schedule,
}

/// A diagram that keeps all rules, without its schedules.
#[derive(Drop)]
pub struct Measured {
    /// Its typed net.
    pub net: Net,
    /// How long the static schedules of the net are.
    pub size: Size,
}
