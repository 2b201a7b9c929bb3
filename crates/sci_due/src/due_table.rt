// What the table of due dates keeps, by how many sources of events there are.

/// How many sources a group has: so many and fewer stand in no groups.
pub const GROUP: u32 = 16;

/// How many turns over sources or groups may stand as statements of their own: more are a loop.
pub const TURNS: u32 = 7;

/// What the table keeps.
#[derive(Clone, Copy, Drop)]
pub enum DueTable {
    /// Of one source, or of none, the date of its event.
    Dates,
    /// Of two sources and more, up to a group, the orders too in which their events were programmed.
    Orders,
    /// Of more sources, what is known of each group of them too.
    Groups,
}
