// The law that makes an agenda of what is pending.
ghost use Rattle.sci_agenda.specs.FiringOrder.{FiringOrderLaw, ReplacingLaw};

/// Pending events with their numbers, in no order, are known by their list in the order of firing.
pub fn firing_order()
    ensures { FiringOrderLaw }
{}

/// A source's event that is replaced is removed from the list in the order of firing, and put behind all of the same or a lesser
/// date.
pub fn replacing()
    ensures { ReplacingLaw }
{}
