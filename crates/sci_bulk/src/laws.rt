// Laws of bulk diagrams.
ghost use Rattle.sci_bulk.specs.Laws.{BulkIsReady, ForwardIsFree, ForwardIsShort, RestlessEndsByEvents, BulkIsAccepted, BulkEndsByEvents};

/// Every bulk diagram keeps the bounds of a diagram that is read.
pub fn bulk_is_ready()
    ensures { BulkIsReady }
{}

/// A net without branches, in which a block's values depend on those of earlier blocks alone, has no algebraic loop at any source, and its
/// schedules have at most an entry for each source and block, and no guards.
pub fn forward_nets()
    ensures free { ForwardIsFree }
    ensures short { ForwardIsShort }
{}

/// In a net in which nothing stops or halts, and each source programs itself again and again, the run ends by the bound on events, where the bound
/// on time is no less than all their delays.
pub fn restless_nets()
    ensures { RestlessEndsByEvents }
{}

/// Every bulk diagram keeps all rules behind the reading of its file, and the run of its net, however many events up to a million may fire, ends by
/// the bound on events.
pub fn bulk_is_accepted()
    ensures accepted { BulkIsAccepted }
    ensures ends { BulkEndsByEvents }
{}
