//! What is proved of areas: each law is the contract of a function that does nothing.
ghost use Rattle.area_laws.specs.Laws.{AreasBoundEveryPolicy, DelaysAllowMore, EdgeInBytes, EdgeInHits};
ghost use Rattle.area_laws.specs.Laws.{EdgeIsOnePrice, GainsBoundEveryPolicy, GroupsAddUp};

/// No contents score more than the bound of any edge, also if objects enter with a delay that the bound allows for.
pub fn areas_bound_every_policy()
    ensures { AreasBoundEveryPolicy }
{}

/// No contents score more than all eligible intervals gain, whatever the delay.
pub fn gains_bound_every_policy()
    ensures { GainsBoundEveryPolicy }
{}

/// A longer delay allows all that a shorter one does, and no delay what the rules do.
pub fn delays_allow_more()
    ensures { DelaysAllowMore }
{}

/// In hits the bound of an edge counts areas.
pub fn edge_in_hits()
    ensures { EdgeInHits }
{}

/// In bytes it counts lengths, times sizes.
pub fn edge_in_bytes()
    ensures { EdgeInBytes }
{}

/// Without a delay the bound of an edge is that of one price.
pub fn edge_is_one_price()
    ensures { EdgeIsOnePrice }
{}

/// Sums of gains and areas are enough to know the bound of an edge.
pub fn groups_add_up()
    ensures { GroupsAddUp }
{}
