//! Laws of rates and capacities.

ghost use Rattle.graph_model.specs.Rates.{CountsAreGreatest, CountsGrow, NeededIsEnough, CapacitiesSuffice};

/// The counts of firings that are computed are the greatest whose items are there.
pub fn counts_are_greatest()
    ensures { CountsAreGreatest }
{}

/// After the skips each iteration adds the same to each count.
pub fn counts_grow()
    ensures { CountsGrow }
{}

/// What a connection needs in the steps that are looked at is enough for all steps.
pub fn needed_is_enough()
    ensures { NeededIsEnough }
{}

/// The capacities that are computed hold what every step needs.
pub fn capacities_suffice()
    ensures { CapacitiesSuffice }
{}
