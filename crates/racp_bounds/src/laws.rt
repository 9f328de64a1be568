//! Laws of floors and roofs, and of sharpened floors. Each function does nothing; its contract is the law.

ghost use Rattle.racp_bounds.specs.Laws.{EnergyIsUsed, CoreIsActive, AdmittingIsAboveFloors, CutToRoofsAdmits, FloorsAreBelowRoofs, AdmittingIsAboveSharpened, AdmittingIsInBox, CutLiesInBox, EnoughCutLiesInBox, PlanIsInBox};

/// Over all times before a deadline, starts that end by it use the energy.
pub fn energy_is_used()
    ensures { EnergyIsUsed }
{}

/// At its core times a job is active, wherever it starts in its window.
pub fn core_is_active()
    ensures { CoreIsActive }
{}

/// Capacities that admit are at or above the floors.
pub fn admitting_is_above_floors()
    ensures { AdmittingIsAboveFloors }
{}

/// Capacities that admit still admit when they are cut to the roofs.
pub fn cut_to_roofs_admits()
    ensures { CutToRoofsAdmits }
{}

/// If there is a root window the roofs admit, and no floor is above its roof.
pub fn floors_are_below_roofs()
    ensures { FloorsAreBelowRoofs }
{}

/// Capacities that admit and are within the roofs are at or above floors of which some are sharpened.
pub fn admitting_is_above_sharpened()
    ensures { AdmittingIsAboveSharpened }
{}

/// Capacities that admit and are within the roofs lie in the box of the sharpened floors and the refuted pairs.
pub fn admitting_is_in_box()
    ensures { AdmittingIsInBox }
{}

/// Cut to the roofs, capacities that admit lie in that box.
pub fn cut_lies_in_box()
    ensures { CutLiesInBox }
{}

/// Cut to the most units of an order, capacities that are enough for it lie in the box of these units.
pub fn enough_cut_lies_in_box()
    ensures { EnoughCutLiesInBox }
{}

/// The first of all capacities that are enough for an order lies in that box, whatever the prices.
pub fn plan_is_in_box()
    ensures { PlanIsInBox }
{}
