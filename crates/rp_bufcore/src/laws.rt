//! Laws of the buffer machine over any list of events. No program calls these functions.
ghost use Rattle.rp_bufcore.specs.Events.{EachGivenOnce, GivenByTheNext, NothingLeft, StaysSound};
ghost use Rattle.rp_bufcore.specs.Steps.{CollectIsSteps};

/// A published item is given once or still waits: it is never given twice.
#[tactic(auto, using(crate::proofs::Running::each_given_once))]
pub fn each_item_is_given_once()
    ensures { EachGivenOnce }
{}

/// An item that was published is given by the next collect.
pub fn published_items_are_given_by_the_next_collect()
    ensures { GivenByTheNext }
{}

/// A collect leaves no published item.
#[tactic(auto, using(crate::proofs::Running::nothing_left))]
pub fn a_collect_leaves_nothing()
    ensures { NothingLeft }
{}

/// A buffer keeps its places, and those that are not drawn are free.
pub fn places_that_are_not_drawn_are_free()
    ensures { StaysSound }
{}

/// A collect is a close, then a taking of each place in order, then a reopening where each drawn
/// place is taken. Others may draw and publish between these steps.
pub fn a_collect_is_its_steps()
    ensures { CollectIsSteps }
{}
