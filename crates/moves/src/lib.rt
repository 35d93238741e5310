//! Expand, Drop and Finish on lists of cubes. Each function's contract is a theorem, and its body has nothing to do.
#![tactic(auto)]

ghost use Rattle.moves.specs.Examples.{AllRight, WorkedProper};
ghost use Rattle.moves.specs.Theorems.{FirstFirst, PlacesDiffer, EveryTaken, StepsEnough, NoneWaits, BesideMisses, BesideOnce, StartedAt, ListSplits, SpareExact, SpareRest, KeptExact, KeptAlike, OthersChosen, VeiledRest, ExpandKeeps, ExpandAlive, DropKeeps, FinishKeeps, OnStands, StandingApart, CallsStand, ExpandPrime, DropIrredundant, FinishEnds};

/// One is found where one passes the test, and comes before every other that does and has another place.
pub fn first_is_first()
    ensures { FirstFirst }
{}

/// During a call no two cubes have the same place.
pub fn places_differ()
    ensures { PlacesDiffer }
{}

/// A call takes every cube that is left.
pub fn every_cube_is_taken()
    ensures { EveryTaken }
{}

/// Steps past the number of cubes change nothing.
pub fn steps_are_enough()
    ensures { StepsEnough }
{}

/// Steps change nothing once no cube waits.
pub fn none_waits()
    ensures { NoneWaits }
{}

/// A cube is beside another by the number of parts in which they miss each other.
pub fn beside_is_misses()
    ensures { BesideMisses }
{}

/// Of cubes that do not meet, one is beside the other in the one part in which they miss each other.
pub fn beside_is_once()
    ensures { BesideOnce }
{}

/// A call begins with each cube at its place, weighed against all.
pub fn started_at_a_place()
    ensures { StartedAt }
{}

/// A list is what stands before an item, the item, and what stands behind it.
pub fn list_splits()
    ensures { ListSplits }
{}

/// A cube is spare exactly if the others hold each of its vertices.
pub fn spare_is_exact()
    ensures { SpareExact }
{}

/// A cube is spare if a part is empty, and else if the others leave nothing of it.
pub fn spare_by_rest()
    ensures { SpareRest }
{}

/// What is kept of a cube has the values of the vertices that are its own.
pub fn kept_is_exact()
    ensures { KeptExact }
{}

/// What is kept of a cube depends only on what the others hold.
pub fn kept_is_alike()
    ensures { KeptAlike }
{}

/// Marks choose the other cubes and the DC rows, in this order.
pub fn others_are_chosen()
    ensures { OthersChosen }
{}

/// Cubes with only empty parts leave what no cubes do.
pub fn veiled_leaves_the_same()
    ensures { VeiledRest }
{}

/// Expand loses no vertex and makes each cube prime.
pub fn expand_keeps()
    ensures { ExpandKeeps }
{}

/// Expand makes no part empty.
pub fn expand_is_alive()
    ensures { ExpandAlive }
{}

/// Drop loses no vertex that matters, and each cube left has one of its own.
pub fn drop_keeps()
    ensures { DropKeeps }
{}

/// Finish does both.
pub fn finish_keeps()
    ensures { FinishKeeps }
{}

/// The ON rows of a proper table stand.
pub fn on_rows_stand()
    ensures { OnStands }
{}

/// Cubes that stand meet no cube of the off list.
pub fn standing_is_apart()
    ensures { StandingApart }
{}

/// What stands stands after each call.
pub fn calls_stand()
    ensures { CallsStand }
{}

/// After Expand each cube is prime.
pub fn expand_is_prime()
    ensures { ExpandPrime }
{}

/// After Drop no cube can be struck out.
pub fn drop_is_irredundant()
    ensures { DropIrredundant }
{}

/// After Finish each cube is prime and none can be struck out.
pub fn finish_ends()
    ensures { FinishEnds }
{}

/// The calls make what the worked cases say.
pub fn cases_are_right()
    ensures { AllRight }
{}

/// The worked table is proper.
pub fn table_is_proper()
    ensures { WorkedProper }
{}
