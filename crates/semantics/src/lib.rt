//! What it means to satisfy a property: satisfiability relations over rational time and over
//! places. Each function does nothing; its contract is the law.
#![tactic(auto)]

ghost use Rattle.semantics.specs.Agreement.{PlacesStandForStates, RefutationsAreSound};

/// A state or a place that is refuted with a line is held with it by no satisfiability relation.
pub fn refutations_are_sound()
    ensures { RefutationsAreSound }
{}

/// A state is refuted with a line exactly if its place is; and if some relation over places holds
/// its place, some relation over rational time holds the state.
pub fn places_stand_for_states()
    ensures { PlacesStandForStates }
{}
