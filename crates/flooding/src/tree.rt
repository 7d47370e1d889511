// Joins in some order and grouping.
ghost use Rattle.flooding.specs.Trees.{SameLeavesSameValue, EverySetHasATree};

use joining::Joining;

// Over any operation with the three laws, two trees with the same set of leaves have the same value.
#[tactic(auto, using(crate::proofs::Joins::same_leaves_same_value))]
pub fn order_grouping_and_repetition_do_not_matter<J: Joining>()
    ensures { SameLeavesSameValue J.Joining.Meaning }
{}

// Every set but the empty one is the leaves of some tree.
#[tactic(auto, using(crate::proofs::Gathering::every_set_has_a_tree_lem))]
pub fn every_set_has_a_tree()
    ensures { EverySetHasATree }
{}
