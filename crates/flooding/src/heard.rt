// Heard sets along the rounds.
ghost use Rattle.flooding.specs.Heard.{ValueIsJoinOverHeard, SurvivorsAreHeard, HeardSetsGrow, HeardSetsNameTheRing, QuietRingHearsAll};

use joining::Joining;

// After any number of rounds a console's value is the join of what exactly the consoles in its heard set proposed.
pub fn value_is_join_over_heard<J: Joining>()
    ensures { ValueIsJoinOverHeard J.Joining.Meaning }
{}

// From round 1 on, whoever is up has heard everyone that is up.
#[tactic(auto, using(crate::proofs::HeardSets::survivors_are_heard_lem))]
pub fn survivors_are_heard()
    ensures { SurvivorsAreHeard }
{}

#[tactic(auto, using(crate::proofs::HeardSets::heard_sets_grow_lem))]
pub fn heard_sets_grow()
    ensures { HeardSetsGrow }
{}

#[tactic(auto, using(crate::proofs::HeardSets::heard_sets_name_the_ring_lem))]
pub fn heard_sets_name_the_ring()
    ensures { HeardSetsNameTheRing }
{}

// On a quiet ring of any size every heard set is full after one round.
#[tactic(auto, using(crate::proofs::HeardSets::quiet_ring_hears_all_lem))]
pub fn quiet_ring_hears_all()
    ensures { QuietRingHearsAll }
{}
