// Flooding: all that are up after f + 1 rounds agree.
ghost use Rattle.flooding.specs.Agreement.{OneQuietRoundIsEnough, SomeRoundLosesNobody, SurvivorsAgree};

use joining::Joining;

// Once a round passes without a loss, all that are up agree from then on.
pub fn one_quiet_round_is_enough<J: Joining>()
    ensures { OneQuietRoundIsEnough J.Joining.Meaning }
{}

// One of the first f + 1 rounds passes without a loss.
#[tactic(auto, using(crate::proofs::Agreeing::some_round_loses_nobody_lem))]
pub fn some_round_loses_nobody()
    ensures { SomeRoundLosesNobody }
{}

// After f + 1 rounds or more, all that are up have equal heard sets and equal values.
pub fn survivors_agree<J: Joining>()
    ensures { SurvivorsAgree J.Joining.Meaning }
{}
