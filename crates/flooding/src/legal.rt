// Rounds in the words of the synchronous crash model.
ghost use Rattle.flooding.specs.Model.{RoundIsLegal, RoundsAreLegal};

use joining::Joining;

// Whoever was down stays down; whoever stays up collects from all that stay up and from none that was down, and its new
// record is the join of what it collects.
#[tactic(auto, using(crate::proofs::Legality::round_is_legal_lem))]
pub fn round_is_legal<J: Joining>()
    ensures { RoundIsLegal J.Joining.Meaning }
{}

// Any number of rounds is a run of that model, round after round.
pub fn rounds_are_legal<J: Joining>()
    ensures { RoundsAreLegal J.Joining.Meaning }
{}
