// The definitions against worked numbers.
ghost use Rattle.flooding.specs.Worked.{card_meaning, card_join, WorkedRings};
ghost use Rattle.std.specs.Prelude.{◌≡◌};

use joining::{Card, Joining};

// A ring of three that loses a console between two of its messages, a staggered ring of four and a quiet ring of one.
#[tactic(auto, using(crate::proofs::Rings::worked_rings_lem))]
pub fn worked_rings()
    ensures { WorkedRings }
{}

// The join of the worked numbers is the one of start cards.
pub fn join_cards(x: Card, y: Card) -> Card
    ensures { card_meaning result ≡ card_join (card_meaning x) (card_meaning y) }
{
    x.join(y)
}
