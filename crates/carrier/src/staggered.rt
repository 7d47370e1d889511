// The carrier that loses one console in each round.
ghost use Rattle.carrier.specs.Losing.{staggered_obeys};
ghost use Rattle.carrier.specs.Losses.{staggered};
ghost use Rattle.carrier.specs.Sizes.{MadeFrom};
ghost use Rattle.std.specs.Prelude.{◌≡◌};

use crate::pattern::Carrier;
use crate::set::ConsoleSet;
use crate::sizes::Sizes;
use refusal::ContentFault;

// Loses console r - 1 in round r, for r from 1 to f, heard by console r alone. A console that stays up is heard by all.
#[derive(Clone, Copy, PartialEq, Eq, Debug)]
pub struct Staggered {
    sizes: Sizes,
}

impl Staggered {
    pub fn new(n: u8, f: u8) -> Result<Staggered, ContentFault>
        ensures { MadeFrom n f (λ c. c.sizes.n) (λ c. c.sizes.f) result }
    {
        let sizes = Sizes::new(n, f)?;
        Ok(Staggered { sizes })
    }
}

// Who is up after the round.
#[tactic(auto, using(crate::proofs::Staying::who_stays))]
fn staying(sizes: Sizes, round: u8) -> ConsoleSet
    ensures { result.bits ≡ (staggered sizes.n sizes.f).up round }
{
    let gone = round.min(sizes.losses());
    ConsoleSet::all_of(sizes.consoles()).difference(ConsoleSet::all_of(gone))
}

impl Carrier for Staggered {
    ghost pattern = { λ c. staggered c.sizes.n c.sizes.f };

    ghost rule = { λ c. staggered_obeys c.sizes.n c.sizes.f c.sizes.in_range };

    fn sizes(&self) -> Sizes {
        self.sizes
    }

    fn up(&self, round: u8) -> ConsoleSet {
        staying(self.sizes, round)
    }

    fn heard(&self, round: u8, sender: u8) -> ConsoleSet {
        let n = self.sizes.consoles();
        if round == 0 || sender >= n {
            ConsoleSet::empty()
        } else if sender >= self.sizes.losses() || round <= sender {
            ConsoleSet::all_of(n)
        } else if round == sender + 1 {
            ConsoleSet::one(round)
        } else {
            ConsoleSet::empty()
        }
    }
}
