// The carrier that loses nobody.
ghost use Rattle.carrier.specs.Losing.{quiet_obeys};
ghost use Rattle.carrier.specs.Losses.{quiet};
ghost use Rattle.carrier.specs.Sets.{those};
ghost use Rattle.carrier.specs.Sizes.{MadeFrom};
ghost use Rattle.std.specs.Prelude.{◌≡◌, true};

use crate::pattern::Carrier;
use crate::set::ConsoleSet;
use crate::sizes::Sizes;
use refusal::ContentFault;

// Loses nobody, and lets all hear all.
#[derive(Clone, Copy, PartialEq, Eq, Debug)]
pub struct Quiet {
    sizes: Sizes,
}

impl Quiet {
    // As `Staggered::new`: a type with the kind of carrier for a parameter would need more than these two lines.
    pub fn new(n: u8, f: u8) -> Result<Quiet, ContentFault>
        ensures { MadeFrom n f (λ c. c.sizes.n) (λ c. c.sizes.f) result }
    {
        let sizes = Sizes::new(n, f)?;
        Ok(Quiet { sizes })
    }
}

// All of a ring, as `up` has it: those who pass a test that all pass. `heard` has the set by its number.
#[tactic(auto, using(crate::specs::Losing::quiet_up))]
fn everyone(sizes: Sizes) -> ConsoleSet
    ensures { result.bits ≡ those sizes.n (λ c. true) }
{
    ConsoleSet::all_of(sizes.consoles())
}

impl Carrier for Quiet {
    ghost pattern = { λ c. quiet c.sizes.n c.sizes.f };

    ghost rule = { λ c. quiet_obeys c.sizes.n c.sizes.f c.sizes.in_range };

    fn sizes(&self) -> Sizes {
        self.sizes
    }

    fn up(&self, _round: u8) -> ConsoleSet {
        everyone(self.sizes)
    }

    // Every carrier begins with this test. It is one line, and two of the laws of `heard`, so it stands in each.
    fn heard(&self, round: u8, sender: u8) -> ConsoleSet {
        let n = self.sizes.consoles();
        if round == 0 || sender >= n {
            ConsoleSet::empty()
        } else {
            ConsoleSet::all_of(n)
        }
    }
}
