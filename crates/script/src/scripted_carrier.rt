// How the scripted carrier answers.
ghost use Rattle.carrier.specs.Losses.{up_after};
ghost use Rattle.carrier.specs.Sets.{those};
ghost use Rattle.script.specs.Fates.{fates};
ghost use Rattle.script.specs.Legal.{legal_itself, legal_obeys};
ghost use Rattle.script.specs.Loading.{pattern_of};
ghost use Rattle.std.specs.Prelude.{◌≡◌, ◌≤◌};

use crate::scripted::Scripted;
use crate::table::Table;
use carrier::{Carrier, ConsoleSet, Sizes};

// Who of the ring is up after the round. A `for`, since the console's own number is asked about and put in; `filter`
// with `fold` was tried, and its proof did not close.
#[tactic(auto, unfolding(carrier::specs::Sets::those))]
fn staying(table: &Table, sizes: Sizes, round: u8) -> ConsoleSet
    ensures { result.bits ≡ those sizes.n (λ c. up_after round (fates table.now.entries c)) }
{
    let mut up = ConsoleSet::empty();
    for console in 0..sizes.consoles() {
        if table.entry(console).up_after(round) {
            up = up.with(console);
        }
    }
    up
}

impl Carrier for Scripted {
    ghost pattern = { pattern_of };

    ghost rule = { λ c. legal_obeys c.sizes.n c.sizes.f c.table.entries c.sizes.in_range (legal_itself _ _ _ c.legal) };

    fn sizes(&self) -> Sizes {
        self.sizes
    }

    fn up(&self, round: u8) -> ConsoleSet {
        staying(&self.table, self.sizes, round)
    }

    fn heard(&self, round: u8, sender: u8) -> ConsoleSet {
        if round == 0 || sender >= self.sizes.consoles() {
            ConsoleSet::empty()
        } else {
            self.table.entry(sender).heard_in(self.sizes, round)
        }
    }
}
