// The start card: what a console proposes. Nobody else spells out how its four parts are nested.
ghost use Rattle.joining.specs.Card.{start_card, region_of, delay_of, modes_of, seed_of};
ghost use Rattle.std.specs.Prelude.{◌≡◌};

use crate::both::Both;
use crate::delay::Delay;
use crate::modes::Modes;
use crate::region::Region;
use crate::seed::Seed;

pub type Card = Both<Both<Region, Delay>, Both<Modes, Seed>>;

impl Card {
    pub fn new(region: Region, delay: Delay, modes: Modes, seed: Seed) -> Card
        ensures { result ≡ start_card region delay modes seed }
    {
        Both {
            left: Both {
                left: region,
                right: delay,
            },
            right: Both {
                left: modes,
                right: seed,
            },
        }
    }

    pub fn region(self) -> Region
        ensures { result ≡ region_of self }
    {
        self.left.left
    }

    pub fn delay(self) -> Delay
        ensures { result ≡ delay_of self }
    {
        self.left.right
    }

    pub fn modes(self) -> Modes
        ensures { result ≡ modes_of self }
    {
        self.right.left
    }

    pub fn seed(self) -> Seed
        ensures { result ≡ seed_of self }
    {
        self.right.right
    }
}
