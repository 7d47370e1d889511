// The random seed.
ghost use Rattle.joining.specs.Seed.{seed_join};
ghost use Rattle.joining.specs.declared.seed.Seed.{Seed};
ghost use Rattle.std.proofs.Common.{rules};
ghost use Rattle.std.specs.Prelude.{◌≡◌};

use crate::kind::Joining;

// Where the game's random numbers begin. It is made and read as `Modes` is, and joins in another way, so that one type
// for both would still need two joins.
#[derive(Clone, Copy, PartialEq, Eq, PartialOrd, Ord, Debug)]
pub struct Seed {
    value: u32,
}

impl Seed {
    pub fn new(value: u32) -> Seed
        ensures { result.value ≡ value }
    {
        Seed { value }
    }

    pub fn number(self) -> u32
        ensures { result ≡ self.value }
    {
        self.value
    }
}

impl Joining for Seed {
    ghost Meaning = { Seed };

    ghost meaning = { λ s. s };

    ghost joined = { seed_join };

    ghost laws = { Prim.search rules };

    fn join(self, other: Seed) -> Seed {
        self.min(other)
    }
}
