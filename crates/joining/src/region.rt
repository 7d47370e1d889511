// The region of a cartridge.
ghost use Rattle.joining.specs.Region.{region_join, rate_of};
ghost use Rattle.joining.specs.declared.region.Region.{Region};
ghost use Rattle.std.proofs.Common.{rules};
ghost use Rattle.std.specs.Prelude.{◌≡◌};

use crate::kind::Joining;

// The frame rate that a cartridge is made for. `Clash` is what a 50 and a 60 join to.
#[derive(Clone, Copy, PartialEq, Eq, Debug)]
pub enum Region {
    Unmarked,
    Fifty,
    Sixty,
    Clash,
}

impl Region {
    // Frames in a second, where the region says one rate.
    pub fn rate(self) -> Option<u8>
        ensures { result ≡ rate_of self }
    {
        match self {
            Region::Unmarked => None,
            Region::Fifty => Some(50),
            Region::Sixty => Some(60),
            Region::Clash => None,
        }
    }
}

impl Joining for Region {
    ghost Meaning = { Region };

    ghost meaning = { λ r. r };

    ghost joined = { region_join };

    ghost laws = { Prim.search rules };

    fn join(self, other: Region) -> Region {
        match (self, other) {
            (Region::Unmarked, _) => other,
            (_, Region::Unmarked) => self,
            (Region::Fifty, Region::Fifty) => Region::Fifty,
            (Region::Sixty, Region::Sixty) => Region::Sixty,
            _ => Region::Clash,
        }
    }
}
