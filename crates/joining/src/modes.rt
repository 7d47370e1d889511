// The link modes that a cartridge offers.
ghost use Rattle.joining.specs.ModeSets.{modes_laws};
ghost use Rattle.joining.specs.Modes.{modes_join};
ghost use Rattle.joining.specs.declared.modes.Modes.{Modes};
ghost use Rattle.std.specs.Prelude.{◌≡◌};

use crate::kind::Joining;

// A set of up to sixteen link modes: bit m is mode m.
#[derive(Clone, Copy, PartialEq, Eq, Debug)]
pub struct Modes {
    set: u16,
}

impl Modes {
    // Made and read by these names: `From` both ways would be a second way to do the same.
    pub fn new(set: u16) -> Modes
        ensures { result.set ≡ set }
    {
        Modes { set }
    }

    pub fn number(self) -> u16
        ensures { result ≡ self.set }
    {
        self.set
    }
}

impl Joining for Modes {
    ghost Meaning = { Modes };

    ghost meaning = { λ m. m };

    ghost joined = { modes_join };

    ghost laws = { modes_laws };

    fn join(self, other: Modes) -> Modes {
        Modes {
            set: self.set & other.set,
        }
    }
}
