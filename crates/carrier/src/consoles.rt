// The consoles of a set one after another.
ghost use Rattle.carrier.specs.Rising.{rising, still_to_come};
ghost use Rattle.std.specs.Iterator.{YieldsFirst, item_count};
ghost use Rattle.std.specs.Prelude.{◌≡◌, ◌≤◌, length};

use crate::set::ConsoleSet;

// Gives the members of a set from the lowest up.
#[derive(Clone, Debug, Drop)]
pub struct Consoles {
    set: ConsoleSet,
    // only members from here on are still to come
    start: u8,
}

impl Iterator for Consoles {
    type Item = u8;

    ghost next_gives = { YieldsFirst still_to_come };

    ghost remaining = { item_count still_to_come };

    fn next(&mut self) -> Option<u8> {
        let console = self.set.lowest_from(self.start)?;
        self.start = console + 1;
        Some(console)
    }
}

impl IntoIterator for ConsoleSet {
    type Item = u8;

    type IntoIter = Consoles;

    ghost into_iter_gives = { λ s c. (still_to_come c ≡ rising s.bits) × (length (still_to_come c) ≤ 16) };

    #[tactic(auto, using(crate::proofs::Rising::few_among))]
    fn into_iter(self) -> Consoles {
        Consoles {
            set: self,
            start: 0,
        }
    }
}
