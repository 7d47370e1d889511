// What becomes of each console of a scripted ring.
ghost use Rattle.carrier.specs.Losses.{up_after, heard_in};
ghost use Rattle.script.specs.Fates.{no_loss, fate_of};
ghost use Rattle.std.specs.Prelude.{◌≡◌, ◌<◌, replicate, slice_index_or, slice_set};

use carrier::{ConsoleSet, Sizes};

// What becomes of one console: the round in which it is lost, if it is, and who hears it then. The table is sixteen
// of these, one struct for every console, lost or not; the hearers of one that stays are nobody.
#[derive(Clone, Copy)]
pub struct Loss {
    pub round: Option<u8>,
    pub hearers: ConsoleSet,
}

impl Loss {
    // A name and no `Default`, as for the table, the plan and the carrier: it says that nobody is lost.
    pub(crate) fn none() -> Loss
        ensures { result ≡ no_loss }
    {
        Loss {
            round: None,
            hearers: ConsoleSet::empty(),
        }
    }

    // Whether the console is up after the round.
    pub(crate) fn up_after(self, round: u8) -> bool
        ensures { result ≡ up_after round (fate_of self) }
    {
        self.round.is_none_or(|lost| round < lost)
    }

    // Who of the ring hears it in the round, from 1.
    pub(crate) fn heard_in(self, sizes: Sizes, round: u8) -> ConsoleSet
        ensures { result.bits ≡ heard_in sizes.n round (fate_of self) }
    {
        match self.round {
            Some(lost) if round == lost => self.hearers,
            Some(lost) if round > lost => ConsoleSet::empty(),
            _ => ConsoleSet::all_of(sizes.consoles()),
        }
    }
}

// One entry for each console.
#[derive(Clone, Copy)]
pub struct Table {
    pub(crate) entries: [Loss; 16],
}

impl Table {
    pub(crate) fn empty() -> Table
        ensures { result.entries ≡ replicate 16 no_loss }
    {
        Table {
            entries: [Loss::none(); 16],
        }
    }

    pub(crate) fn set(&mut self, console: u8, loss: Loss)
        requires { console < 16 }
        ensures { self.new.entries ≡ slice_set self.old.entries console loss }
    {
        self.entries[console as usize] = loss;
    }

    // What becomes of any console: one that the table has no entry for is not lost.
    pub(crate) fn entry(&self, console: u8) -> Loss
        ensures { result ≡ slice_index_or self.now.entries console no_loss }
    {
        self.entries
            .get(console as usize)
            .copied()
            .unwrap_or_else(Loss::none)
    }
}
