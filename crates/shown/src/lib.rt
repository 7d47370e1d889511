// Start cards and sets of consoles as people read them.
#![tactic(auto)]

use carrier::ConsoleSet;
use joining::{Card, Region};
use std::fmt;

#[derive(Drop)]
pub struct ShownCard(pub Card);

// Not a `Display` of `Region`: how people read a card is told in this crate alone.
fn region_name(region: Region) -> &'static str {
    match region {
        Region::Unmarked => "none",
        Region::Fifty => "50",
        Region::Sixty => "60",
        Region::Clash => "clash",
    }
}

impl fmt::Display for ShownCard {
    fn fmt<W: fmt::Write>(&self, f: &mut fmt::Formatter<W>) -> fmt::Result {
        let card = self.0;
        let region = region_name(card.region());
        let delay = card.delay().frames();
        let modes = card.modes().number();
        let seed = card.seed().number();
        write!(
            f,
            "region {region} delay {delay} modes {modes:04x} seed {seed:08x}"
        )
    }
}

// The consoles by rising number, with a space between two.
#[derive(Drop)]
pub struct ShownSet(pub ConsoleSet);

impl fmt::Display for ShownSet {
    fn fmt<W: fmt::Write>(&self, f: &mut fmt::Formatter<W>) -> fmt::Result {
        let mut consoles = self.0.into_iter();
        let Some(first) = consoles.next() else {
            return write!(f, "nobody");
        };
        write!(f, "{first}")?;
        for console in consoles {
            write!(f, " {console}")?;
        }
        Ok(())
    }
}
