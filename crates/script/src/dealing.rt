// From the operands of a CARD to a start card.
ghost use Rattle.script.specs.Listing.{region_for};
ghost use Rattle.script.specs.Rules.{CardRead};
ghost use Rattle.std.specs.Prelude.{◌≡◌};

use crate::command::CardEntry;
use joining::{Card, Delay, Modes, Region, Seed};
use refusal::ContentFault;

// A function, since neither the letter's type nor the region's is of this crate, as a conversion by trait asks.
fn region_of(letter: u8) -> Option<Region>
    ensures { result ≡ region_for letter }
{
    match char::from(letter) {
        'E' => Some(Region::Fifty),
        'J' | 'U' => Some(Region::Sixty),
        ' ' => Some(Region::Unmarked),
        _ => None,
    }
}

impl TryFrom<CardEntry> for Card {
    type Error = ContentFault;

    ghost try_from_gives = { CardRead };

    fn try_from(entry: CardEntry) -> Result<Card, ContentFault> {
        let refused = ContentFault::CardOutOfRange {
            console: entry.console,
        };
        let region = region_of(entry.letter).ok_or(refused)?;
        if entry.delay > 15 {
            return Err(refused);
        }
        Ok(Card::new(
            region,
            Delay::from_frames(entry.delay),
            Modes::new(entry.modes),
            Seed::new(entry.seed),
        ))
    }
}
