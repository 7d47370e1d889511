// The faults of content: a command that stands where it may, and says what it may not.
ghost use Rattle.refusal.specs.Table.{content_number, content_layer, content_names};
ghost use Rattle.std.specs.Prelude.{◌≡◌};

use crate::layer::{Layer, Names};

#[derive(Clone, Copy, PartialEq, Eq, Debug)]
pub enum ContentFault {
    // n is 0 or above 16, or f is not below n
    SizesOutOfRange,
    // the console is not below n
    ConsoleOutOfRange { console: u8 },
    SecondCard { console: u8 },
    // the region letter is none of E, J, U and the space, or the delay is above 15
    CardOutOfRange { console: u8 },
    // the round is 0 or above f + 1
    RoundOutOfRange { console: u8, round: u8 },
    // a hearer is not below n
    HearersOutOfRange { console: u8, round: u8 },
    SecondCrash { console: u8, round: u8 },
    // more than f consoles crash
    TooManyCrashes { console: u8, round: u8 },
    // the script ends, and this is the lowest console that has no card
    CardMissing { console: u8 },
}

impl ContentFault {
    pub fn number(self) -> u8
        ensures { result ≡ content_number self }
    {
        match self {
            ContentFault::SizesOutOfRange => 5,
            ContentFault::ConsoleOutOfRange { .. } => 6,
            ContentFault::SecondCard { .. } => 7,
            ContentFault::CardOutOfRange { .. } => 8,
            ContentFault::RoundOutOfRange { .. } => 9,
            ContentFault::HearersOutOfRange { .. } => 10,
            ContentFault::SecondCrash { .. } => 11,
            ContentFault::TooManyCrashes { .. } => 12,
            ContentFault::CardMissing { .. } => 13,
        }
    }

    pub fn layer(self) -> Layer
        ensures { result ≡ content_layer self }
    {
        Layer::Content
    }

    pub fn names(self) -> Names
        ensures { result ≡ content_names self }
    {
        match self {
            ContentFault::SizesOutOfRange => Names::default(),
            ContentFault::ConsoleOutOfRange { console }
            | ContentFault::SecondCard { console }
            | ContentFault::CardOutOfRange { console }
            | ContentFault::CardMissing { console } => Names {
                console: Some(console),
                ..Names::default()
            },
            ContentFault::RoundOutOfRange { console, round }
            | ContentFault::HearersOutOfRange { console, round }
            | ContentFault::SecondCrash { console, round }
            | ContentFault::TooManyCrashes { console, round } => Names {
                console: Some(console),
                round: Some(round),
                ..Names::default()
            },
        }
    }
}
