// The input delay.
ghost use Rattle.joining.specs.Delay.{delay_join, frames_of};
ghost use Rattle.joining.specs.Delays.{delay_laws};
ghost use Rattle.joining.specs.declared.delay.Delay.{Delay};
ghost use Rattle.std.specs.Prelude.{◌≡◌, min};

use crate::kind::Joining;

// How many frames an input waits before it counts, 0 to 15.
#[derive(Clone, Copy, PartialEq, Eq, PartialOrd, Ord, Debug)]
pub enum Delay {
    Zero,
    One,
    Two,
    Three,
    Four,
    Five,
    Six,
    Seven,
    Eight,
    Nine,
    Ten,
    Eleven,
    Twelve,
    Thirteen,
    Fourteen,
    Fifteen,
}

impl Delay {
    // The delay of that many frames, and of 15 where there are more: no `From`, since that would not show that it stops
    // at 15.
    pub fn from_frames(frames: u8) -> Delay
        ensures { frames_of result ≡ min frames 15 }
    {
        match frames {
            0 => Delay::Zero,
            1 => Delay::One,
            2 => Delay::Two,
            3 => Delay::Three,
            4 => Delay::Four,
            5 => Delay::Five,
            6 => Delay::Six,
            7 => Delay::Seven,
            8 => Delay::Eight,
            9 => Delay::Nine,
            10 => Delay::Ten,
            11 => Delay::Eleven,
            12 => Delay::Twelve,
            13 => Delay::Thirteen,
            14 => Delay::Fourteen,
            _ => Delay::Fifteen,
        }
    }

    pub fn frames(self) -> u8
        ensures { result ≡ frames_of self }
    {
        self as u8
    }
}

impl Joining for Delay {
    ghost Meaning = { Delay };

    ghost meaning = { λ d. d };

    ghost joined = { delay_join };

    ghost laws = { delay_laws };

    #[tactic(auto, using(crate::proofs::Greater::greater_remains))]
    fn join(self, other: Delay) -> Delay {
        self.max(other)
    }
}
