// The sizes of a ring.
ghost use Rattle.carrier.specs.Sizes.{InRange, MadeFrom};
ghost use Rattle.std.specs.Prelude.{◌≡◌};

use refusal::ContentFault;

// How many consoles a ring has, n, and how many of them it may lose, f: 1 to 16, and fewer than n.
#[derive(Clone, Copy, PartialEq, Eq, Debug)]
pub struct Sizes {
    n: u8,
    f: u8,
    ghost in_range: { InRange n f },
}

impl Sizes {
    // `Quiet::new` and `Staggered::new` promise the same of what they make: n and f come from outside, and only this
    // check turns them into a `Sizes`.
    pub fn new(n: u8, f: u8) -> Result<Sizes, ContentFault>
        ensures { MadeFrom n f (λ s. s.n) (λ s. s.f) result }
    {
        // where n is 0, f is not below it
        if n > 16 || f >= n {
            return Err(ContentFault::SizesOutOfRange);
        }
        Ok(Sizes { n, f })
    }

    pub fn consoles(self) -> u8
        ensures { result ≡ self.n }
    {
        self.n
    }

    pub fn losses(self) -> u8
        ensures { result ≡ self.f }
    {
        self.f
    }
}
