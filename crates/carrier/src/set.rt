// Sets of consoles. No other file works on the bits of a set.
ghost use Rattle.carrier.specs.Sets.{AllBelow, Single, Union, Intersection, Difference, Added, Removed, LowestFrom, Member, Members, Within, nobody, size};
ghost use Rattle.std.specs.Prelude.{◌≡◌, Decides};

// A set of consoles 0 to 15, as a 16-bit number of which bit c stands for console c. There is no console above 15, so
// that none can be put in.
#[derive(Clone, Copy, PartialEq, Eq, Debug)]
pub struct ConsoleSet {
    bits: u16,
}

impl ConsoleSet {
    // Made and read by these names: `From` both ways would be a second way to do the same.
    pub fn from_number(number: u16) -> ConsoleSet
        ensures { result.bits ≡ number }
    {
        ConsoleSet { bits: number }
    }

    pub fn number(self) -> u16
        ensures { result ≡ self.bits }
    {
        self.bits
    }

    pub fn empty() -> ConsoleSet
        ensures members { Members result.bits (λ c. ⊥) }
        ensures number { result.bits ≡ nobody }
    {
        ConsoleSet { bits: 0 }
    }

    // The consoles below n.
    pub fn all_of(n: u8) -> ConsoleSet
        ensures { AllBelow n result.bits }
    {
        ConsoleSet {
            bits: if n < 16 { (1 << n) - 1 } else { u16::MAX },
        }
    }

    #[tactic(auto, using(crate::proofs::Sets::one_console))]
    pub fn one(console: u8) -> ConsoleSet
        ensures { Single console result.bits }
    {
        ConsoleSet {
            bits: if console < 16 { 1 << console } else { 0 },
        }
    }

    #[tactic(auto, using(crate::specs::SetsLemmas::or_members))]
    pub fn union(self, other: ConsoleSet) -> ConsoleSet
        ensures { Union self.bits other.bits result.bits }
    {
        ConsoleSet {
            bits: self.bits | other.bits,
        }
    }

    #[tactic(auto, using(crate::specs::SetsLemmas::and_members))]
    pub fn intersection(self, other: ConsoleSet) -> ConsoleSet
        ensures { Intersection self.bits other.bits result.bits }
    {
        ConsoleSet {
            bits: self.bits & other.bits,
        }
    }

    #[tactic(auto, using(crate::proofs::Sets::those_apart))]
    pub fn difference(self, other: ConsoleSet) -> ConsoleSet
        ensures { Difference self.bits other.bits result.bits }
    {
        ConsoleSet {
            bits: self.bits & !other.bits,
        }
    }

    pub fn with(self, console: u8) -> ConsoleSet
        ensures { Added self.bits console result.bits }
    {
        self.union(ConsoleSet::one(console))
    }

    #[tactic(auto, using(crate::proofs::Sets::one_less))]
    pub fn without(self, console: u8) -> ConsoleSet
        ensures { Removed self.bits console result.bits }
    {
        self.difference(ConsoleSet::one(console))
    }

    #[tactic(auto, using(crate::proofs::Sets::none_above))]
    pub fn holds(self, console: u8) -> bool
        ensures { Decides result (Member console self.bits) }
    {
        console < 16 && (self.bits >> console) & 1 == 1
    }

    #[tactic(auto, using(crate::specs::SetsLemmas::within_and, crate::specs::SetsLemmas::and_within))]
    pub fn is_subset(self, other: ConsoleSet) -> bool
        ensures { Decides result (Within self.bits other.bits) }
    {
        self.intersection(other) == self
    }

    #[tactic(auto, using(crate::specs::Counting::ones_size))]
    pub fn count(self) -> u8
        ensures { result ≡ size self.bits }
    {
        self.number().count_ones() as u8
    }

    // The lowest member from `start` on. All members, rising, come from a `for` over the set.
    pub fn lowest_from(self, start: u8) -> Option<u8>
        ensures { LowestFrom self.bits start result }
    {
        let rest = self.difference(ConsoleSet::all_of(start));
        if rest.bits == 0 {
            return None;
        }
        Some(rest.bits.trailing_zeros() as u8)
    }
}
