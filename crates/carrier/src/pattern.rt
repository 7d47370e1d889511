// What a carrier is.
ghost use Rattle.carrier.specs.Pattern.{Pattern, RoundRule};
ghost use Rattle.std.specs.Prelude.{◌≡◌};

use crate::set::ConsoleSet;
use crate::sizes::Sizes;

// A carrier decides who is lost and who hears whom: a crash-failure pattern of a synchronous network, asked about one
// round at a time. No question is refused, and asking changes nothing.
pub trait Carrier {
    ghost pattern: { Self → Pattern };

    // Each carrier answers from a field of its own, since a trait has none.
    fn sizes(&self) -> Sizes
        ensures { (result.n ≡ (pattern self.now).n) × (result.f ≡ (pattern self.now).f) };

    // Who is up after the round; after round 0 is before the first, since the laws count rounds so.
    fn up(&self, round: u8) -> ConsoleSet
        ensures { result.bits ≡ (pattern self.now).up round };

    // Who hears the sender in the round: nobody in round 0, and nobody where there is no such console.
    fn heard(&self, round: u8, sender: u8) -> ConsoleSet
        ensures { result.bits ≡ (pattern self.now).heard round sender };

    ghost rule: { (c : Self) → RoundRule (pattern c) };
}
