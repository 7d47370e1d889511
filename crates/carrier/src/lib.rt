// Carriers decide who of a ring is lost and who hears whom.
#![tactic(auto)]

mod consoles;
mod pattern;
mod quiet;
mod set;
mod sizes;
mod staggered;

pub use consoles::Consoles;
pub use pattern::Carrier;
pub use quiet::Quiet;
pub use set::ConsoleSet;
pub use sizes::Sizes;
pub use staggered::Staggered;

#[cfg(test)]
mod tests;
