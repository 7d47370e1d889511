// Joinings: kinds of proposal that can be joined in any order, with any grouping and any repetition.
#![tactic(auto)]

mod both;
mod card;
mod delay;
mod kind;
mod modes;
mod region;
mod seed;

pub use both::Both;
pub use card::Card;
pub use delay::Delay;
pub use kind::Joining;
pub use modes::Modes;
pub use region::Region;
pub use seed::Seed;

#[cfg(test)]
mod tests;
