// Fault scripts: the commands of a script, the carrier that a script describes, and the loader.
#![tactic(auto)]

mod admit;
mod command;
mod dealing;
mod loader;
mod plan;
mod reader;
mod scripted;
mod scripted_carrier;
mod table;

pub use command::{CardEntry, Command, CrashEntry, Found};
pub use loader::{Loaded, load};
pub use reader::{matters, read};
pub use scripted::Scripted;

#[cfg(test)]
mod tests;
