// The one table of refusals that every layer refuses from. A fault is a case of its layer's enum; `specs/Table.antt`
// fixes for each case its number, its layer and what it names. A lower layer's fault lies inside the higher one.
// `specs/Line.antt` fixes the line that reports a refused load to people.
#![tactic(auto)]

mod command;
mod content;
mod layer;
mod line;
mod list;
mod load;
mod reader;

pub use command::CommandFault;
pub use content::ContentFault;
pub use layer::{Layer, Names};
pub use line::Line;
pub use list::ListFault;
pub use load::{LoadFault, Stopped};
pub use reader::ReaderFault;

#[cfg(test)]
mod tests;
