// What a command of a fault script is refused with: the reader's fault, its place in the order, or its content.
ghost use Rattle.refusal.specs.Table.{command_number, command_layer, command_names};
ghost use Rattle.refusal.specs.declared.command.CommandFault.TheVariants.{Reader, Content};
ghost use Rattle.std.specs.Prelude.{◌≡◌};

use crate::content::ContentFault;
use crate::layer::{Layer, Names};
use crate::reader::ReaderFault;

#[derive(Clone, Copy, PartialEq, Eq, Debug)]
pub enum CommandFault {
    Reader(ReaderFault),
    // the command is not allowed there, or bytes stand behind END
    NotAllowedHere,
    Content(ContentFault),
}

// Written out and not derived: a derive's contract would not say which case a fault becomes.
impl From<ReaderFault> for CommandFault {
    ghost from_gives = { λ lower r. r ≡ Reader lower };

    fn from(fault: ReaderFault) -> CommandFault {
        CommandFault::Reader(fault)
    }
}

impl From<ContentFault> for CommandFault {
    ghost from_gives = { λ lower r. r ≡ Content lower };

    fn from(fault: ContentFault) -> CommandFault {
        CommandFault::Content(fault)
    }
}

impl CommandFault {
    pub fn number(self) -> u8
        ensures { result ≡ command_number self }
    {
        match self {
            CommandFault::Reader(lower) => lower.number(),
            CommandFault::NotAllowedHere => 4,
            CommandFault::Content(lower) => lower.number(),
        }
    }

    pub fn layer(self) -> Layer
        ensures { result ≡ command_layer self }
    {
        match self {
            CommandFault::Reader(lower) => lower.layer(),
            CommandFault::NotAllowedHere => Layer::Order,
            CommandFault::Content(lower) => lower.layer(),
        }
    }

    pub fn names(self) -> Names
        ensures { result ≡ command_names self }
    {
        match self {
            CommandFault::Reader(_) | CommandFault::NotAllowedHere => Names::default(),
            CommandFault::Content(lower) => lower.names(),
        }
    }
}
