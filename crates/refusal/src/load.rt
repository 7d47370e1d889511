// What the load of a fault script is refused with.
ghost use Rattle.refusal.specs.Table.{load_number, load_layer, load_place, load_count, load_names};
ghost use Rattle.refusal.specs.declared.load.LoadFault.TheVariants.{Command, List};
ghost use Rattle.std.specs.Prelude.{◌≡◌};

use crate::command::CommandFault;
use crate::layer::{Layer, Names};
use crate::list::ListFault;

// A command's fault, with the place of the command's first byte and how many commands stood before it.
#[derive(Clone, Copy, PartialEq, Eq, Debug)]
pub struct Stopped {
    pub fault: CommandFault,
    pub place: usize,
    pub count: usize,
}

#[derive(Clone, Copy, PartialEq, Eq, Debug)]
pub enum LoadFault {
    // the script has more than 4,096 bytes
    TooLong,
    Command(Stopped),
    List(ListFault),
}

// Written out and not derived: a derive's contract would not say which case a fault becomes.
impl From<Stopped> for LoadFault {
    ghost from_gives = { λ lower r. r ≡ Command lower };

    fn from(fault: Stopped) -> LoadFault {
        LoadFault::Command(fault)
    }
}

impl From<ListFault> for LoadFault {
    ghost from_gives = { λ lower r. r ≡ List lower };

    fn from(fault: ListFault) -> LoadFault {
        LoadFault::List(fault)
    }
}

impl LoadFault {
    pub fn number(self) -> u8
        ensures { result ≡ load_number self }
    {
        match self {
            LoadFault::TooLong => 1,
            LoadFault::Command(stopped) => stopped.fault.number(),
            LoadFault::List(lower) => lower.number(),
        }
    }

    pub fn layer(self) -> Layer
        ensures { result ≡ load_layer self }
    {
        match self {
            LoadFault::TooLong => Layer::Entry,
            LoadFault::Command(stopped) => stopped.fault.layer(),
            LoadFault::List(lower) => lower.layer(),
        }
    }

    // Where the command that is refused begins. `count` has the same three arms: a function for both at once would
    // answer an optional pair, which each of the two would take apart again.
    pub fn place(self) -> Option<usize>
        ensures { result ≡ load_place self }
    {
        match self {
            LoadFault::TooLong => Some(0),
            LoadFault::Command(stopped) => Some(stopped.place),
            LoadFault::List(_) => None,
        }
    }

    // How many commands stand before it.
    pub fn count(self) -> Option<usize>
        ensures { result ≡ load_count self }
    {
        match self {
            LoadFault::TooLong => Some(0),
            LoadFault::Command(stopped) => Some(stopped.count),
            LoadFault::List(_) => None,
        }
    }

    fn names(self) -> Names
        ensures { result ≡ load_names self }
    {
        match self {
            LoadFault::Command(stopped) => stopped.fault.names(),
            LoadFault::TooLong | LoadFault::List(_) => Names::default(),
        }
    }

    pub fn console(self) -> Option<u8>
        ensures { result ≡ (load_names self).console }
    {
        self.names().console
    }

    pub fn round(self) -> Option<u8>
        ensures { result ≡ (load_names self).round }
    {
        self.names().round
    }
}
