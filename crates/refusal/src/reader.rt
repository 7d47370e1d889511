// The faults of the reader, which reads one command of a fault script.
ghost use Rattle.refusal.specs.Table.{reader_number, reader_layer};
ghost use Rattle.std.specs.Prelude.{◌≡◌};

use crate::layer::Layer;

#[derive(Clone, Copy, PartialEq, Eq, Debug)]
pub enum ReaderFault {
    // the byte is no command
    NoCommand,
    // operands are missing, or there is no byte at all
    Incomplete,
}

impl ReaderFault {
    // The number is what people read; code goes by the cases.
    pub fn number(self) -> u8
        ensures { result ≡ reader_number self }
    {
        match self {
            ReaderFault::NoCommand => 2,
            ReaderFault::Incomplete => 3,
        }
    }

    // `number`, `layer` and `names` of each enum are a table of its own cases: a trait over them all would join none of
    // the tables, and each caller would import it.
    pub fn layer(self) -> Layer
        ensures { result ≡ reader_layer self }
    {
        match self {
            ReaderFault::NoCommand | ReaderFault::Incomplete => Layer::Reader,
        }
    }
}
