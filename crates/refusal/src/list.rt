// The fault of a list that is handed in.
ghost use Rattle.refusal.specs.Table.{list_number, list_layer};
ghost use Rattle.std.specs.Prelude.{◌≡◌};

use crate::layer::Layer;

#[derive(Clone, Copy, PartialEq, Eq, Debug)]
pub enum ListFault {
    // it has fewer than n places
    TooShort,
}

impl ListFault {
    pub fn number(self) -> u8
        ensures { result ≡ list_number self }
    {
        match self {
            ListFault::TooShort => 14,
        }
    }

    pub fn layer(self) -> Layer
        ensures { result ≡ list_layer self }
    {
        match self {
            ListFault::TooShort => Layer::Lists,
        }
    }
}
