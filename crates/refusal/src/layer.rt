// Where a call is stopped, and what a refusal points at.

// The layers, from the first check to the last.
#[derive(Clone, Copy, PartialEq, Eq, Debug)]
pub enum Layer {
    Entry,
    Reader,
    Order,
    Content,
    Lists,
    Session,
}

// What a refusal points at besides its number: nothing, or some of a console, a round and a number of rounds left. Not
// an enum of the combinations: readers ask for one part at a time.
#[derive(Clone, Copy, PartialEq, Eq, Debug, Default)]
pub struct Names {
    pub console: Option<u8>,
    pub round: Option<u8>,
    pub rounds_left: Option<u8>,
}
