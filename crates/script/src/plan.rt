// What a script has said so far.
use crate::table::Table;
use carrier::Sizes;
use joining::Card;

// What may come next: LINK; CARDs, CRASHes or END; CRASHes or END; nothing.
#[derive(Clone, Copy, PartialEq, Eq, Debug)]
pub(crate) enum Phase {
    Opening,
    Cards,
    Crashes,
    Ended,
}

// Before LINK the sizes say nothing, and there is no card and no loss. Sizes and table are those of the carrier to
// come. The cards and the table both go by the console, and stand apart, since the carrier takes the table whole and
// the cards go into the caller's list.
#[derive(Clone, Copy)]
pub(crate) struct Plan {
    pub(crate) phase: Phase,
    pub(crate) sizes: Sizes,
    pub(crate) cards: [Option<Card>; 16],
    pub(crate) table: Table,
    // how many consoles the table loses: kept, since to count them anew at each CRASH makes every load slower
    pub(crate) losses: u8,
}
