// The scripted carrier: its sizes, and what becomes of each console.
ghost use Rattle.carrier.specs.Losses.{losing, quiet};
ghost use Rattle.script.specs.Fates.{Legal, fates, no_loss};
ghost use Rattle.std.specs.Prelude.{◌≡◌, replicate};

use crate::table::Table;
use carrier::Sizes;

// Loses the consoles that its table names, when the table says so, heard then by those whom it says.
#[derive(Clone, Copy)]
pub struct Scripted {
    pub(crate) sizes: Sizes,
    pub(crate) table: Table,
    // a ghost field's fact may have one proof at most; `legal_itself` of specs/Legal.antt gives the fact without ∥ ∥₁
    ghost legal: { ∥ Legal sizes.n sizes.f table.entries ∥₁ },
}

impl Scripted {
    // One console, which is not lost.
    #[tactic(auto, using(crate::specs::Legal::empty_quiet))]
    pub fn new() -> Scripted
        ensures begins { (result.sizes.n ≡ 1) × (result.sizes.f ≡ 0) × (result.table.entries ≡ replicate 16 no_loss) }
        ensures pattern { losing result.sizes.n result.sizes.f (fates result.table.entries) ≡ quiet 1 0 }
    {
        Scripted {
            sizes: smallest(),
            table: Table::empty(),
        }
    }
}

// The ring of one console.
pub(crate) fn smallest() -> Sizes
    ensures { (result.n ≡ 1) × (result.f ≡ 0) }
{
    let Ok(sizes) = Sizes::new(1, 0) else {
        unreachable!()
    };
    sizes
}
