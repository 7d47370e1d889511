// The loader: from the bytes of a script to a carrier and cards.
ghost use Rattle.script.specs.Loading.{Loads};
ghost use Rattle.script.specs.Plans.{Holds, Judges, Steps, ReadsAll, Filled};
ghost use Rattle.script.specs.Rules.{Standing};
ghost use Rattle.script.specs.Verdict.{JudgedAsDeclared};
ghost use Rattle.std.specs.Prelude.{◌≡◌, ◌<◌, ◌≤◌, length, MatchResult};

use crate::plan::{Phase, Plan};
use crate::reader::read;
use crate::scripted::Scripted;
use carrier::Sizes;
use joining::Card;
use refusal::{CommandFault, ListFault, LoadFault, Stopped};

// How many bytes a script may have.
const LONGEST: usize = 4096;

// What a load answers: the ring's sizes, and how many commands the script has, remarks and END counted.
#[derive(Clone, Copy)]
pub struct Loaded {
    pub sizes: Sizes,
    pub commands: usize,
}

// How far a load has come: what the commands so far say, where the next one begins, and how many there were.
#[derive(Clone, Copy)]
struct Progress {
    plan: Plan,
    place: usize,
    count: usize,
}

// One command: by the reader, and then by its place and its content.
#[tactic(auto, using(crate::proofs::Reading::refused_reading), unfolding(crate::specs::Verdict::judge))]
fn judge(script: &[u8], at: Progress) -> Result<Progress, CommandFault>
    requires { at.count ≤ 4096 }
    ensures { (s : Standing) → Holds at.plan s → Judges s script.now at result }
{
    let found = read(script, at.place)?;
    let plan = at.plan.admit(found.command)?;
    Ok(Progress {
        plan,
        place: found.next,
        count: at.count + 1,
    })
}

// One command, with the place and the count of what is refused. A match and no `map_err`, which copies all that was
// read so far once more for each command: a load then takes half as long again.
fn step(script: &[u8], at: Progress) -> Result<Progress, Stopped>
    requires { at.count ≤ 4096 }
    ensures { (s : Standing) → Holds at.plan s → Steps s script.now at result }
{
    match judge(script, at) {
        Ok(next) => Ok(next),
        Err(fault) => Err(Stopped {
            fault,
            place: at.place,
            count: at.count,
        }),
    }
}

// Command after command up to END, behind which nothing may stand. A `while`, as it only asks whether END has come.
fn read_all(script: &[u8]) -> Result<Progress, Stopped>
    requires { length script.now ≤ 4096 }
    ensures { ReadsAll script.now result }
{
    let mut at = Progress {
        plan: Plan::opening(),
        place: 0,
        count: 0,
    };
    while at.plan.phase != Phase::Ended {
        at = step(script, at)?;
    }
    if at.place < script.len() {
        return Err(Stopped {
            fault: CommandFault::NotAllowedHere,
            place: at.place,
            count: at.count,
        });
    }
    Ok(at)
}

fn long_enough(cards: &[Card], sizes: Sizes) -> Result<(), ListFault>
    ensures { MatchResult result (λ u. sizes.n ≤ length cards.now) (λ fault. length cards.now < sizes.n) }
{
    if cards.len() < sizes.consoles() as usize {
        return Err(ListFault::TooShort);
    }
    Ok(())
}

// By place and not by `zip`: what is written through such a pair is not known behind the loop.
fn deal_out(dealt: &[Option<Card>; 16], sizes: Sizes, cards: &mut [Card])
    requires { sizes.n ≤ length cards.old }
    ensures { Filled dealt.now sizes.n cards.old cards.new }
{
    let n = sizes.consoles() as usize;
    for (console, card) in dealt[..n].iter().enumerate() {
        if let Some(card) = card {
            cards[console] = *card;
        }
    }
}

// Fills the carrier and the first n cards from a script, or refuses and leaves both as they were.
#[tactic(auto, using(crate::proofs::Verdicts::judged_as_declared, crate::proofs::Verdicts::too_long))]
pub fn load(script: &[u8], carrier: &mut Scripted, cards: &mut [Card]) -> Result<Loaded, LoadFault>
    ensures loads { Loads script.now carrier.old cards.old result carrier.new cards.new }
    ensures verdicts { JudgedAsDeclared }
{
    if script.len() > LONGEST {
        return Err(LoadFault::TooLong);
    }
    let read = read_all(script)?;
    let Plan { sizes, table, .. } = read.plan;
    long_enough(cards, sizes)?;
    *carrier = Scripted { sizes, table };
    deal_out(&read.plan.cards, sizes, cards);
    Ok(Loaded {
        sizes,
        commands: read.count,
    })
}
