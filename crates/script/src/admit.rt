// What one command adds to a plan, or why it is refused.
ghost use Rattle.script.specs.Format.{Statement, link, card, crash, end, said};
ghost use Rattle.script.specs.Listing.{Listing, uncarded};
ghost use Rattle.script.specs.Plans.{Holds, Admits, Takes, Checks};
ghost use Rattle.script.specs.Rules.{Standing, nothing, under_way};
ghost use Rattle.std.specs.Prelude.{◌≡◌, ◌<◌, length, OnOk};

use crate::command::{CardEntry, Command, CrashEntry};
use crate::plan::{Phase, Plan};
use crate::scripted::smallest;
use crate::table::{Loss, Table};
use carrier::{ConsoleSet, Sizes};
use joining::Card;
use refusal::{CommandFault, ContentFault};

// What these functions promise of a listing they promise of any that the plan holds. It is no invariant of the plan,
// which keeps no order of the cards and so does not tell the listing.
impl Plan {
    pub(crate) fn opening() -> Plan
        ensures { Holds result nothing }
    {
        Plan {
            phase: Phase::Opening,
            sizes: smallest(),
            cards: [None; 16],
            table: Table::empty(),
            losses: 0,
        }
    }

    fn link(self, n: u8, f: u8) -> Result<Plan, ContentFault>
        ensures { Holds self nothing → Takes nothing (link n f) result }
    {
        let sizes = Sizes::new(n, f)?;
        Ok(Plan {
            phase: Phase::Cards,
            sizes,
            ..self
        })
    }

    fn deal(self, entry: CardEntry) -> Result<Plan, ContentFault>
        ensures { (l : Listing) → Holds self (under_way l) → length l.crashes ≡ 0 → Takes (under_way l) (card entry) result }
    {
        let console = entry.console;
        if console >= self.sizes.consoles() {
            return Err(ContentFault::ConsoleOutOfRange { console });
        }
        if self.cards[console as usize].is_some() {
            return Err(ContentFault::SecondCard { console });
        }
        let card = Card::try_from(entry)?;
        let mut cards = self.cards;
        cards[console as usize] = Some(card);
        Ok(Plan { cards, ..self })
    }

    // Whether a crash may be listed.
    fn check(&self, entry: CrashEntry) -> Result<(), ContentFault>
        ensures rules { (l : Listing) → Holds self.now (under_way l) → Checks (under_way l) (crash entry) result }
        ensures room { OnOk result ((entry.console < self.now.sizes.n) × (self.now.losses < self.now.sizes.f)) }
    {
        let CrashEntry {
            round,
            console,
            hearers,
        } = entry;
        if console >= self.sizes.consoles() {
            return Err(ContentFault::ConsoleOutOfRange { console });
        }
        if round == 0 || round > self.sizes.losses() + 1 {
            return Err(ContentFault::RoundOutOfRange { console, round });
        }
        if !hearers.is_subset(ConsoleSet::all_of(self.sizes.consoles())) {
            return Err(ContentFault::HearersOutOfRange { console, round });
        }
        if self.table.entry(console).round.is_some() {
            return Err(ContentFault::SecondCrash { console, round });
        }
        if self.losses >= self.sizes.losses() {
            return Err(ContentFault::TooManyCrashes { console, round });
        }
        Ok(())
    }

    fn lose(self, entry: CrashEntry) -> Result<Plan, ContentFault>
        ensures { (l : Listing) → Holds self (under_way l) → Takes (under_way l) (crash entry) result }
    {
        self.check(entry)?;
        let mut table = self.table;
        table.set(
            entry.console,
            Loss {
                round: Some(entry.round),
                hearers: entry.hearers,
            },
        );
        Ok(Plan {
            phase: Phase::Crashes,
            table,
            losses: self.losses + 1,
            ..self
        })
    }

    // The lowest console that has no card.
    fn uncarded(&self) -> Option<u8>
        ensures { (l : Listing) → Holds self.now (under_way l) → result ≡ uncarded l.n l.cards }
    {
        (0..self.sizes.consoles()).find(|&console| self.cards[console as usize].is_none())
    }

    fn finish(self) -> Result<Plan, ContentFault>
        ensures { (l : Listing) → Holds self (under_way l) → Takes (under_way l) end result }
    {
        match self.uncarded() {
            Some(console) => Err(ContentFault::CardMissing { console }),
            None => Ok(Plan {
                phase: Phase::Ended,
                ..self
            }),
        }
    }

    // Which command may come is told by the phase, in one place. What each of them adds has a promise of its own, which
    // a table of closures would hide.
    pub(crate) fn admit(self, command: Command) -> Result<Plan, CommandFault>
        ensures { (s : Standing) → Holds self s → Admits s (said command.entry) result }
    {
        match (self.phase, command) {
            (Phase::Opening, Command::Link { n, f }) => Ok(self.link(n, f)?),
            (Phase::Cards, Command::Card(entry)) => Ok(self.deal(entry)?),
            (Phase::Cards | Phase::Crashes, Command::Crash(entry)) => Ok(self.lose(entry)?),
            (Phase::Cards | Phase::Crashes, Command::End) => Ok(self.finish()?),
            (Phase::Opening | Phase::Cards | Phase::Crashes, Command::Remark(_)) => Ok(self),
            _ => Err(CommandFault::NotAllowedHere),
        }
    }
}
