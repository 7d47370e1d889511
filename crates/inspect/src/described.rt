// What a script describes, in words.
ghost use Rattle.std.specs.Prelude.{◌≤◌};

use carrier::{Carrier, ConsoleSet};
use joining::Card;
use script::{Command, Loaded};
use shown::{ShownCard, ShownSet};
use std::io;

// The cards by rising console.
fn print_cards(rt: &impl Print, cards: &[Card]) -> io::Result<()> {
    for (console, card) in cards.iter().enumerate() {
        println!(rt; "console {console}: {}", ShownCard(*card))?;
    }
    Ok(())
}

// Those who are lost in one round, by rising console.
fn print_lost(rt: &impl Print, ring: &impl Carrier, round: u8, lost: ConsoleSet) -> io::Result<()> {
    for console in lost {
        let hearers = ShownSet(ring.heard(round, console));
        println!(rt; "console {console} is lost in round {round}, heard by {hearers}")?;
    }
    Ok(())
}

// The losses by rising round. `demo` goes through the rounds too, and has something else to print at each of them.
fn print_losses(rt: &impl Print, ring: &impl Carrier) -> io::Result<()> {
    let last = ring.sizes().losses() + 1;
    for round in 1..=last {
        let lost = ring.up(round - 1).difference(ring.up(round));
        print_lost(rt, ring, round, lost)?;
    }
    if ring.up(last) == ring.up(0) {
        println!(rt; "nobody is lost")?;
    }
    Ok(())
}

// How many of the first commands of a script are remarks. A `for` and no chain: where a command begins is known only
// when the one before it is read.
fn count_remarks(bytes: &[u8], commands: usize) -> usize
    ensures { result ≤ commands }
{
    let mut remarks = 0;
    let mut place = 0;
    for _ in 0..commands {
        let Ok(found) = script::read(bytes, place) else {
            break;
        };
        if let Command::Remark(_) = found.command {
            remarks += 1;
        }
        place = found.next;
    }
    remarks
}

// Called once, with all that a load gives. The ring's cards are the first n of the sixteen, which it fills in fixed
// memory.
pub fn print(
    rt: &impl Print,
    bytes: &[u8],
    ring: &impl Carrier,
    cards: &[Card; 16],
    loaded: Loaded,
) -> io::Result<()> {
    let consoles = loaded.sizes.consoles();
    let losses = loaded.sizes.losses();
    let commands = loaded.commands;
    let remarks = count_remarks(bytes, commands);
    println!(rt; "ring of {consoles}, may lose {losses}")?;
    print_cards(rt, &cards[0..consoles as usize])?;
    print_losses(rt, ring)?;
    println!(rt; "{commands} commands, {remarks} of them remarks")
}
