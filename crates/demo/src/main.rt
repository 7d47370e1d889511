// Joins the start cards of a ring of three in two orders, and prints who is lost and heard when on a staggered ring.
#![tactic(auto)]

use carrier::{Carrier, ConsoleSet, Staggered};
use joining::{Card, Delay, Joining, Modes, Region, Seed};
use shown::{ShownCard, ShownSet};
use std::io;

fn join_cards(rt: &impl Print) -> io::Result<()> {
    let first = Card::new(
        Region::Fifty,
        Delay::from_frames(2),
        Modes::new(0x0003),
        Seed::new(5),
    );
    let second = Card::new(
        Region::Unmarked,
        Delay::from_frames(3),
        Modes::new(0x0006),
        Seed::new(9),
    );
    let third = Card::new(
        Region::Unmarked,
        Delay::from_frames(1),
        Modes::new(0x0007),
        Seed::new(7),
    );
    for (console, card) in [first, second, third].into_iter().enumerate() {
        println!(rt; "console {console}: {}", ShownCard(card))?;
    }
    let rising = first.join(second).join(third);
    let falling = third.join(second.join(first));
    println!(rt; "agreed, 0 with 1, then 2: {}", ShownCard(rising))?;
    println!(rt; "agreed, 2 with 1 and 0: {}", ShownCard(falling))?;
    let verdict = if rising == falling {
        "equal"
    } else {
        "different"
    };
    println!(rt; "the two are {verdict}")
}

fn print_losses(
    rt: &impl Print,
    ring: &impl Carrier,
    round: u8,
    lost: ConsoleSet,
) -> io::Result<()> {
    for console in lost {
        print!(rt;
            ", lost {console} heard by {}",
            ShownSet(ring.heard(round, console))
        )?;
    }
    Ok(())
}

fn print_schedule(rt: &impl Print, ring: &impl Carrier) -> io::Result<()> {
    println!(rt; "before round 1: up {}", ShownSet(ring.up(0)))?;
    for round in 1..=ring.sizes().losses() + 1 {
        let up = ring.up(round);
        print!(rt; "round {round}: up {}", ShownSet(up))?;
        print_losses(rt, ring, round, ring.up(round - 1).difference(up))?;
        println!(rt; "")?;
    }
    Ok(())
}

fn main(rt: HostRuntime) -> io::Result<()> {
    println!(rt; "a ring of three joins its start cards")?;
    join_cards(&rt)?;
    println!(rt; "a staggered ring of five allows three losses")?;
    match Staggered::new(5, 3) {
        Ok(ring) => print_schedule(&rt, &ring),
        Err(fault) => println!(rt; "refused {}", fault.number()),
    }
}
