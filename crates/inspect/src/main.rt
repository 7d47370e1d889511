// Reads a fault script from standard input, and prints in words what it describes, or the line of its refusal.
#![tactic(auto)]

mod described;

use joining::{Card, Delay, Modes, Region, Seed};
use script::Scripted;
use std::io;
use std::io::Read;

// One more than a script may have, so that a script that is too long is seen to be.
const MOST_READ: usize = 4097;

// Fills the buffer from the input, which may come in pieces, and answers the part that was filled. No `io::copy`: that
// reads on where a read is interrupted, for ever if need be, and here a read that fails ends the program.
fn fill<'a>(input: &mut impl Read, buffer: &'a mut [u8; MOST_READ]) -> io::Result<&'a [u8]> {
    let mut filled = 0;
    while filled < buffer.len() {
        let count = input.read(&mut buffer[filled..])?;
        if count == 0 {
            break;
        }
        filled += count;
    }
    Ok(&buffer[0..filled])
}

// What a load writes over. No `Default`, since no card is the one to begin with.
fn blank_card() -> Card {
    Card::new(
        Region::Unmarked,
        Delay::from_frames(0),
        Modes::new(0),
        Seed::new(0),
    )
}

fn main(rt: HostRuntime) -> io::Result<()> {
    let mut buffer = [0; MOST_READ];
    let bytes = fill(&mut rt.stdin(), &mut buffer)?;
    let mut ring = Scripted::new();
    let mut cards = [blank_card(); 16];
    match script::load(bytes, &mut ring, &mut cards) {
        Ok(loaded) => described::print(&rt, bytes, &ring, &cards, loaded),
        Err(fault) => print!(rt; "{}", fault.line()),
    }
}
