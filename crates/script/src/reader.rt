// Reads one command of a script. The first byte of each command stands in the patterns as the format has it.
ghost use Rattle.script.specs.Reading.{read_first, link_from, card_from, crash_from, remark_from, end_from, FirstOf, ReadAt, ReadBack, Matters};
ghost use Rattle.std.specs.Prelude.{◌≡◌, slice_index};

use crate::command::{CardEntry, Command, CrashEntry, Found};
use carrier::ConsoleSet;
use refusal::ReaderFault;

// A command and the bytes behind it, or why there is none.
type First<'a> = Result<(Command<'a>, &'a [u8]), ReaderFault>;

// This function and the three behind it each name the operands of one command in one slice pattern, and require its
// first byte, which `first` has seen. One match that names all the operands would be longer than a screen.
fn link(bytes: &[u8]) -> First<'_>
    requires { slice_index bytes.now 0 ≡ 0x4C }
    ensures { FirstOf (link_from bytes.now) result }
{
    let [0x4C, n, f, rest @ ..] = bytes else {
        return Err(ReaderFault::Incomplete);
    };
    Ok((Command::Link { n: *n, f: *f }, rest))
}

fn card(bytes: &[u8]) -> First<'_>
    requires { slice_index bytes.now 0 ≡ 0x50 }
    ensures { FirstOf (card_from bytes.now) result }
{
    let [
        0x50,
        console,
        letter,
        delay,
        m1,
        m0,
        s3,
        s2,
        s1,
        s0,
        rest @ ..,
    ] = bytes
    else {
        return Err(ReaderFault::Incomplete);
    };
    let card = CardEntry {
        console: *console,
        letter: *letter,
        delay: *delay,
        modes: u16::from_be_bytes([*m1, *m0]),
        seed: u32::from_be_bytes([*s3, *s2, *s1, *s0]),
    };
    Ok((Command::Card(card), rest))
}

fn crash(bytes: &[u8]) -> First<'_>
    requires { slice_index bytes.now 0 ≡ 0x43 }
    ensures { FirstOf (crash_from bytes.now) result }
{
    let [0x43, round, console, h1, h0, rest @ ..] = bytes else {
        return Err(ReaderFault::Incomplete);
    };
    let crash = CrashEntry {
        round: *round,
        console: *console,
        hearers: ConsoleSet::from_number(u16::from_be_bytes([*h1, *h0])),
    };
    Ok((Command::Crash(crash), rest))
}

fn remark(bytes: &[u8]) -> First<'_>
    requires { slice_index bytes.now 0 ≡ 0x52 }
    ensures { FirstOf (remark_from bytes.now) result }
{
    let [0x52, _, _, _, _, _, _, _, _, rest @ ..] = bytes else {
        return Err(ReaderFault::Incomplete);
    };
    Ok((Command::Remark(&bytes[1..9]), rest))
}

// The command that the bytes begin with, and what is left behind it. A match in place: the byte decides which operands
// there are.
#[tactic(auto, using(crate::proofs::Reading::end_read))]
fn first(bytes: &[u8]) -> First<'_>
    ensures { FirstOf (read_first bytes.now) result }
{
    match bytes {
        [0x4C, ..] => link(bytes),
        [0x50, ..] => card(bytes),
        [0x43, ..] => crash(bytes),
        [0x52, ..] => remark(bytes),
        [0x45, rest @ ..] => Ok((Command::End, rest)),
        [] => Err(ReaderFault::Incomplete),
        _ => Err(ReaderFault::NoCommand),
    }
}

// The command at a place, which may be any number.
#[tactic(auto, using(crate::proofs::Reading::read_back_anywhere))]
pub fn read(script: &[u8], place: usize) -> Result<Found<'_>, ReaderFault>
    ensures stands { ReadAt script.now place result }
    ensures read_back { ReadBack }
{
    if place > script.len() {
        return Err(ReaderFault::Incomplete);
    }
    let (command, rest) = first(&script[place..])?;
    Ok(Found {
        command,
        place,
        next: script.len() - rest.len(),
    })
}

// The command that matters at a place: the one there, or behind a remark the one that matters nine bytes on.
pub fn matters(script: &[u8], place: usize) -> Result<Found<'_>, ReaderFault>
    ensures { Matters script.now place result }
{
    let found = read(script, place)?;
    match found.command {
        Command::Remark(_) => matters(script, found.next),
        _ => Ok(found),
    }
}
