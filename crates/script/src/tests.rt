// A worked ring, each refusal at its boundary, and what the reader answers.
use crate::*;
use carrier::Carrier;
use joining::{Card, Delay, Modes, Region, Seed};
use refusal::ReaderFault;
use std::process::Abort;
use std::test::Fail;

// Three consoles, of which one may be lost: console 0 in round 1, heard by console 1.
const RING: [u8; 39] = [
    0x4C, 3, 1, 0x50, 0, b'E', 2, 0, 3, 0, 0, 0, 5, 0x50, 1, b' ', 3, 0, 6, 0, 0, 0, 9, 0x50, 2,
    b' ', 1, 0, 7, 0, 0, 0, 7, 0x43, 1, 0, 0, 2, 0x45,
];

fn blank() -> Card {
    Card::new(Region::Clash, Delay::Zero, Modes::new(0), Seed::new(0))
}

fn loads(rt: &impl Abort, script: &[u8], n: u8, f: u8, commands: usize) {
    let mut ring = Scripted::new();
    let mut cards = [blank(); 16];
    match load(script, &mut ring, &mut cards) {
        Ok(loaded) => {
            assert_eq!(rt; loaded.sizes.consoles(), n);
            assert_eq!(rt; loaded.sizes.losses(), f);
            assert_eq!(rt; loaded.commands, commands);
        }
        Err(fault) => assert_eq!(rt; fault.number(), 0),
    }
}

fn refused(rt: &impl Abort, script: &[u8], line: &[u8]) {
    let mut ring = Scripted::new();
    let mut cards = [blank(); 16];
    match load(script, &mut ring, &mut cards) {
        Ok(loaded) => assert_eq!(rt; loaded.commands, 0),
        Err(fault) => {
            let reported = fault.line();
            assert_eq!(rt; reported.as_bytes(), line);
        }
    }
}

// The ring with one byte changed.
fn refused_with(rt: &impl Abort, place: usize, byte: u8, line: &[u8]) {
    let mut script = RING;
    assert!(rt; place < 39);
    script[place] = byte;
    refused(rt, &script, line);
}

#[test]
fn a_ring_of_three(rt: HostRuntime) -> Result<(), Fail> {
    let mut ring = Scripted::new();
    let mut cards = [blank(); 4];
    let Ok(loaded) = load(&RING, &mut ring, &mut cards) else {
        return Err(Fail::new("refused"));
    };
    assert_eq!(rt; loaded.commands, 6);
    assert_eq!(rt; ring.sizes().consoles(), 3);
    assert_eq!(rt; ring.sizes().losses(), 1);
    assert_eq!(rt; ring.up(0).number(), 0x0007);
    assert_eq!(rt; ring.up(1).number(), 0x0006);
    assert_eq!(rt; ring.up(255).number(), 0x0006);
    assert_eq!(rt; ring.heard(1, 0).number(), 0x0002);
    assert_eq!(rt; ring.heard(2, 0).number(), 0);
    assert_eq!(rt; ring.heard(2, 1).number(), 0x0007);
    assert_eq!(rt; ring.heard(0, 1).number(), 0);
    assert_eq!(rt; ring.heard(1, 3).number(), 0);
    assert_eq!(rt; cards[0].region(), Region::Fifty);
    assert_eq!(rt; cards[1].delay(), Delay::Three);
    assert_eq!(rt; cards[2].modes().number(), 7);
    assert_eq!(rt; cards[2].seed().number(), 7);
    assert_eq!(rt; cards[3], blank());
    Ok(())
}

#[test]
fn a_refusal_leaves_everything(rt: HostRuntime) -> Result<(), Fail> {
    let mut ring = Scripted::new();
    let mut cards = [blank(); 2];
    assert_eq!(rt; ring.sizes().consoles(), 1);
    assert_eq!(rt; ring.sizes().losses(), 0);
    match load(&RING, &mut ring, &mut cards) {
        Ok(_) => return Err(Fail::new("loaded")),
        Err(fault) => assert_eq!(rt; fault.line().as_bytes(), b"refused 14 lists\n".as_slice()),
    }
    assert_eq!(rt; ring.sizes().consoles(), 1);
    assert_eq!(rt; ring.up(9).number(), 0x0001);
    assert_eq!(rt; cards[0], blank());
    assert_eq!(rt; cards[1], blank());
    Ok(())
}

#[test]
fn sizes_and_cards_at_their_boundaries(rt: HostRuntime) {
    refused_with(&rt, 1, 17, b"refused 5 content at 0 after 0\n");
    refused_with(&rt, 1, 0, b"refused 5 content at 0 after 0\n");
    refused_with(&rt, 2, 3, b"refused 5 content at 0 after 0\n");
    refused_with(&rt, 4, 3, b"refused 6 content at 3 after 1 console 3\n");
    refused_with(&rt, 14, 0, b"refused 7 content at 13 after 2 console 0\n");
    refused_with(
        &rt,
        15,
        b'A',
        b"refused 8 content at 13 after 2 console 1\n",
    );
    refused_with(&rt, 16, 16, b"refused 8 content at 13 after 2 console 1\n");
    let mut script = RING;
    script[5] = b'J';
    script[15] = b'U';
    script[16] = 15;
    loads(&rt, &script, 3, 1, 6);
    loads(
        &rt,
        &[0x4C, 1, 0, 0x50, 0, b' ', 0, 0, 0, 0, 0, 0, 0, 0x45],
        1,
        0,
        3,
    );
}

#[test]
fn crashes_at_their_boundaries(rt: HostRuntime) {
    refused_with(&rt, 35, 3, b"refused 6 content at 33 after 4 console 3\n");
    refused_with(
        &rt,
        34,
        0,
        b"refused 9 content at 33 after 4 console 0 round 0\n",
    );
    refused_with(
        &rt,
        34,
        3,
        b"refused 9 content at 33 after 4 console 0 round 3\n",
    );
    refused_with(
        &rt,
        37,
        8,
        b"refused 10 content at 33 after 4 console 0 round 1\n",
    );
    refused_with(
        &rt,
        36,
        1,
        b"refused 10 content at 33 after 4 console 0 round 1\n",
    );
    refused_with(
        &rt,
        2,
        0,
        b"refused 12 content at 33 after 4 console 0 round 1\n",
    );
    let mut script = RING;
    script[34] = 2;
    script[37] = 7;
    loads(&rt, &script, 3, 1, 6);
}

#[test]
fn a_second_crash(rt: HostRuntime) {
    let mut script = [0; 44];
    script[0..38].copy_from_slice(&RING[0..38]);
    script[38..43].copy_from_slice(&RING[33..38]);
    script[43] = 0x45;
    refused(
        &rt,
        &script,
        b"refused 11 content at 38 after 5 console 0 round 1\n",
    );
    script[40] = 2;
    refused(
        &rt,
        &script,
        b"refused 12 content at 38 after 5 console 2 round 1\n",
    );
    script[2] = 2;
    loads(&rt, &script, 3, 2, 7);
}

#[test]
fn order_and_the_end(rt: HostRuntime) {
    refused(&rt, &[], b"refused 3 reader at 0 after 0\n");
    refused(&rt, &RING[0..38], b"refused 3 reader at 38 after 5\n");
    refused(&rt, &RING[0..37], b"refused 3 reader at 33 after 4\n");
    refused(&rt, &[0x46], b"refused 2 reader at 0 after 0\n");
    refused(&rt, &[0x45], b"refused 4 order at 0 after 0\n");
    refused(
        &rt,
        &[0x4C, 3, 1, 0x4C, 3, 1],
        b"refused 4 order at 3 after 1\n",
    );
    refused(
        &rt,
        &[0x4C, 3, 1, 0x45, 0x45],
        b"refused 13 content at 3 after 1 console 0\n",
    );
    let mut script = [0xFF; 40];
    script[0..39].copy_from_slice(&RING);
    refused(&rt, &script, b"refused 4 order at 39 after 6\n");
    script[0..33].copy_from_slice(&RING[0..33]);
    script[23..28].copy_from_slice(&RING[33..38]);
    script[28..38].copy_from_slice(&RING[23..33]);
    refused(&rt, &script, b"refused 4 order at 28 after 4\n");
}

#[test]
fn a_console_without_a_card(rt: HostRuntime) {
    let mut script = [0x45; 29];
    script[0..23].copy_from_slice(&RING[0..23]);
    script[23..28].copy_from_slice(&RING[33..38]);
    refused(
        &rt,
        &script,
        b"refused 13 content at 28 after 4 console 2\n",
    );
}

fn put_card(rt: &impl Abort, script: &mut [u8], place: usize, console: u8) {
    assert!(rt; place < 100 && script.len() > 110);
    script[place..place + 10].copy_from_slice(&RING[3..13]);
    script[place + 1] = console;
}

// Six consoles and 448 remarks come to exactly 4,096 bytes.
#[test]
fn the_longest_script(rt: HostRuntime) {
    let mut script = [0x52; 4097];
    script[0..3].copy_from_slice(&[0x4C, 6, 5]);
    for console in 0..6 {
        put_card(&rt, &mut script, 3 + 10 * console as usize, console);
    }
    script[4095] = 0x45;
    loads(&rt, &script[0..4096], 6, 5, 456);
    refused(&rt, &script, b"refused 1 entry at 0 after 0\n");
}

#[test]
fn commands_are_read_anywhere(rt: HostRuntime) -> Result<(), Fail> {
    let script = [
        0x52, 1, 2, 3, 4, 5, 6, 7, 8, 0x52, 0, 0, 0, 0, 0, 0, 0, 0, 0x43, 9, 7, 1, 2,
    ];
    match read(&script, 0) {
        Ok(found) => {
            assert_eq!(rt; found.place, 0);
            assert_eq!(rt; found.next, 9);
            let Command::Remark(text) = found.command else {
                return Err(Fail::new("no remark"));
            };
            assert_eq!(rt; text, &script[1..9]);
        }
        Err(fault) => assert_eq!(rt; fault.number(), 0),
    }
    match matters(&script, 0) {
        Ok(found) => {
            assert_eq!(rt; found.place, 18);
            let Command::Crash(entry) = found.command else {
                return Err(Fail::new("no crash"));
            };
            assert_eq!(rt; entry.round, 9);
            assert_eq!(rt; entry.console, 7);
            assert_eq!(rt; entry.hearers.number(), 0x0102);
        }
        Err(fault) => assert_eq!(rt; fault.number(), 0),
    }
    Ok(())
}

fn unread(rt: &impl Abort, script: &[u8], place: usize, fault: ReaderFault) {
    match read(script, place) {
        Ok(found) => assert_eq!(rt; found.next, 0),
        Err(given) => assert_eq!(rt; given, fault),
    }
    match matters(script, place) {
        Ok(found) => assert_eq!(rt; found.next, 0),
        Err(given) => assert_eq!(rt; given, fault),
    }
}

#[test]
fn no_command_to_read(rt: HostRuntime) {
    unread(&rt, &RING, 39, ReaderFault::Incomplete);
    unread(&rt, &RING, usize::MAX, ReaderFault::Incomplete);
    unread(&rt, &RING, 1, ReaderFault::NoCommand);
    unread(
        &rt,
        &[0x52, 1, 2, 3, 4, 5, 6, 7],
        0,
        ReaderFault::Incomplete,
    );
}
