// The table row by row, and the line that reports a refused load.
use crate::*;
use arrayvec::ArrayString;
use std::fmt::{self, Write};
use std::process::Abort;

fn refused(fault: CommandFault) -> LoadFault {
    LoadFault::from(Stopped {
        fault,
        place: 28,
        count: 4,
    })
}

fn row(
    rt: &impl Abort,
    fault: LoadFault,
    number: u8,
    layer: Layer,
    console: Option<u8>,
    round: Option<u8>,
) {
    assert_eq!(rt; fault.number(), number);
    assert_eq!(rt; fault.layer(), layer);
    assert_eq!(rt; fault.console(), console);
    assert_eq!(rt; fault.round(), round);
}

fn content_row(
    rt: &impl Abort,
    fault: ContentFault,
    number: u8,
    console: Option<u8>,
    round: Option<u8>,
) {
    assert_eq!(rt; fault.number(), number);
    assert_eq!(rt; fault.layer(), Layer::Content);
    row(
        rt,
        refused(CommandFault::from(fault)),
        number,
        Layer::Content,
        console,
        round,
    );
}

#[test]
fn faults_that_name_nobody(rt: HostRuntime) {
    row(&rt, LoadFault::TooLong, 1, Layer::Entry, None, None);
    row(
        &rt,
        refused(CommandFault::from(ReaderFault::NoCommand)),
        2,
        Layer::Reader,
        None,
        None,
    );
    row(
        &rt,
        refused(CommandFault::from(ReaderFault::Incomplete)),
        3,
        Layer::Reader,
        None,
        None,
    );
    row(
        &rt,
        refused(CommandFault::NotAllowedHere),
        4,
        Layer::Order,
        None,
        None,
    );
    row(
        &rt,
        LoadFault::from(ListFault::TooShort),
        14,
        Layer::Lists,
        None,
        None,
    );
}

#[test]
fn faults_of_content(rt: HostRuntime) {
    let console = 2;
    let round = 3;
    content_row(&rt, ContentFault::SizesOutOfRange, 5, None, None);
    content_row(
        &rt,
        ContentFault::ConsoleOutOfRange { console },
        6,
        Some(2),
        None,
    );
    content_row(&rt, ContentFault::SecondCard { console }, 7, Some(2), None);
    content_row(
        &rt,
        ContentFault::CardOutOfRange { console },
        8,
        Some(2),
        None,
    );
    content_row(
        &rt,
        ContentFault::RoundOutOfRange { console, round },
        9,
        Some(2),
        Some(3),
    );
    content_row(
        &rt,
        ContentFault::HearersOutOfRange { console, round },
        10,
        Some(2),
        Some(3),
    );
    content_row(
        &rt,
        ContentFault::SecondCrash { console, round },
        11,
        Some(2),
        Some(3),
    );
    content_row(
        &rt,
        ContentFault::TooManyCrashes { console, round },
        12,
        Some(2),
        Some(3),
    );
    content_row(
        &rt,
        ContentFault::CardMissing { console },
        13,
        Some(2),
        None,
    );
}

fn stands(rt: &impl Abort, fault: LoadFault, place: Option<usize>, count: Option<usize>) {
    assert_eq!(rt; fault.place(), place);
    assert_eq!(rt; fault.count(), count);
}

#[test]
fn where_a_fault_stands(rt: HostRuntime) {
    stands(&rt, LoadFault::TooLong, Some(0), Some(0));
    stands(
        &rt,
        refused(CommandFault::NotAllowedHere),
        Some(28),
        Some(4),
    );
    stands(&rt, LoadFault::List(ListFault::TooShort), None, None);
}

fn reads(rt: &impl Abort, fault: LoadFault, text: &[u8]) {
    let line = fault.line();
    assert_eq!(rt; line.as_bytes(), text);
}

fn of_content(fault: ContentFault, place: usize, count: usize) -> LoadFault {
    LoadFault::Command(Stopped {
        fault: CommandFault::Content(fault),
        place,
        count,
    })
}

#[test]
fn lines_of_refused_loads(rt: HostRuntime) {
    let missing = ContentFault::CardMissing { console: 2 };
    reads(
        &rt,
        of_content(missing, 28, 4),
        b"refused 13 content at 28 after 4 console 2\n",
    );
    let early = ContentFault::RoundOutOfRange {
        console: 1,
        round: 3,
    };
    reads(
        &rt,
        of_content(early, 33, 4),
        b"refused 9 content at 33 after 4 console 1 round 3\n",
    );
    let empty = Stopped {
        fault: CommandFault::Reader(ReaderFault::Incomplete),
        place: 0,
        count: 0,
    };
    reads(
        &rt,
        LoadFault::Command(empty),
        b"refused 3 reader at 0 after 0\n",
    );
    reads(&rt, LoadFault::TooLong, b"refused 1 entry at 0 after 0\n");
    reads(
        &rt,
        LoadFault::List(ListFault::TooShort),
        b"refused 14 lists\n",
    );
}

#[test]
fn longest_line(rt: HostRuntime) {
    let fault = ContentFault::TooManyCrashes {
        console: 255,
        round: 255,
    };
    reads(
        &rt,
        of_content(fault, usize::MAX, usize::MAX),
        b"refused 12 content at 18446744073709551615 after 18446744073709551615 console 255 round 255\n",
    );
}

#[test]
fn a_line_prints_its_text(rt: HostRuntime) -> fmt::Result {
    let line = LoadFault::TooLong.line();
    let mut printed = ArrayString::<96>::new();
    write!(printed, "{line}")?;
    assert_eq!(rt; printed.as_str(), "refused 1 entry at 0 after 0\n");
    Ok(())
}

fn length_of(line: Line) -> usize {
    line.as_bytes().len()
}

#[test]
fn a_line_is_passed_by_value_and_used_again(rt: HostRuntime) {
    let line = LoadFault::TooLong.line();
    assert_eq!(rt; length_of(line), 29);
    assert_eq!(rt; length_of(line), 29);
}
