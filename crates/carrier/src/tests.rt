// Boundaries of the sizes, worked rounds, and the round rule asked of every ring.
use crate::*;
use refusal::ContentFault;
use std::process::Abort;
use std::test::Fail;

fn refused(rt: &impl Abort, n: u8, f: u8) {
    assert_eq!(rt; Sizes::new(n, f), Err(ContentFault::SizesOutOfRange));
    assert_eq!(rt; Quiet::new(n, f), Err(ContentFault::SizesOutOfRange));
    assert_eq!(rt; Staggered::new(n, f), Err(ContentFault::SizesOutOfRange));
    assert_eq!(rt; ContentFault::SizesOutOfRange.number(), 5);
}

#[test]
fn sizes_at_their_boundaries(rt: HostRuntime) -> Result<(), Fail> {
    let largest = Sizes::new(16, 15)?;
    assert_eq!(rt; largest.consoles(), 16);
    assert_eq!(rt; largest.losses(), 15);
    assert_eq!(rt; Quiet::new(1, 0)?.sizes().consoles(), 1);
    assert_eq!(rt; Staggered::new(16, 15)?.up(16).number(), 0x8000);
    refused(&rt, 17, 0);
    refused(&rt, 16, 16);
    refused(&rt, 1, 1);
    refused(&rt, 0, 0);
    Ok(())
}

#[test]
fn quiet_loses_nobody(rt: HostRuntime) -> Result<(), Fail> {
    let ring = Quiet::new(3, 2)?;
    assert_eq!(rt; ring.up(0).number(), 0x0007);
    assert_eq!(rt; ring.up(255).number(), 0x0007);
    assert_eq!(rt; ring.heard(1, 2).number(), 0x0007);
    assert_eq!(rt; ring.heard(0, 2).number(), 0);
    assert_eq!(rt; ring.heard(1, 3).number(), 0);
    assert_eq!(rt; ring.heard(255, 255).number(), 0);
    Ok(())
}

#[test]
fn staggered_loses_one_in_each_round(rt: HostRuntime) -> Result<(), Fail> {
    let ring = Staggered::new(5, 3)?;
    assert_eq!(rt; ring.up(0).number(), 0x001f);
    assert_eq!(rt; ring.up(2).number(), 0x001c);
    assert_eq!(rt; ring.up(4).number(), 0x0018);
    assert_eq!(rt; ring.heard(2, 1).number(), 0x0004);
    assert_eq!(rt; ring.heard(3, 1).number(), 0);
    assert_eq!(rt; ring.heard(1, 1).number(), 0x001f);
    assert_eq!(rt; ring.heard(4, 3).number(), 0x001f);
    assert_eq!(rt; ring.heard(0, 0).number(), 0);
    assert_eq!(rt; ring.heard(1, 5).number(), 0);
    Ok(())
}

#[test]
fn sets_leave_out_what_is_no_console(rt: HostRuntime) {
    assert_eq!(rt; ConsoleSet::all_of(16).number(), 0xffff);
    assert_eq!(rt; ConsoleSet::all_of(255).count(), 16);
    assert_eq!(rt; ConsoleSet::one(16), ConsoleSet::empty());
    assert_eq!(rt; ConsoleSet::all_of(3).with(255).without(1).number(), 0x0005);
    assert_eq!(rt; ConsoleSet::all_of(16).holds(16), false);
    assert_eq!(rt; ConsoleSet::one(15).lowest_from(3), Some(15));
    assert_eq!(rt; ConsoleSet::one(15).lowest_from(16), None);
}

#[test]
fn a_set_gives_its_members_from_the_lowest_up(rt: HostRuntime) {
    let mut consoles = ConsoleSet::from_number(0x8005).into_iter();
    assert_eq!(rt; consoles.next(), Some(0));
    assert_eq!(rt; consoles.next(), Some(2));
    assert_eq!(rt; consoles.next(), Some(15));
    assert_eq!(rt; consoles.next(), None);
    assert_eq!(rt; ConsoleSet::empty().into_iter().count(), 0);
}

fn keeps_the_round_rule(rt: &impl Abort, ring: &impl Carrier) {
    let all = ConsoleSet::all_of(ring.sizes().consoles());
    let most_lost = ring.sizes().losses();
    assert_eq!(rt; ring.up(0), all);
    for round in 1..20 {
        let before = ring.up(round - 1);
        let after = ring.up(round);
        assert!(rt; after.is_subset(before));
        assert!(rt; all.difference(after).count() <= most_lost);
        for sender in 0..20 {
            let heard = ring.heard(round, sender);
            assert!(rt; heard.is_subset(all));
            assert!(rt; !after.holds(sender) || after.is_subset(heard));
            assert!(rt; before.holds(sender) || heard == ConsoleSet::empty());
        }
    }
}

#[test]
fn every_ring_keeps_the_round_rule(rt: HostRuntime) -> Result<(), Fail> {
    for n in 1..17 {
        for f in 0..n {
            keeps_the_round_rule(&rt, &Quiet::new(n, f)?);
            keeps_the_round_rule(&rt, &Staggered::new(n, f)?);
        }
    }
    Ok(())
}
