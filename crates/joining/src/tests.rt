// Worked joins and boundaries.
use crate::*;

const REGIONS: [Region; 4] = [
    Region::Unmarked,
    Region::Fifty,
    Region::Sixty,
    Region::Clash,
];

// What each region, by row, joins to with each region, by column.
const JOINS: [[Region; 4]; 4] = [
    [
        Region::Unmarked,
        Region::Fifty,
        Region::Sixty,
        Region::Clash,
    ],
    [Region::Fifty, Region::Fifty, Region::Clash, Region::Clash],
    [Region::Sixty, Region::Clash, Region::Sixty, Region::Clash],
    [Region::Clash, Region::Clash, Region::Clash, Region::Clash],
];

#[test]
fn every_pair_and_triple_of_regions(rt: HostRuntime) {
    for (x, row) in REGIONS.into_iter().zip(JOINS) {
        assert_eq!(rt; x.join(x), x);
        for (y, joined) in REGIONS.into_iter().zip(row) {
            assert_eq!(rt; x.join(y), joined);
            assert_eq!(rt; y.join(x), joined);
            for z in REGIONS {
                assert_eq!(rt; x.join(y).join(z), x.join(y.join(z)));
            }
        }
    }
}

#[test]
fn rates_of_regions(rt: HostRuntime) {
    assert_eq!(rt; Region::Unmarked.rate(), None);
    assert_eq!(rt; Region::Fifty.rate(), Some(50));
    assert_eq!(rt; Region::Sixty.rate(), Some(60));
    assert_eq!(rt; Region::Clash.rate(), None);
}

#[test]
fn fifty_with_sixty_clashes_and_unmarked_yields(rt: HostRuntime) {
    assert_eq!(rt; Region::Fifty.join(Region::Sixty), Region::Clash);
    assert_eq!(rt; Region::Unmarked.join(Region::Fifty), Region::Fifty);
}

#[test]
fn delays_stop_at_fifteen(rt: HostRuntime) {
    assert_eq!(rt; Delay::from_frames(15).frames(), 15);
    assert_eq!(rt; Delay::from_frames(16).frames(), 15);
    assert_eq!(rt; Delay::from_frames(0).frames(), 0);
    assert_eq!(rt;
        Delay::from_frames(14).join(Delay::from_frames(3)).frames(),
        14
    );
}

#[test]
fn cards_join_part_by_part(rt: HostRuntime) {
    let first = Card::new(Region::Fifty, Delay::Two, Modes::new(0x0003), Seed::new(5));
    let second = Card::new(
        Region::Unmarked,
        Delay::Three,
        Modes::new(0x0006),
        Seed::new(9),
    );
    let agreed = first.join(second);
    assert_eq!(rt; agreed.region(), Region::Fifty);
    assert_eq!(rt; agreed.delay(), Delay::Three);
    assert_eq!(rt; agreed.modes().number(), 0x0002);
    assert_eq!(rt; agreed.seed().number(), 5);
}
