// 64 bits in a word, against single bits.
use std::process::Abort;
use std::test::Fail;
use values::bit::Bit;
use values::element::Element;
use values::lane::Lane;
use values::lanes::Lanes;
use values::relation::Relation;
use values::system::ValueSystem;

const WORDS: [u64; 8] = [
    0,
    u64::MAX,
    1,
    1 << 63,
    0xaaaa_aaaa_aaaa_aaaa,
    0x3333_3333_3333_3333,
    0x0123_4567_89ab_cdef,
    0x8000_0000_ffff_0001,
];

// In one lane, two words answer what their bits in it do.
fn check_lane(rt: &impl Abort, lane: Lane, left: Lanes, right: Lanes) {
    let (a, b) = (left.bit(lane), right.bit(lane));
    let place = lane.place;
    assert_eq!(rt; left.not().bit(lane), a.not(), "NOT {left}, lane {place}");
    assert_eq!(rt;
        left.and(right).bit(lane),
        a.and(b),
        "{left} AND {right}, lane {place}"
    );
    assert_eq!(rt;
        left.or(right).bit(lane),
        a.or(b),
        "{left} OR {right}, lane {place}"
    );
    assert_eq!(rt;
        left.xor(right).bit(lane),
        a.xor(b),
        "{left} XOR {right}, lane {place}"
    );
    assert_eq!(rt;
        lane.ties(left, b),
        a.same(b),
        "{left} and {b}, lane {place}"
    );
    assert!(rt; lane.ties(Lanes::START, Bit::START), "START, lane {place}");
}

#[test]
fn each_lane_is_two_valued(rt: HostRuntime) -> Result<(), Fail> {
    for left in WORDS.map(Lanes) {
        for right in WORDS.map(Lanes) {
            for lane in (0..64).filter_map(Lane::new) {
                check_lane(&rt, lane, left, right);
            }
            assert_eq!(rt; left.same(right), left.0 == right.0, "{left} SAME {right}");
            assert_eq!(rt;
                left.alike(right),
                left.0 == right.0,
                "{left} alike {right}"
            );
        }
    }
    Ok(())
}

#[test]
fn bits_by_their_weight(rt: HostRuntime) -> Result<(), Fail> {
    for place in 0..64 {
        let lane = Lane::new(place).expect(&rt, "a place in the word");
        assert_eq!(rt;
            Lanes(0xf0).bit(lane),
            Bit((4..8).contains(&place)),
            "place {place}"
        );
        assert!(rt; !Lanes(0).same(Lanes(1 << place)), "place {place}");
    }
    for place in [64, 65, u8::MAX] {
        assert!(rt; Lane::new(place).is_none(), "place {place}");
    }
    Ok(())
}
