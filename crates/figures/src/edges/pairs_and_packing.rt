// Tests at the edges of pairs and of packing: sides that just fit and that just do not, a side of one state, slices a byte short.
use super::ring;
use model::{Model, still_model};
use packed::{FILE_ROOM, inspect, open, pack};
use pair::{Pair, fits};
use refusal::Refusal;

// State 0 has a proposition and steps to 0 and 1; state 1 has a step to itself.
const TWO_STATES: [u8; 4] = [0x01, 0x00, 0x0f, 0x20];

// State 0 has steps to 1 and 2, which have a step to themselves only; the proposition is true everywhere.
const THREE_STATES: [u8; 5] = [0x02, 0x00, 0x0d, 0xd4, 0x80];

#[test]
fn sides_of_sixteen_states(rt: HostRuntime) {
    let sixteen: [u8; 35] = ring(16, 0);
    let side = open(&sixteen);
    assert_eq!(rt; side.states(), 16);
    assert!(rt; fits(&side, &side));
    let pair = Pair::new(side, side);
    assert_eq!(rt;
        (pair.states(), pair.start(), pair.propositions()),
        (256, 0, 0)
    );
    assert_eq!(rt;
        (pair.next(0, 0), pair.next(0, 2), pair.next(0, 17)),
        (Some(1), Some(16), None)
    );
    assert_eq!(rt;
        (pair.next(255, 0), pair.next(255, 16), pair.next(255, 241)),
        (Some(15), Some(240), None)
    );
    assert_eq!(rt;
        (pair.next(256, 0), pair.next(65535, 0), pair.next(0, 65535)),
        (None, None, None)
    );
}

#[test]
fn sides_of_sixteen_and_seventeen_states(rt: HostRuntime) {
    let sixteen: [u8; 35] = ring(16, 0);
    let seventeen: [u8; 39] = ring(17, 0);
    let first = open(&sixteen);
    let second = open(&seventeen);
    assert_eq!(rt; second.states(), 17);
    assert!(rt; !fits(&first, &second));
    let pair = Pair::new(first, second);
    assert_eq!(rt;
        (pair.states(), pair.start(), pair.propositions()),
        (1, 0, 0)
    );
    assert_eq!(rt;
        (pair.next(0, 0), pair.next(0, 1), pair.next(1, 0)),
        (Some(0), None, None)
    );
    let mut out = [7u8; 4];
    assert_eq!(rt; pack(&pair, &mut out), Ok(3));
    assert_eq!(rt; out, [0x00, 0x00, 0x04, 7]);
}

#[test]
fn propositions_together(rt: HostRuntime) {
    let fifteen: [u8; 5] = ring(1, 15);
    let sixteen: [u8; 5] = ring(1, 16);
    let fewer = open(&fifteen);
    let more = open(&sixteen);
    assert!(rt; fits(&fewer, &more));
    assert!(rt; !fits(&more, &more));
    let pair = Pair::new(fewer, more);
    assert_eq!(rt; (pair.states(), pair.propositions()), (1, 31));
    assert_eq!(rt;
        (pair.holds(0, 14), pair.holds(0, 15), pair.holds(0, 30)),
        (true, false, true)
    );
    assert_eq!(rt;
        (pair.holds(0, 31), pair.holds(1, 14), pair.holds(0, 255)),
        (false, false, false)
    );
    assert_eq!(rt; Pair::new(more, more).propositions(), 0);
}

// The side of one state goes round its loop, which is a step of the pair from each state to itself.
#[test]
fn side_of_one_state(rt: HostRuntime) {
    let three = open(&THREE_STATES);
    assert_eq!(rt; three.next(0, 0), Some(1));
    let before = Pair::new(still_model(), three);
    assert_eq!(rt; (before.states(), before.propositions()), (3, 1));
    assert_eq!(rt;
        (before.next(0, 0), before.next(0, 1), before.next(0, 2)),
        (Some(0), Some(1), Some(2))
    );
    let behind = Pair::new(three, still_model());
    assert_eq!(rt; (behind.states(), behind.propositions()), (3, 1));
    assert_eq!(rt;
        (behind.next(0, 0), behind.next(0, 1), behind.next(0, 2)),
        (Some(0), Some(1), Some(2))
    );
    let both = Pair::new(still_model(), still_model());
    assert_eq!(rt;
        (both.states(), both.next(0, 0), both.next(0, 1)),
        (1, Some(0), None)
    );
}

#[test]
fn pair_of_a_pair(rt: HostRuntime) {
    let two = open(&TWO_STATES);
    let three = Pair::new(Pair::new(two, two), two);
    assert_eq!(rt; (three.states(), three.propositions()), (8, 3));
    assert_eq!(rt;
        (
            three.next(0, 0),
            three.next(0, 1),
            three.next(0, 2),
            three.next(0, 3),
        ),
        (Some(0), Some(1), Some(2), Some(4))
    );
    assert_eq!(rt; (three.next(0, 5), three.next(7, 0)), (None, Some(7)));
    let mut out = [0u8; 14];
    assert_eq!(rt; pack(&three, &mut out), Ok(14));
    assert_eq!(rt; inspect(&out), Ok(()));
}

#[test]
fn slice_a_byte_short(rt: HostRuntime) {
    let model = open(&TWO_STATES);
    let mut out = [7u8; 6];
    assert_eq!(rt; pack(&model, &mut out[0..3]), Err(Refusal::SliceTooSmall));
    assert_eq!(rt; out, [7; 6]);
    assert_eq!(rt; pack(&model, &mut out[0..4]), Ok(4));
    assert_eq!(rt; out, [0x01, 0x00, 0x0f, 0x20, 7, 7]);
    assert_eq!(rt; pack(&model, &mut []), Err(Refusal::SliceTooSmall));
}

#[test]
fn largest_file_again(rt: HostRuntime) {
    let bytes: [u8; FILE_ROOM] = ring(256, 31);
    let mut out = [7u8; FILE_ROOM];
    assert_eq!(rt;
        pack(&open(&bytes), &mut out[1..FILE_ROOM]),
        Err(Refusal::SliceTooSmall)
    );
    assert_eq!(rt; pack(&open(&bytes), &mut out), Ok(FILE_ROOM));
    assert!(rt; out == bytes);
}
