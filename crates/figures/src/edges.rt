// Tests at the edges: the largest models, files a byte off, slices a place short, states and propositions that are not there.
use model::Model;
use packed::{inspect, open};
use reach::reach;
use refusal::Refusal;
use report::headline;

mod pairs_and_packing;

// The bytes of a file of 256 states with 31 propositions. The numbers here are the tests' own.
const LARGEST: usize = 9187;

// The bytes of one without propositions, and the numbers of bytes around it.
const UNLABELLED: usize = 8195;

const A_BYTE_LESS: usize = UNLABELLED - 1;

const A_BYTE_MORE: usize = UNLABELLED + 1;

// Sets a bit of a file, counted from the most significant of its first byte. The tests have this of their own, and not from the code that
// they test.
fn set_bit(bytes: &mut [u8], i: usize) {
    if let Some(byte) = bytes.get_mut(i / 8) {
        *byte |= 128 >> (i % 8);
    }
}

// The first `N` bytes of the file of a ring of states: each state has a step to the next, and the last proposition is true at the last state.
fn ring<const N: usize>(states: u16, propositions: u8) -> [u8; N] {
    let mut bytes = [0; N];
    if let Some(count) = bytes.get_mut(0) {
        *count = (states.saturating_sub(1) & 0xff) as u8;
    }
    if let Some(described) = bytes.get_mut(2) {
        *described = propositions << 3;
    }
    let width = usize::from(propositions) + usize::from(states);
    for s in 0..states {
        let steps = 21 + usize::from(s) * width + usize::from(propositions);
        let last = s + 1 == states;
        set_bit(
            &mut bytes,
            if last {
                steps
            } else {
                steps + usize::from(s) + 1
            },
        );
        if last && propositions > 0 {
            set_bit(&mut bytes, steps - 1);
        }
    }
    bytes
}

#[test]
fn largest_model(rt: HostRuntime) {
    let bytes: [u8; LARGEST] = ring(256, 31);
    assert_eq!(rt; inspect(&bytes), Ok(()));
    let model = open(&bytes);
    assert_eq!(rt;
        (model.states(), model.start(), model.propositions()),
        (256, 0, 31)
    );
    assert_eq!(rt;
        (
            model.holds(255, 30),
            model.holds(255, 29),
            model.holds(254, 30),
        ),
        (true, false, false)
    );
    assert_eq!(rt;
        (model.next(255, 0), model.next(0, 1), model.next(0, 2)),
        (Some(0), Some(1), None)
    );
    let mut scratch = [7u16; 1024];
    assert_eq!(rt; reach(&model, &mut scratch), Ok(256));
    assert_eq!(rt; scratch, [0; 1024]);
}

#[test]
fn largest_headline(rt: HostRuntime) {
    let bytes: [u8; LARGEST] = ring(256, 31);
    let mut line = [b'.'; 1024];
    let mut scratch = [7u16; 1024];
    assert_eq!(rt; headline(&bytes, &mut line, &mut scratch), Ok(41));
    assert!(rt; line.starts_with(b"states 256 reachable 256 propositions 31\n."));
    assert_eq!(rt; scratch, [0; 1024]);
}

#[test]
fn lengths_of_a_file(rt: HostRuntime) {
    let more: [u8; A_BYTE_MORE] = ring(256, 0);
    let exact: [u8; UNLABELLED] = ring(256, 0);
    let less: [u8; A_BYTE_LESS] = ring(256, 0);
    let short: [u8; 2] = ring(256, 0);
    assert_eq!(rt; inspect(&more), Err(Refusal::TooManyBytes));
    assert_eq!(rt; inspect(&exact), Ok(()));
    assert_eq!(rt; inspect(&less), Err(Refusal::TooFewBytes));
    assert_eq!(rt; inspect(&short), Err(Refusal::TooFewBytes));
    assert_eq!(rt; inspect(&[]), Err(Refusal::TooFewBytes));
    assert_eq!(rt; open(&exact).propositions(), 0);
    assert_eq!(rt; open(&more).states(), 1);
}

// Of several causes the first in the order of the numbers is told.
#[test]
fn first_cause(rt: HostRuntime) {
    assert_eq!(rt; inspect(&[0x01, 0x02, 0x0f]), Err(Refusal::TooFewBytes));
    assert_eq!(rt;
        inspect(&[0x01, 0x02, 0x0f, 0x01, 0x00]),
        Err(Refusal::TooManyBytes)
    );
    assert_eq!(rt;
        inspect(&[0x01, 0x02, 0x0f, 0x01]),
        Err(Refusal::FillingBitSet)
    );
    assert_eq!(rt;
        inspect(&[0x01, 0x02, 0x0f, 0x00]),
        Err(Refusal::StartNotAState)
    );
    assert_eq!(rt;
        inspect(&[0x01, 0x01, 0x0f, 0x00]),
        Err(Refusal::StateWithoutStep)
    );
}

#[test]
fn slices_a_place_short(rt: HostRuntime) {
    let file = [0x01, 0x00, 0x0f, 0x20];
    let mut line = [b'.'; 1024];
    let mut scratch = [7u16; 8];
    assert_eq!(rt;
        reach(&open(&file), &mut scratch[0..7]),
        Err(Refusal::SliceTooSmall)
    );
    assert_eq!(rt; scratch, [0, 0, 0, 0, 0, 0, 0, 7]);
    assert_eq!(rt;
        headline(&file, &mut line[0..1023], &mut scratch),
        Err(Refusal::SliceTooSmall)
    );
    assert_eq!(rt; scratch, [0; 8]);
    assert_eq!(rt;
        headline(&file, &mut line, &mut scratch[0..7]),
        Err(Refusal::SliceTooSmall)
    );
    assert_eq!(rt; line, [b'.'; 1024]);
    assert_eq!(rt; headline(&file, &mut line, &mut scratch), Ok(36));
    assert!(rt; line.starts_with(b"states 2 reachable 2 propositions 1\n."));
    assert_eq!(rt; headline(&[], &mut line, &mut scratch[0..4]), Ok(16));
    assert!(rt; line.starts_with(b"model refused 1\nle 2 propositions 1\n."));
}

// State 1 is not reached; what is not there is answered no or nothing.
#[test]
fn absent_states(rt: HostRuntime) {
    let model = open(&[0x01, 0x00, 0x0e, 0x20]);
    let mut scratch = [0u16; 8];
    assert_eq!(rt; reach(&model, &mut scratch), Ok(1));
    assert_eq!(rt;
        (
            model.next(0, 0),
            model.next(0, 1),
            model.next(1, 0),
            model.next(1, 2),
        ),
        (Some(0), None, Some(1), None)
    );
    assert_eq!(rt;
        (model.next(2, 0), model.next(65535, 0), model.next(0, 65535)),
        (None, None, None)
    );
    assert_eq!(rt;
        (model.holds(0, 0), model.holds(1, 0), model.holds(2, 0)),
        (true, false, false)
    );
    assert_eq!(rt;
        (
            model.holds(0, 1),
            model.holds(0, 255),
            model.holds(65535, 0),
        ),
        (false, false, false)
    );
}
