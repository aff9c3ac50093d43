//! Saved texts that are read, value by value.

use super::worked::{GROUP, LATER_PASSES, LATER_TWO_RINGS, PASSES, TWO_CLIENTS, TWO_RINGS};
use ring_text::{ReadError, Saved, SavedEvent, SavedRing, SavedSurvey, read_saved};
use std::process::Abort;

/// The part that is read of a ring.
#[derive(Clone, Copy)]
struct Block<'a> {
    /// The ring's place, its number of machines and its number of values.
    head: (u32, u32, u32),
    start: &'a [u32],
    events: &'a [SavedEvent],
    events_said: u64,
    surveys: &'a [SavedSurvey],
}

macro_rules! granted {
    ($machine:expr, $order:expr, $number:expr, $amount:expr) => {
        SavedEvent::Granted {
            seat: 0,
            machine: $machine,
            order: $order,
            number: $number,
            result: $amount,
        }
    };
}

/// A corruption of machine 1 to 2.
macro_rules! corrupted {
    ($seat:expr, $old:expr) => {
        SavedEvent::Corrupted {
            seat: $seat,
            machine: 1,
            value: 2,
            old: $old,
        }
    };
}

/// A member of seat 0's group with the order 2.
macro_rules! member {
    ($machine:expr, $left:expr, $number:expr, $amount:expr) => {
        SavedEvent::Member {
            seat: 0,
            machine: $machine,
            order: 2,
            left: $left,
            number: $number,
            result: $amount,
        }
    };
}

macro_rules! seen {
    ($seat:expr, $position:expr, $privileged:expr, $first:expr, $calm:expr, $rest:expr) => {
        SavedSurvey {
            seat: $seat,
            position: $position,
            privileged: $privileged,
            first: $first,
            calm: $calm,
            rest: $rest,
        }
    };
}

const OF_PASSES: [Block<'static>; 1] = [Block {
    head: (0, 3, 3),
    start: &[0, 2, 0],
    events: &[
        granted!(0, 5, 1, 5),
        SavedEvent::Refused {
            seat: 0,
            machine: 0,
            order: 1,
        },
        granted!(2, 4, 2, 9),
    ],
    events_said: 3,
    surveys: &[seen!(0, 3, 1, 1, 2, 0)],
}];

const OF_TWO_RINGS: [Block<'static>; 2] = [
    Block {
        head: (0, 3, 3),
        start: &[0, 0, 0],
        events: &[corrupted!(0, 0), corrupted!(0, 2)],
        events_said: 2,
        surveys: &[seen!(0, 2, 3, 0, 0, 6)],
    },
    Block {
        head: (1, 1, 1),
        start: &[4_294_967_295],
        events: &[],
        events_said: 0,
        surveys: &[],
    },
];

const OF_TWO_CLIENTS: [Block<'static>; 2] = [
    Block {
        head: (0, 2, 2),
        start: &[0, 0],
        events: &[
            SavedEvent::Granted {
                seat: 1,
                machine: 0,
                order: 7,
                number: 1,
                result: 7,
            },
            SavedEvent::Refused {
                seat: 0,
                machine: 0,
                order: 1,
            },
        ],
        events_said: 2,
        surveys: &[seen!(0, 2, 1, 1, 1, 0), seen!(1, 1, 1, 1, 1, 0)],
    },
    Block {
        head: (1, 3, 3),
        start: &[0, 0, 0],
        events: &[corrupted!(0, 0), corrupted!(1, 2)],
        events_said: 2,
        surveys: &[
            seen!(0, 1, 3, 0, 0, 6),
            seen!(0, 2, 3, 0, 0, 6),
            seen!(1, 2, 3, 0, 0, 6),
        ],
    },
];

const OF_GROUP: [Block<'static>; 1] = [Block {
    head: (0, 4, 4),
    start: &[0, 2, 1, 0],
    events: &[
        member!(1, 2, 1, 2),
        member!(0, 1, 2, 4),
        member!(3, 0, 3, 6),
    ],
    events_said: 3,
    surveys: &[seen!(0, 3, 3, 0, 3, 9)],
}];

/// Whether the ring is just this.
fn is_block(ring: &SavedRing, block: &Block) -> bool {
    ring.index == block.head.0
        && ring.n == block.head.1
        && ring.k == block.head.2
        && ring.start.as_slice() == block.start
        && ring.events.as_slice() == block.events
        && ring.events_said == block.events_said
        && ring.surveys.as_slice() == block.surveys
}

/// The value has this version and just these rings.
fn holds(rt: &impl Abort, saved: &Saved, version: u32, blocks: &[Block]) {
    assert!(rt; saved.version == version && saved.rings.len() == blocks.len());
    assert!(rt; saved.rings_said as usize == blocks.len());
    for place in 0..blocks.len() {
        assert!(rt;
            is_block(&saved.rings[place], &blocks[place]),
            "ring {place}"
        );
    }
}

// Passes too where any one request for memory is refused, as `trials/refused_memory.sh` has it.
#[test]
fn lack_of_memory_for_a_value_is_told(rt: HostRuntime) {
    let texts: [(&[u8], u32, &[Block]); 6] = [
        (PASSES, 1, &OF_PASSES),
        (LATER_PASSES, 2, &OF_PASSES),
        (TWO_RINGS, 1, &OF_TWO_RINGS),
        (LATER_TWO_RINGS, 2, &OF_TWO_RINGS),
        (TWO_CLIENTS, 2, &OF_TWO_CLIENTS),
        (GROUP, 2, &OF_GROUP),
    ];
    for (text, version, blocks) in texts {
        let saved = match read_saved(rt.alloc(), text) {
            Ok(saved) => saved,
            Err(refusal) => {
                assert!(rt; refusal == ReadError::OutOfMemory);
                let Ok(saved) = read_saved(rt.alloc(), text) else {
                    panic!(rt; "memory the second time");
                };
                saved
            }
        };
        holds(&rt, &saved, version, blocks);
    }
}

// Passes too where each request for more than 4 KiB is refused, as `trials/refused_memory.sh` has it.
#[test]
fn room_is_asked_for_as_values_are_read(rt: HostRuntime) {
    let cases: [(&[u8], ReadError); 3] = [
        (
            b"ringfarm 1\nring 0 4294967295 3\nstart 0 2 0",
            ReadError::Truncated,
        ),
        (
            b"ringfarm 1\nring 0 4294967295 3\nstart 0 2 0 ",
            ReadError::Truncated,
        ),
        (
            b"ringfarm 1\nring 0 4294967295 3\nstart 0 2 0\n",
            ReadError::Syntax(3),
        ),
    ];
    for (bytes, want) in cases {
        assert!(rt; read_saved(rt.alloc(), bytes).err() == Some(want));
    }
}
