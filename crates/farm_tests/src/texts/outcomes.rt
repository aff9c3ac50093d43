//! The outcome of a farm, or books and logs made by hand, as texts and reports; and values written again.

use super::scenes::{Act, Scene, book_of, outcome_of};
use super::worked::{
    CORRUPTED_REPORT, CORRUPTIONS, GROUP, GROUP_REPORT, LATER_PASSES, LATER_TWO_RINGS,
    NO_RINGS_REPORT, PASSES, TEXTS, TWO_CLIENTS, TWO_RINGS, WIDE_REPORT,
};
use super::{What, is_put, is_whole, is_written};
use crate::scripted::{memory_ends, memory_is_back};
use ring_farm::{Outcome, RingOutcome};
use std::test::Fail;

/// Two rings of two clients: in the first client 1 comes first, and in the second client 0 looks twice.
const CLIENTS: [Scene<'static>; 2] = [
    Scene {
        k: 2,
        start: &[0, 0],
        seats: (0, 1),
        acts: &[
            (1, Act::Pass(0, 7)),
            (1, Act::Survey),
            (0, Act::Pass(0, 1)),
            (0, Act::Survey),
        ],
    },
    Scene {
        k: 3,
        start: &[0, 0, 0],
        seats: (0, 1),
        acts: &[
            (0, Act::Corrupt(1, 2)),
            (0, Act::Survey),
            (1, Act::Corrupt(1, 2)),
            (1, Act::Survey),
            (0, Act::Survey),
        ],
    },
];

/// A value that is written over itself.
const OVERWRITTEN: Scene<'static> = Scene {
    k: 3,
    start: &[0, 0, 0],
    seats: (0, 1),
    acts: &[
        (0, Act::Corrupt(1, 2)),
        (0, Act::Corrupt(1, 2)),
        (0, Act::Survey),
    ],
};

/// Two seats that are not numbered by their places.
const OWN_SEATS: Scene<'static> = Scene {
    k: 256,
    start: &[0, 255],
    seats: (5, 2),
    acts: &[(5, Act::Survey), (2, Act::Survey)],
};

const OWN_SEATS_TEXT: &[u8] =
    b"ringfarm 2\nring 0 2 256\nstart 0 255\nend 0\ns 5 0 1 1 0 0\ns 2 0 1 1 0 0\ndone 1\n";

/// Three machines of four pass at once, and the first seat looks.
const MEMBERS: Scene<'static> = Scene {
    k: 4,
    start: &[0, 2, 1, 0],
    seats: (0, 1),
    acts: &[(0, Act::Group), (0, Act::Survey)],
};

/// From 0, 0, 0: machines 0, 1 and 2 pass, a corruption breaks the ring at machine 1, machine 2 passes
/// and settles it, and machines 1 and 2 pass in a settled ring.
const SETTLED_AGAIN: Scene<'static> = Scene {
    k: 3,
    start: &[0, 0, 0],
    seats: (0, 1),
    acts: &[
        (0, Act::Pass(0, 10)), // 1, 0, 0
        (1, Act::Pass(1, 0)), // 1, 1, 0
        (0, Act::Survey),
        (0, Act::Pass(0, 3)), // not privileged
        (1, Act::Pass(2, 1)), // 1, 1, 1
        (1, Act::Corrupt(1, 2)), // 1, 2, 1: all privileged
        (1, Act::Survey),
        (0, Act::Pass(2, 7)), // 1, 2, 2: only machine 1 is privileged
        (1, Act::Pass(1, 0)), // 1, 1, 2
        (0, Act::Pass(1, 0)), // not privileged
        (1, Act::Pass(2, 0)), // 1, 1, 1
        (1, Act::Survey),
    ],
};

/// From 0, 2, 1, 0: a corruption of machine 3 to the value that is there, and a pass of machine 0.
/// Then machines 1, 2 and 3 are privileged, the weight is 3 + 2 + 1, and the lead 2, since 2 is held
/// and 3 is not.
const STILL_UNSETTLED: Scene<'static> = Scene {
    k: 5,
    start: &[0, 2, 1, 0],
    seats: (0, 1),
    acts: &[
        (1, Act::Corrupt(3, 0)),
        (0, Act::Pass(0, 8)),
        (0, Act::Survey),
    ],
};

/// A ring of two machines without events.
const WIDE: Scene<'static> = Scene {
    k: 256,
    start: &[255, 10],
    seats: (0, 1),
    acts: &[],
};

#[test]
fn outcomes_are_written(rt: HostRuntime) -> Result<(), Fail> {
    let alloc = rt.alloc();
    let written: [(&[Scene], &[u8]); 4] = [
        (&[OVERWRITTEN], CORRUPTIONS),
        (&CLIENTS, TWO_CLIENTS),
        (&[OWN_SEATS], OWN_SEATS_TEXT),
        (&[MEMBERS], GROUP),
    ];
    for (scenes, text) in written {
        let outcome = outcome_of(&rt, alloc, scenes)?;
        is_written(&rt, alloc, What::Outcome(&outcome), text);
        // The written text reads back.
        is_whole(&rt, alloc, What::Value(text), text);
    }
    Ok(())
}

#[test]
fn outcomes_are_reported(rt: HostRuntime) -> Result<(), Fail> {
    let alloc = rt.alloc();
    let total = b"total rings 2 events 11 granted 7 surveys 4\n";
    let reported: [(&[Scene], &[u8], &[u8]); 4] = [
        (&[SETTLED_AGAIN, STILL_UNSETTLED], CORRUPTED_REPORT, total),
        (
            &[MEMBERS],
            GROUP_REPORT,
            b"total rings 1 events 3 granted 3 surveys 1\n",
        ),
        (
            &[WIDE],
            WIDE_REPORT,
            b"total rings 1 events 0 granted 0 surveys 0\n",
        ),
        (&[], NO_RINGS_REPORT, NO_RINGS_REPORT),
    ];
    for (scenes, report, total) in reported {
        let outcome = outcome_of(&rt, alloc, scenes)?;
        is_written(&rt, alloc, What::Report(&outcome), report);
        is_written(&rt, alloc, What::Total(&outcome), total);
    }
    Ok(())
}

#[test]
fn sixteen_rings_have_their_places(rt: HostRuntime) -> Result<(), Fail> {
    let alloc = rt.alloc();
    let mut rings = Vec::new(alloc);
    let mut text = Vec::from_slice(alloc, b"ringfarm 2\n")?;
    for place in 0..16 {
        let book = book_of(&rt, alloc, 2, &[1, 0])?;
        let logs = Vec::new(alloc);
        rings.push(RingOutcome { book, logs })?;
        let block = format!(in alloc; "ring {place} 2 2\nstart 1 0\nend 0\n")?;
        text.extend_from_slice(block.as_bytes())?;
    }
    text.extend_from_slice(b"done 16\n")?;
    let outcome = Outcome { rings };
    is_whole(&rt, alloc, What::Outcome(&outcome), &text);
    Ok(())
}

// The second version of a text is the same in other words; one in the second version stays.
#[test]
fn values_and_upgrades_are_written(rt: HostRuntime) {
    for text in TEXTS {
        is_written(&rt, rt.alloc(), What::Value(text), text);
    }
    for (text, later) in [
        (PASSES, LATER_PASSES),
        (TWO_RINGS, LATER_TWO_RINGS),
        (LATER_PASSES, LATER_PASSES),
        (GROUP, GROUP),
    ] {
        is_whole(&rt, rt.alloc(), What::Upgraded(text), later);
    }
}

// Passes too where each request for memory between the marks is refused, as `trials/refused_memory.sh` has it.
#[test]
fn writing_and_reporting_take_no_memory(rt: HostRuntime) -> Result<(), Fail> {
    let alloc = rt.alloc();
    let outcome = outcome_of(&rt, alloc, &CLIENTS)?;
    let corrupted = outcome_of(&rt, alloc, &[SETTLED_AGAIN, STILL_UNSETTLED])?;
    let mut text: Vec<u8> = Vec::with_capacity(alloc, TWO_CLIENTS.len())?;
    let mut report: Vec<u8> = Vec::with_capacity(alloc, CORRUPTED_REPORT.len())?;
    memory_ends(alloc);
    let is_text_put = is_put(&rt, alloc, What::Outcome(&outcome), &mut text);
    let is_report_put = is_put(&rt, alloc, What::Report(&corrupted), &mut report);
    memory_is_back(alloc);
    assert!(rt; is_text_put && text.as_slice() == TWO_CLIENTS);
    assert!(rt; is_report_put && report.as_slice() == CORRUPTED_REPORT);
    Ok(())
}
