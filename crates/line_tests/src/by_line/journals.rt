//! The part of the answered lines that a journal has if it, the output or the input fails.

use super::files::Stuck;
use super::streams::{Drops, Late, Narrow};
use super::{NOTHING, served};
use line_service::LoopFault;
use ring_service::{Journal, serve};
use std::alloc::Global;
use std::process::Abort;

/// A grant, a glance that is not recorded, and a wait.
const SHORT: &[u8] = b"pass 0 0 0 5\nglance 0\npass 0 0 0 1\n";

/// Their answers: the first two, and all.
const SHORT_ANSWERS: &[u8] = b"granted 1 5\nsurvey 1 2 1 1 3\nwaits\n";

const TWO_ANSWERS: &[u8] = b"granted 1 5\nsurvey 1 2 1 1 3\n";

/// The part of them that the journal gets: 16 bytes of the grant, and 12 of the wait.
const SHORT_NOTES: &[u8] = b"0 p 0 0 5 g 1 5\n0 p 0 0 1 n\n";

const FIRST_NOTE: usize = 16;

/// A journal with this writer.
fn kept<J>(writer: J) -> Option<Journal<'static, J>> {
    Some(Journal { name: "j", writer })
}

/// The journal's writer.
fn writer_of<J>(rt: &impl Abort, journal: Option<Journal<'static, J>>) -> J {
    let Some(Journal { writer, .. }) = journal else {
        panic!(rt; "a journal that is kept stays");
    };
    writer
}

/// A writer or a journal with room for n bytes.
fn narrow(alloc: Global, room: usize) -> Narrow {
    Narrow {
        held: Vec::new(alloc),
        room,
    }
}

/// A writer that has to be flushed.
fn late(alloc: Global) -> Late {
    Late {
        held: Vec::new(alloc),
        waits: Vec::new(alloc),
    }
}

#[test]
fn no_answer_leaves_before_its_call_is_in_the_journal(rt: HostRuntime) {
    let alloc = rt.alloc();
    for room in 0..SHORT_NOTES.len() {
        let mut served = served(&rt, alloc);
        let mut disk = Stuck { alloc };
        let mut input = Drops {
            left: SHORT,
            fails: false,
        };
        let mut journal = kept(narrow(alloc, room));
        let mut out = Vec::new(alloc);
        let ended = serve(
            alloc,
            &mut served,
            &mut disk,
            &mut journal,
            NOTHING,
            &mut input,
            &mut out,
        );
        assert!(rt; ended == Err(LoopFault::Journal));
        let journal = writer_of(&rt, journal);
        assert!(rt; journal.held.as_slice() == &SHORT_NOTES[..room]);
        let told: &[u8] = if room < FIRST_NOTE { b"" } else { TWO_ANSWERS };
        assert!(rt; out.as_slice() == told);
    }
}

#[test]
fn an_output_that_fails_leaves_the_journal_whole(rt: HostRuntime) {
    let alloc = rt.alloc();
    for room in 0..SHORT_ANSWERS.len() {
        let mut served = served(&rt, alloc);
        let mut disk = Stuck { alloc };
        let mut input = SHORT;
        let mut journal = kept(Vec::new(alloc));
        let mut out = narrow(alloc, room);
        let ended = serve(
            alloc,
            &mut served,
            &mut disk,
            &mut journal,
            NOTHING,
            &mut input,
            &mut out,
        );
        assert!(rt; ended == Err(LoopFault::Write));
        let journal = writer_of(&rt, journal);
        assert!(rt; out.held.as_slice() == &SHORT_ANSWERS[..room]);
        assert!(rt; journal.as_slice() == SHORT_NOTES);
    }
}

#[test]
fn what_was_answered_leaves_before_more_is_read(rt: HostRuntime) {
    let alloc = rt.alloc();
    let mut served = served(&rt, alloc);
    let mut disk = Stuck { alloc };
    let mut input = Drops {
        left: SHORT,
        fails: true,
    };
    let mut journal = kept(Vec::new(alloc));
    let mut out = late(alloc);
    let ended = serve(
        alloc,
        &mut served,
        &mut disk,
        &mut journal,
        NOTHING,
        &mut input,
        &mut out,
    );
    assert!(rt; ended == Err(LoopFault::Read));
    let journal = writer_of(&rt, journal);
    assert!(rt; journal.as_slice() == SHORT_NOTES);
    assert!(rt; out.held.as_slice() == SHORT_ANSWERS);
}
