//! Locks whose segment is kept on, on strict terms too, and the text of a segment: what no row of `tests/rows` shows.

ghost use Rattle.held_locks.specs.Kept.{IsKeptRing};

use endless_ring::EndlessRing;
use held_locks::Locks;
use line_service::{AnswersLines, EndFault, Ending, Pending, Segmented, Unread, serve_part};
use lock_protocol::LockNames;
use lock_service::{LockService, Terms};
use one_thread_ring::OneThreadRing;
use ring_book::Till;
use ring_model::Base;
use segment_files::digest;
use std::alloc::Global;
use std::process::Abort;
use test_files::no_files;

/// A settled ring of ten seats.
fn opened(rt: &impl Abort, alloc: Global) -> EndlessRing
    ensures { IsKeptRing result }
{
    match OneThreadRing::open(alloc, 3, 3, &[0, 0, 0], 10, Till::new()) {
        Ok(ring) => EndlessRing::after(Base::none(), ring),
        Err(_) => panic!(rt; "the ring is opened"),
    }
}

/// Two locks, a and b, that answer lines, in segments of `limit` notes.
fn two_locks(rt: &impl Abort, alloc: Global, limit: u64, strict: bool) -> LockService {
    let terms = Terms {
        faults: false,
        noting: true,
        limit: Some(limit),
        strict,
    };
    let mut locks = Locks::none(alloc);
    assert!(rt; locks.add(alloc, opened(rt, alloc)).is_ok());
    assert!(rt; locks.add(alloc, opened(rt, alloc)).is_ok());
    let Ok(names) = LockNames::none(alloc).with(alloc, b"a") else {
        panic!(rt; "there is memory");
    };
    let Ok(names) = names.with(alloc, b"b") else {
        panic!(rt; "there is memory");
    };
    match LockService::new(alloc, locks, names, terms) {
        Ok(service) => service,
        Err(_) => panic!(rt; "there is memory"),
    }
}

/// Serves these lines up to this end. They are answered so, with these notes.
fn serves(
    rt: &impl Abort,
    alloc: Global,
    service: &mut LockService,
    unread: &mut Unread,
    lines: &[u8],
    end: Ending,
    said: &[u8],
    noted: &[u8],
) {
    let mut disk = no_files(alloc);
    let mut journal = Some(Vec::new(alloc));
    let mut line = Vec::new(alloc);
    let mut input: &[u8] = lines;
    let mut out = Vec::new(alloc);
    assert!(rt; !service.is_over());
    let ended = serve_part(
        alloc,
        service,
        &mut disk,
        &mut journal,
        false,
        &mut line,
        unread,
        &mut input,
        &mut out,
    );
    assert!(rt; ended == Ok(end));
    assert!(rt; out.as_slice() == said);
    let Some(notes) = journal else {
        panic!(rt; "there is a journal");
    };
    assert!(rt; notes.as_slice() == noted);
}

/// The text with which a segment of this number begins, after a file of no bytes.
fn text_of(rt: &impl Abort, alloc: Global, service: &LockService, number: u64) -> Vec<u8> {
    assert!(rt; number > 0);
    match service.text(alloc, number, digest(b"")) {
        Ok(text) => text,
        Err(_) => panic!(rt; "there is memory"),
    }
}

/// The service as it begins the next segment.
fn next_of(rt: &impl Abort, alloc: Global, service: &LockService) -> LockService {
    match service.next(alloc) {
        Ok(next) => next,
        Err(_) => panic!(rt; "there is a next segment"),
    }
}

/// Of two locks that start: the head of a segment, and what comes below it.
const FIRST: &str =
    "ringsegment 1 1 2\nbehind e3b0c44298fc1c149afbf4c8996fb92427ae41e4649b934ca495991b7852b855\nbase 0 0 0 0\nbase 0 0 0 0\n";

const BEGINNING: &str =
    "ringjournal 1\nringfarm 2\nring 0 3 3\nstart 0 0 0\nend 0\nring 1 3 3\nstart 0 0 0\nend 0\ndone 2\n";

/// Of a second segment, where a hold with token 2 of the first lock is open.
const SECOND: &str =
    "ringsegment 1 2 2\nbehind e3b0c44298fc1c149afbf4c8996fb92427ae41e4649b934ca495991b7852b855\nbase 2 2 155 2\nbase 0 0 0 0\nringjournal 1\nringfarm 2\nring 0 3 3\nstart 1 1 0\np 3 0 2 n\nend 1\nring 1 3 3\nstart 0 0 0\nend 0\ndone 2\n";

// A segment that is due and kept on answers lines, until it is ended; the ends of holds that a client leaves count too.
#[test]
fn keeps_on(rt: HostRuntime) {
    let alloc = rt.alloc();
    let mut service = two_locks(&rt, alloc, 4, false);
    let mut unread = Unread::none();
    let lines = b"1 try a 5\n1 try b 6\n1 leave\n1 try a 7\n";
    let said = b"1 granted a 1\n1 granted b 1\n";
    let noted = b"0 p 0 0 5 g 1 5\n1 p 0 0 6 g 1 6\n0 s 2 1 1 1 1 0\n1 s 2 1 1 1 1 0\n";
    serves(
        &rt,
        alloc,
        &mut service,
        &mut unread,
        lines,
        Ending::Over,
        said,
        noted,
    );
    assert!(rt; service.is_due());
    service.keep_on(EndFault::File);
    let said = b"1 granted a 2\n";
    let noted = b"0 p 0 1 7 g 2 12\n";
    serves(
        &rt,
        alloc,
        &mut service,
        &mut unread,
        b"",
        Ending::End,
        said,
        noted,
    );
    assert!(rt; service.is_due() && !service.is_over());
    let mut next = next_of(&rt, alloc, &service);
    assert!(rt; !next.is_due() && next.locks().count() == 2);
    let said = b"2 granted b 2\n";
    let noted = b"1 p 0 1 9 g 1 9\n";
    serves(
        &rt,
        alloc,
        &mut next,
        &mut unread,
        b"2 try b 9\n",
        Ending::End,
        said,
        noted,
    );
}

// On strict terms lines are answered as ever until the segment is due. If it is kept on, no line is answered: nothing is pending,
// and once it has ended the next segment begins as if the line had not been.
#[test]
fn stops_on_strict_terms(rt: HostRuntime) {
    let alloc = rt.alloc();
    let mut service = two_locks(&rt, alloc, 3, true);
    let lines = b"1 acquire a 77\n2 acquire a 78\n3 acquire a 79\n1 release a 1\n";
    let said = b"1 granted a 1\n2 waiting a 0\n3 waiting a 1\n1 released a\n2 granted a 2\n";
    let noted = b"0 p 0 0 77 g 1 77\n0 s 1 1 1 1 1 0\n0 p 0 1 78 g 2 155\n";
    serves(
        &rt,
        alloc,
        &mut service,
        &mut Unread::none(),
        lines,
        Ending::Over,
        said,
        noted,
    );
    assert!(rt; service.is_due());
    service.keep_on(EndFault::File);
    let mut disk = no_files(alloc);
    let mut pending = Pending {
        answers: Vec::new(alloc),
        notes: Vec::new(alloc),
    };
    assert!(rt; !service.is_over());
    assert!(rt;
        service
            .answer(&mut disk, b"1 try b 5\n", &mut pending)
            .is_err()
    );
    assert!(rt; pending.answers.is_empty() && pending.notes.is_empty());
    let next = next_of(&rt, alloc, &service);
    assert!(rt; text_of(&rt, alloc, &next, 2).as_slice() == SECOND.as_bytes());
}

// The text of the first segment.
#[test]
fn begins(rt: HostRuntime) {
    let alloc = rt.alloc();
    let service = two_locks(&rt, alloc, 1, false);
    assert!(rt; !service.is_due());
    let text = text_of(&rt, alloc, &service, 1);
    assert!(rt; text.len() == FIRST.len() + BEGINNING.len());
    assert!(rt; text.starts_with(FIRST.as_bytes()) && text.ends_with(BEGINNING.as_bytes()));
}
