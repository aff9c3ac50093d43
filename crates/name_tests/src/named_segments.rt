//! Locks by any name that live in segments: a fixed lock, and a pool of one ring that may have three.

ghost use Rattle.held_locks.specs.Kept.{IsKeptRing};

use endless_ring::EndlessRing;
use folder_of_locks::fresh_ring;
use held_locks::{Locks, OneAsk};
use line_replica::HasState;
use line_service::{AnswersLines, EndFault, Ending, Segmented, Unread, serve_part};
use lock_names::{Names, TOP_LIMIT};
use lock_service::Terms;
use name_service::{NameService, NameTerms};
use one_thread_ring::OneThreadRing;
use ring_book::Till;
use ring_model::Base;
use ring_state::Params;
use segment_files::digest;
use std::alloc::Global;
use std::process::Abort;
use test_files::no_files;

/// The pool's size: rings of two machines.
fn pool_size(rt: &impl Abort) -> Params {
    match Params::new(2, 2) {
        Ok(size) => size,
        Err(_) => panic!(rt; "it is allowed"),
    }
}

/// A settled ring of three machines, for the fixed lock.
fn fixed_ring(rt: &impl Abort, alloc: Global) -> EndlessRing
    ensures { IsKeptRing result }
{
    match OneThreadRing::open(alloc, 3, 3, &[0, 0, 0], 10, Till::new()) {
        Ok(ring) => EndlessRing::after(Base::none(), ring),
        Err(_) => panic!(rt; "the ring is opened"),
    }
}

/// A fresh ring of the pool.
fn pool_ring(rt: &impl Abort, alloc: Global) -> EndlessRing
    ensures { IsKeptRing result }
{
    match fresh_ring(alloc, pool_size(rt)) {
        Ok(ring) => ring,
        Err(_) => panic!(rt; "there is memory"),
    }
}

/// The rings of both.
fn two_rings(rt: &impl Abort, alloc: Global) -> Locks {
    let mut locks = Locks::none(alloc);
    assert!(rt; locks.add(alloc, fixed_ring(rt, alloc)).is_ok());
    assert!(rt; locks.add(alloc, pool_ring(rt, alloc)).is_ok());
    locks
}

/// The fixed lock's name.
fn fixed_name(rt: &impl Abort, alloc: Global) -> Vec<String> {
    let mut names = Vec::new(alloc);
    let Ok(deploy) = String::from_str(alloc, "deploy") else {
        panic!(rt; "there is memory");
    };
    assert!(rt; names.push(deploy).is_ok());
    names
}

/// Names that answer lines, in segments of 100 notes.
fn service_of(rt: &impl Abort, alloc: Global, names: Names, due: bool) -> NameService {
    let lines = Terms {
        faults: false,
        noting: true,
        limit: Some(100),
        strict: false,
    };
    let terms = NameTerms {
        lines,
        most: 3,
        size: pool_size(rt),
    };
    match NameService::new(alloc, names, terms, due) {
        Ok(service) => service,
        Err(_) => panic!(rt; "there is memory"),
    }
}

fn begun(rt: &impl Abort, alloc: Global, due: bool) -> NameService {
    match Names::begin(alloc, two_rings(rt, alloc), &fixed_name(rt, alloc)) {
        Ok(names) => service_of(rt, alloc, names, due),
        Err(_) => panic!(rt; "they are right"),
    }
}

/// Serves these lines up to this end. They are answered so, with these notes.
fn serves(
    rt: &impl Abort,
    alloc: Global,
    service: &mut NameService,
    lines: &[u8],
    end: Ending,
    said: &[u8],
    noted: &[u8],
) {
    let mut disk = no_files(alloc);
    let mut journal = Some(Vec::new(alloc));
    let mut line = Vec::new(alloc);
    let mut input: &[u8] = lines;
    let mut out = Vec::new(alloc);
    assert!(rt; !service.is_over());
    let ended = serve_part(
        alloc,
        service,
        &mut disk,
        &mut journal,
        false,
        &mut line,
        &mut Unread::none(),
        &mut input,
        &mut out,
    );
    assert!(rt; ended == Ok(end));
    assert!(rt; out.as_slice() == said);
    let Some(notes) = journal else {
        panic!(rt; "there is a journal");
    };
    assert!(rt; notes.as_slice() == noted);
}

/// The text with which a segment of this number begins, after a file of no bytes.
fn text_of(rt: &impl Abort, alloc: Global, service: &NameService, number: u64) -> Vec<u8> {
    assert!(rt; number > 0);
    match service.text(alloc, number, digest(b"")) {
        Ok(text) => text,
        Err(_) => panic!(rt; "there is memory"),
    }
}

/// The lines that bring the service back, and how many they are.
fn has_state(rt: &impl Abort, alloc: Global, service: &NameService, lines: &[u8], count: u64) {
    let mut text = Vec::new(alloc);
    assert!(rt; service.put_state(&mut text) == Ok(count));
    assert!(rt; text.as_slice() == lines);
}

/// Of the service as it starts.
const FIRST: &str =
    "ringsegment 1 1 2\nbehind e3b0c44298fc1c149afbf4c8996fb92427ae41e4649b934ca495991b7852b855\nbase 0 0 0 0\nbase 0 0 0 0\nringjournal 1\nringfarm 2\nring 0 3 3\nstart 0 0 0\nend 0\nring 1 2 2\nstart 0 0\nend 0\ndone 2\n# floor 0\n";

/// Of the next segment, where both names are held.
const SECOND: &str =
    "ringsegment 1 2 4\nbehind e3b0c44298fc1c149afbf4c8996fb92427ae41e4649b934ca495991b7852b855\nbase 1 1 4 1\nbase 1 1 5 1\nbase 0 0 0 0\nbase 0 0 0 0\nringjournal 1\nringfarm 2\nring 0 3 3\nstart 1 0 0\np 3 0 1 n\nend 1\nring 1 2 2\nstart 1 0\np 3 0 1 n\nend 1\nring 2 2 2\nstart 0 0\nend 0\nring 3 2 2\nstart 0 0\nend 0\ndone 4\n# floor 2\n# name 1 0 1 order/1\n";

// A name takes the only ring of the pool, so the segment is due. While it is kept on, a new name finds no room. The next segment has
// two rings more, the names as they were, and room for new ones.
#[test]
fn the_pool_grows(rt: HostRuntime) {
    let alloc = rt.alloc();
    let mut service = begun(&rt, alloc, false);
    assert!(&rt; !service.is_due());
    assert!(&rt; text_of(&rt, alloc, &service, 1).as_slice() == FIRST.as_bytes());
    let lines = b"5 acquire deploy 4\n7 acquire order/1 5\n9 stats deploy\n";
    let said = b"5 granted deploy 1\n7 granted order/1 2\n";
    let noted = b"0 p 0 0 4 g 1 4\n# name 1 0 1 order/1\n1 p 0 0 5 g 1 5\n";
    serves(&rt, alloc, &mut service, lines, Ending::Over, said, noted);
    assert!(&rt; service.is_due());
    service.keep_on(EndFault::File);
    let lines = b"9 acquire order/1 6\n8 acquire order/2 1\n";
    let said = b"9 waiting order/1 0\n8 refused full order/2\n";
    serves(&rt, alloc, &mut service, lines, Ending::End, said, b"");
    let Ok(mut next) = service.next(alloc) else {
        panic!(&rt; "there is a next segment");
    };
    assert!(&rt; !next.is_due() && next.names().count() == 4);
    assert!(&rt; text_of(&rt, alloc, &next, 2).as_slice() == SECOND.as_bytes());
    let state = b"hold deploy 1 5\nhold order/1 2 7\n9 acquire order/1 6\n";
    has_state(&rt, alloc, &next, state, 3);
    let lines = b"8 acquire order/2 1\n7 release order/1 2\n9 release order/1 3\n";
    let said =
        b"8 granted order/2 3\n7 released order/1\n9 granted order/1 3\n9 released order/1\n";
    let noted =
        b"# name 2 0 2 order/2\n2 p 0 0 1 g 1 1\n1 s 1 1 1 1 0 0\n1 p 0 1 6 g 1 6\n1 s 1 2 1 0 1 0\n# free 1\n";
    serves(&rt, alloc, &mut next, lines, Ending::End, said, noted);
    has_state(&rt, alloc, &next, b"hold deploy 1 5\nhold order/2 3 8\n", 2);
}

// After as many grants as are counted no ring can be added.
#[test]
fn the_pool_cannot_grow(rt: HostRuntime) {
    let alloc = rt.alloc();
    let fixed = fixed_name(&rt, alloc);
    let locks = two_rings(&rt, alloc);
    let mut free = Vec::new(alloc);
    assert!(&rt; free.push(None).is_ok());
    let Ok(mut names) = Names::restore(alloc, locks, &fixed, &free, TOP_LIMIT - 1) else {
        panic!(&rt; "they are right");
    };
    names.ask(alloc, 7, "order/1", OneAsk::Acquire { label: 5 });
    let service = service_of(&rt, alloc, names, false);
    assert!(&rt; service.is_due());
    assert!(&rt; service.next(alloc).err() == Some(EndFault::Full));
}
