//! Lines about names, with the bytes of their answers and notes: a fixed lock, and a pool that has two rings.

ghost use Rattle.held_locks.specs.Kept.{IsKeptRing};

use crate::dialogues::texts;
use endless_ring::EndlessRing;
use held_locks::Locks;
use line_service::{AnswersLines, EndFault, Pending, Segmented};
use lock_names::Names;
use lock_service::Terms;
use name_service::{NameService, NameTerms};
use one_thread_ring::OneThreadRing;
use ring_book::Till;
use ring_model::Base;
use ring_state::Params;
use std::alloc::Global;
use std::process::Abort;
use test_files::no_files;

/// A settled ring of ten seats.
fn opened(rt: &impl Abort, alloc: Global) -> EndlessRing
    ensures { IsKeptRing result }
{
    match OneThreadRing::open(alloc, 3, 3, &[0, 0, 0], 10, Till::new()) {
        Ok(ring) => EndlessRing::after(Base::none(), ring),
        Err(_) => panic!(rt; "the ring is opened"),
    }
}

/// The locks of these names and a pool of the other rings, which may have `most`.
fn service_of(
    rt: &impl Abort,
    alloc: Global,
    fixed: &[&str],
    rings: u32,
    most: u32,
    strict: bool,
) -> NameService {
    let mut locks = Locks::none(alloc);
    for _ in 0..rings {
        assert!(rt; locks.add(alloc, opened(rt, alloc)).is_ok());
    }
    let Ok(names) = Names::begin(alloc, locks, &texts(rt, alloc, fixed)) else {
        panic!(rt; "the names begin");
    };
    let Ok(size) = Params::new(3, 3) else {
        panic!(rt; "there is such a size");
    };
    let lines = Terms {
        faults: false,
        noting: true,
        limit: Some(100),
        strict,
    };
    match NameService::new(alloc, names, NameTerms { lines, most, size }, false) {
        Ok(service) => service,
        Err(_) => panic!(rt; "there is memory"),
    }
}

/// The lock `a` and a pool of two rings, which may have `most`.
fn some_names(rt: &impl Abort, alloc: Global, most: u32, strict: bool) -> NameService {
    service_of(rt, alloc, &["a"], 3, most, strict)
}

/// The lines are answered so, with these notes.
fn answers(rt: &impl Abort, alloc: Global, service: &mut NameService, rows: &[(&str, &str, &str)]) {
    let mut disk = no_files(alloc);
    for (line, said, noted) in rows {
        let mut pending = Pending {
            answers: Vec::new(alloc),
            notes: Vec::new(alloc),
        };
        assert!(rt; !service.is_over());
        assert!(rt;
            service
                .answer(&mut disk, line.as_bytes(), &mut pending)
                .is_ok()
        );
        assert!(rt; pending.answers.as_slice() == said.as_bytes());
        assert!(rt; pending.notes.as_slice() == noted.as_bytes());
    }
}

// The pool may get a ring: a segment in which none is free is due. As long as it is kept on, a new name is refused for lack of room.
#[test]
fn a_ring_is_wanted(rt: HostRuntime) {
    let alloc = rt.alloc();
    let mut service = some_names(&rt, alloc, 3, false);
    let rows = [
        (
            "2 try x 6\n",
            "2 granted x 1\n",
            "# name 1 0 0 x\n1 p 0 0 6 g 1 6\n",
        ),
        (
            "4 try y 8\n",
            "4 granted y 2\n",
            "# name 2 0 1 y\n2 p 0 0 8 g 1 8\n",
        ),
    ];
    answers(&rt, alloc, &mut service, &rows);
    assert!(&rt; service.is_over());
    service.keep_on(EndFault::File);
    let rows = [
        ("5 try z 9\n", "5 refused full z\n", ""),
        (
            "4 release y 2\n",
            "4 released y\n",
            "2 s 1 1 1 1 1 0\n# free 2\n",
        ),
        (
            "5 try z 9\n",
            "5 granted z 3\n",
            "# name 2 1 2 z\n2 p 0 1 9 g 2 17\n",
        ),
    ];
    answers(&rt, alloc, &mut service, &rows);
}

// Of a list without a pool a name that no lock has is refused, whatever is asked of it; its locks answer and note as those of a list.
#[test]
fn a_list_without_a_pool_has_its_locks_alone(rt: HostRuntime) {
    let alloc = rt.alloc();
    let mut service = service_of(&rt, alloc, &["a", "b"], 2, 0, false);
    let rows = [
        ("1 acquire z 5\n", "1 refused lock z\n", ""),
        ("1 try z 5\n", "1 refused lock z\n", ""),
        ("1 release z 1\n", "1 refused lock z\n", ""),
        ("1 cancel z\n", "1 refused lock z\n", ""),
        ("1 stats z\n", "1 refused lock z\n", ""),
        ("1 corrupt z 0 1\n", "1 refused off\n", ""),
        ("1 acquire a 6\n", "1 granted a 1\n", "0 p 0 0 6 g 1 6\n"),
        ("2 acquire a 7\n", "2 waiting a 0\n", ""),
        ("2 release a 1\n", "2 refused holder a\n", ""),
        (
            "1 release a 1\n",
            "1 released a\n2 granted a 2\n",
            "0 s 1 1 1 1 1 0\n0 p 0 1 7 g 2 13\n",
        ),
        ("2 leave\n", "", "0 s 2 2 1 2 2 0\n"),
        ("1 try b 9\n", "1 granted b 1\n", "1 p 0 0 9 g 1 9\n"),
    ];
    answers(&rt, alloc, &mut service, &rows);
    assert!(&rt; !service.is_over());
}

// On strict terms nobody is refused for lack of rings, and no line is answered in a segment that is kept on.
#[test]
fn nobody_lacks_a_ring_on_strict_terms(rt: HostRuntime) {
    let alloc = rt.alloc();
    let mut service = some_names(&rt, alloc, 3, true);
    let rows = [
        (
            "2 try x 6\n",
            "2 granted x 1\n",
            "# name 1 0 0 x\n1 p 0 0 6 g 1 6\n",
        ),
        (
            "4 try y 8\n",
            "4 granted y 2\n",
            "# name 2 0 1 y\n2 p 0 0 8 g 1 8\n",
        ),
    ];
    answers(&rt, alloc, &mut service, &rows);
    assert!(&rt; service.is_over());
    service.keep_on(EndFault::File);
    let mut disk = no_files(alloc);
    let mut pending = Pending {
        answers: Vec::new(alloc),
        notes: Vec::new(alloc),
    };
    assert!(&rt; !service.is_over());
    assert!(&rt;
        service
            .answer(&mut disk, b"4 release y 2\n", &mut pending)
            .is_err()
    );
    assert!(&rt; pending.answers.is_empty());
    assert!(&rt; service.names().free().is_none());
}
