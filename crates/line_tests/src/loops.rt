//! A service that says the same to each line, and keeps a file while it does, until it has answered enough of them.

use disks::{Disk, Grow};
use line_service::{AnswersLines, Ending, LoopFault, Pending, Unread, serve_part};
use std::alloc::{AllocError, Global};
use test_files::no_files;

#[derive(Drop)]
struct Same {
    answered: u64,
    most: u64,
}

impl AnswersLines for Same {
    ghost use Rattle.std.specs.Prelude.{◌≡◌, ◌∷◌, [], nat_le};

    ghost is_answered = { λ old was line said noted new is.
        (said ≡ 46 ∷ 10 ∷ []) × (noted ≡ 33 ∷ 10 ∷ []) };

    ghost is_over = { λ s. nat_le s.most s.answered };

    ghost by_start = { λ old new full said noted long a. a };

    fn answer<D: Disk>(
        &mut self,
        disk: &mut D,
        _line: &[u8],
        pending: &mut Pending,
    ) -> Result<(), AllocError> {
        let _made = disk.create("seen");
        self.answered = self.answered.saturating_add(1);
        pending.answers.extend_from_slice(b".\n")?;
        pending.notes.extend_from_slice(b"!\n")
    }

    fn is_over(&self) -> bool {
        self.answered >= self.most
    }
}

/// A journal that takes nothing.
#[derive(Drop)]
struct Shut;

impl Grow for Shut {
    fn add(&mut self, _bytes: &[u8]) -> Result<(), usize> {
        Err(0)
    }
}

// Two lines are answered, and the first of them made a file; what has begun of the third is kept.
#[test]
fn answers_each_line(rt: HostRuntime) {
    let alloc = rt.alloc();
    let mut service = Same {
        answered: 0,
        most: 9,
    };
    let mut journal = Some(Vec::new(alloc));
    let mut line = Vec::new(alloc);
    let mut disk = no_files(alloc);
    let mut unread = Unread::none();
    let mut input: &[u8] = b"one\n\nthr";
    let mut out = Vec::new(alloc);
    let ended = serve_part(
        alloc,
        &mut service,
        &mut disk,
        &mut journal,
        false,
        &mut line,
        &mut unread,
        &mut input,
        &mut out,
    );
    assert!(rt; ended == Ok(Ending::End));
    assert!(rt; service.answered == 2);
    assert!(rt; out.as_slice() == b".\n.\n".as_slice());
    assert!(rt; line.as_slice() == b"thr".as_slice());
    assert!(rt; disk.entries.len() == 1 && disk.entries[0].name.as_str() == "seen");
    let Some(notes) = journal else {
        panic!(rt; "there is a journal");
    };
    assert!(rt; notes.as_slice() == b"!\n!\n".as_slice());
}

/// A part of these lines for a service that answers two, in a journal that takes nothing.
fn in_shut_journal(alloc: Global, lines: &[u8], out: &mut Vec<u8>) -> Result<Ending, LoopFault> {
    let mut service = Same {
        answered: 0,
        most: 2,
    };
    let mut journal = Some(Shut);
    let mut line = Vec::new(alloc);
    let mut disk = no_files(alloc);
    let mut unread = Unread::none();
    let mut input: &[u8] = lines;
    serve_part(
        alloc,
        &mut service,
        &mut disk,
        &mut journal,
        false,
        &mut line,
        &mut unread,
        &mut input,
        out,
    )
}

// The lines after the one with which it is over are left.
#[test]
fn ends_when_it_is_over(rt: HostRuntime) {
    let alloc = rt.alloc();
    let mut service = Same {
        answered: 0,
        most: 2,
    };
    let mut journal: Option<Vec<u8>> = None;
    let mut line = Vec::new(alloc);
    let mut disk = no_files(alloc);
    let mut unread = Unread::none();
    let mut input: &[u8] = b"1\n2\n3\n4\n";
    let mut out = Vec::new(alloc);
    let ended = serve_part(
        alloc,
        &mut service,
        &mut disk,
        &mut journal,
        false,
        &mut line,
        &mut unread,
        &mut input,
        &mut out,
    );
    assert!(rt; ended == Ok(Ending::Over) && out.as_slice() == b".\n.\n".as_slice());
    let mut others = Same {
        answered: 0,
        most: 5,
    };
    let ended = serve_part(
        alloc,
        &mut others,
        &mut disk,
        &mut journal,
        true,
        &mut line,
        &mut unread,
        &mut input,
        &mut out,
    );
    assert!(rt; ended == Ok(Ending::End) && others.answered == 2);
    assert!(rt; out.as_slice() == b".\n.\n.\n.\n".as_slice());
}

// No answer leaves whose notes are not in the journal.
#[test]
fn tells_nothing_without_its_notes(rt: HostRuntime) {
    let mut out = Vec::new(rt.alloc());
    assert!(rt; in_shut_journal(rt.alloc(), b"1\n", &mut out) == Err(LoopFault::Journal));
    assert!(rt; out.is_empty());
}
