//! The running digest of all that is answered.

ghost use Rattle.std.specs.Prelude.{◌≡◌, ◌≤◌, ◌++◌, [], length, take, OnOk, IfOk};
ghost use Rattle.line_service.specs.Answering.{joined_lines};
ghost use Rattle.segment_files.specs.Remarks.{remark_of};
ghost use Rattle.line_replica.specs.State.{lines_at, remarks_of};
ghost use Rattle.line_replica.specs.Running.{with_said, next_of, at_place, grown, place_line};

use itoa::Buffer;
use segment_files::{DIGEST_DIGITS, digest, put_remark};
use std::alloc::{AllocError, Global};
use std::marker::Model;

/// The last place, and what the next digest is of. Contracts see both.
#[derive(Drop)]
pub(crate) struct Running {
    alloc: Global,
    place: u64,
    since: Vec<u8>,
}

impl Model for Running {
    ghost use Rattle.line_replica.specs.Running.{RunningView};

    ghost Value = { RunningView };

    ghost view = { λ r. record { place = r.place; since = r.since.items } };
}

/// Adds to a text that is not empty.
fn grow(since: &mut Vec<u8>, text: &[u8]) -> Result<(), AllocError>
    ensures ok { OnOk result (since.new.items ≡ grown since.old.items text.now) }
{
    if since.is_empty() {
        return Ok(());
    }
    since.extend_from_slice(text)
}

/// The digest at the next place.
fn next_of(since: &[u8]) -> [u8; DIGEST_DIGITS]
    ensures { result ≡ next_of since.now }
{
    if since.is_empty() {
        return [b'0'; DIGEST_DIGITS];
    }
    digest(since)
}

/// Adds the line of a place and its digest.
pub(crate) fn put_place(text: &mut Vec<u8>, place: u64, digest: &[u8]) -> Result<(), AllocError>
    ensures ok { OnOk result (text.new.items
        ≡ text.old.items ++ place_line place digest.now) }
{
    let mut buffer = Buffer::new();
    text.extend_from_slice(b"at ")?;
    text.extend_from_slice(buffer.format(place).as_bytes())?;
    text.extend_from_slice(b" ")?;
    text.extend_from_slice(digest)?;
    text.extend_from_slice(b"\n")?;
    Ok(())
}

/// Adds the remark of the line of a place and its digest.
fn note_place(
    alloc: Global,
    place: u64,
    digest: &[u8],
    notes: &mut Vec<u8>,
) -> Result<(), AllocError>
    ensures { OnOk result (notes.new.items
        ≡ notes.old.items ++ remark_of (place_line place digest.now)) }
{
    let mut line = Vec::new(alloc);
    match put_place(&mut line, place, digest) {
        Ok(()) => put_remark(&line, notes),
        Err(AllocError) => Err(AllocError),
    }
}

/// The first `count` bytes, or all if there are fewer.
fn first(bytes: &[u8], count: usize) -> &[u8]
    ensures { result.now ≡ take count bytes.now }
{
    if count < bytes.len() {
        return &bytes[..count];
    }
    bytes
}

/// Adds the line of a place, if there was one.
fn put_last(place: u64, since: &[u8], text: &mut Vec<u8>) -> Result<u64, AllocError>
    ensures lines { OnOk result (text.new.items
        ≡ text.old.items ++ joined_lines (lines_at place since.now)) }
    ensures count { IfOk result (λ n. n ≡ length (lines_at place since.now)) }
    ensures few { IfOk result (λ n. n ≤ 1) }
{
    match since {
        [] => Ok(0),
        [_, ..] => match put_place(text, place, first(since, DIGEST_DIGITS)) {
            Ok(()) => Ok(1),
            Err(AllocError) => Err(AllocError),
        },
    }
}

/// Adds the remark of the line of a place, if there was one.
fn note_last(alloc: Global, place: u64, since: &[u8], text: &mut Vec<u8>) -> Result<(), AllocError>
    ensures { OnOk result (text.new.items
        ≡ text.old.items ++ remarks_of (lines_at place since.now)) }
{
    match since {
        [] => Ok(()),
        [_, ..] => note_place(alloc, place, first(since, DIGEST_DIGITS), text),
    }
}

impl Running {
    /// Before the first place.
    pub(crate) fn new(alloc: Global) -> Running
        ensures { result ≡ at_place 0 [] }
    {
        Running {
            alloc,
            place: 0,
            since: Vec::new(alloc),
        }
    }

    /// Takes in what is answered.
    pub(crate) fn take_in(&mut self, text: &[u8]) -> Result<(), AllocError>
        ensures ok { OnOk result (self.new ≡ with_said self.old text.now) }
    {
        grow(&mut self.since, text)
    }

    /// The digest at the next place.
    pub(crate) fn next(&self) -> [u8; DIGEST_DIGITS]
        ensures { result ≡ next_of self.now.since }
    {
        next_of(&self.since)
    }

    /// Adds the line of the last place, if there is one, and says how many lines that is.
    pub(crate) fn put(&self, text: &mut Vec<u8>) -> Result<u64, AllocError>
        ensures lines { OnOk result (text.new.items
            ≡ text.old.items ++ joined_lines (lines_at self.now.place self.now.since)) }
        ensures count { IfOk result (λ n. n ≡ length (lines_at self.now.place self.now.since)) }
        ensures few { IfOk result (λ n. n ≤ 1) }
    {
        put_last(self.place, &self.since, text)
    }

    /// Adds the remark of the line of the last place, if there is one.
    pub(crate) fn note(&self, text: &mut Vec<u8>) -> Result<(), AllocError>
        ensures { OnOk result (text.new.items
            ≡ text.old.items ++ remarks_of (lines_at self.now.place self.now.since)) }
    {
        note_last(self.alloc, self.place, &self.since, text)
    }

    /// The digest at this place is this one, which is noted.
    pub(crate) fn set(
        &mut self,
        place: u64,
        digest: &[u8],
        notes: &mut Vec<u8>,
    ) -> Result<(), AllocError>
        ensures ok { OnOk result ((self.new ≡ at_place place digest.now)
            × (notes.new.items ≡ notes.old.items ++ remark_of (place_line place digest.now))) }
    {
        match note_place(self.alloc, place, digest, notes) {
            Ok(()) => self.stand_at(place, digest),
            Err(AllocError) => Err(AllocError),
        }
    }

    fn stand_at(&mut self, place: u64, digest: &[u8]) -> Result<(), AllocError>
        ensures ok { OnOk result (self.new ≡ at_place place digest.now) }
    {
        let mut since = Vec::new(self.alloc);
        since.extend_from_slice(digest)?;
        self.place = place;
        self.since = since;
        Ok(())
    }

    /// The same.
    pub(crate) fn same(&self) -> Result<Running, AllocError>
        ensures { IfOk result (λ r. r ≡ self.now) }
    {
        let since = self.since.clone()?;
        Ok(Running {
            alloc: self.alloc,
            place: self.place,
            since,
        })
    }
}
