//! A ring without end whose segments are files.

ghost use Rattle.std.specs.Prelude.{◌≡◌, ◌+◌, ◌≤◌, ◌<◌, ◌++◌, ◌∷◌, [], cond, length, slice_get, vec_len, vec_capacity, IfOk, IfErr, OnErr};
ghost use Rattle.ring_model.specs.Resources.{till};
ghost use Rattle.ring_model.specs.Bases.{IsBase, shifted_event};
ghost use Rattle.ring_model.specs.Tallies.{IsInSegment};
ghost use Rattle.segment_files.specs.Spelling.{DigestFits};
ghost use Rattle.one_thread_ring.specs.Rings.{IsOneThreadRing};
ghost use Rattle.ring_check.specs.Legal.{IsLegalText};
ghost use Rattle.one_thread_ring.specs.Texts.{saved_alone};
ghost use Rattle.saved_history.specs.Spelling.{text, Fits};
ghost use Rattle.one_thread_ring.specs.Refusals.{IsDecided, bounds_of, seat_refusal};
ghost use Rattle.endless_ring.specs.Endless.{IsEndless, IsSurveyed, local_survey, survey_now};
ghost use Rattle.endless_ring.specs.declared.rings.NextError.TheVariants as error;
ghost use Rattle.endless_ring.specs.Files.{IsFiled, IsFileText, file_text, IsNextFile, HasNoNext, filed_at, kept_now, new_lines};
ghost use Rattle.endless_ring.specs.Filling.{Fills};
ghost use Rattle.endless_ring.specs.Calls.{IsPassed, IsTriedBy, IsCorrupted, IsGroupedBy, IsSurveyedBy, event_at};

use crate::places::FilePlace;
use crate::rings::{EndlessRing, NextError};
use crate::saves::put_text;
use crate::texts::{file_text, put_file, put_lines};
use one_thread_ring::{CallError, OneThreadRing};
use ring_book::{GroupReceipt, Till};
use ring_model::{Base, Event, Receipt, Survey};
use std::alloc::{AllocError, Global};
use std::marker::Model;

/// An event whose reply counts all segments.
fn shifted(base: &Base, event: Event) -> Event
    requires base { IsBase base.now }
    requires within { IsInSegment event.reply }
    ensures { result ≡ shifted_event base.now event }
{
    Event {
        seat: event.seat,
        op: event.op,
        reply: base.shift_reply(event.reply),
    }
}

/// A survey that a seat was given, as the segment counts.
#[derive(Clone, Copy)]
pub struct Looked {
    pub seat: u32,
    pub survey: Survey,
}

/// A ring over a till without end, with the file of a chain that its segment is, and with a journal of it, if one is kept.
///
/// Contracts see the ring, the place of the file, and what the journal has: how many events of the segment, and all its
/// surveys except those that are listed.
#[derive(Drop)]
pub struct FileRing {
    ring: EndlessRing,
    place: FilePlace,
    kept: bool,
    events: usize,
    looked: Vec<Looked>,
}

impl Model for FileRing {
    ghost use Rattle.endless_ring.specs.Files.{FilesView, IsFiled};

    ghost Value = { FilesView };

    ghost view = { λ d. record {
      ring = d.ring;
      place = d.place;
      notes = record { kept = d.kept; events = d.events; looked = d.looked.items };
    } };

    ghost invariant = { λ d. IsFiled (record {
      ring = d.ring;
      place = d.place;
      notes = record { kept = d.kept; events = d.events; looked = d.looked.items };
    }) };
}

/// Appends a survey to others, if a journal is kept.
fn note(looked: &mut Vec<Looked>, kept: bool, one: Looked)
    requires { vec_len looked.old < vec_capacity looked.old }
    ensures { looked.new.items ≡ cond kept (looked.old.items ++ one ∷ []) looked.old.items }
{
    if kept {
        looked.push_reserved(one);
    }
}

/// A survey of a ring, for a seat. As the segment counts, it is appended to others, if a journal is kept.
fn survey_noted(
    ring: &mut EndlessRing,
    looked: &mut Vec<Looked>,
    kept: bool,
    seat: u32,
) -> Result<Survey, CallError>
    ensures ok { IfOk result (λ s. IsSurveyed ring.old ring.new seat s) }
    ensures noted { IfOk result (λ s. looked.new.items ≡ cond kept (looked.old.items
        ++ record { seat = seat; survey = local_survey ring.old.ring } ∷ []) looked.old.items) }
    ensures endless { IsEndless ring.new }
    ensures same { OnErr result (ring.new ≡ ring.old) }
    ensures unnoted { OnErr result (looked.new.items ≡ looked.old.items) }
    ensures refused { IsDecided (seat_refusal (bounds_of ring.old.ring) seat) result }
{
    if seat as usize >= ring.segment().clients().len() {
        return Err(CallError::NoSeat);
    }
    let Ok(()) = looked.reserve(1) else {
        return Err(CallError::OutOfMemory);
    };
    let survey = ring.segment().glance();
    let shifted = match ring.survey(seat) {
        Ok(shifted) => shifted,
        Err(error) => return Err(error),
    };
    note(looked, kept, Looked { seat, survey });
    Ok(shifted)
}

impl FileRing {
    /// A ring in the file at this place, after this base. No journal of it is kept.
    pub fn at(alloc: Global, place: FilePlace, base: Base, ring: OneThreadRing<Till>) -> FileRing
        requires base { IsBase base }
        requires ring { IsOneThreadRing till 0 ring }
        ensures { result ≡ filed_at place base ring }
    {
        FileRing {
            ring: EndlessRing::after(base, ring),
            place,
            kept: false,
            events: 0,
            looked: Vec::new(alloc),
        }
    }

    /// The ring.
    pub fn ring(&self) -> &EndlessRing
        ensures is { result.now ≡ self.now.ring }
        ensures filed { IsFiled self.now }
    {
        &self.ring
    }

    /// Whether a journal is kept.
    pub fn is_kept(&self) -> bool
        ensures { result ≡ self.now.notes.kept }
    {
        self.kept
    }

    /// A pass by a machine, for a seat.
    ///
    /// # Errors
    ///
    /// Those of [`OneThreadRing::pass`]. Nothing has changed then.
    pub fn pass(&mut self, seat: u32, machine: u32, order: u64) -> Result<Receipt, CallError>
        ensures { IsPassed self.old self.new seat machine order result }
    {
        self.ring.pass(seat, machine, order)
    }

    /// A pass by a machine, for a seat, if the machine is privileged.
    ///
    /// # Errors
    ///
    /// Those of [`OneThreadRing::try_pass`]. Nothing has changed then.
    pub fn try_pass(
        &mut self,
        seat: u32,
        machine: u32,
        order: u64,
    ) -> Result<Option<Receipt>, CallError>
        ensures { IsTriedBy self.old self.new seat machine order result }
    {
        self.ring.try_pass(seat, machine, order)
    }

    /// A fault, for a seat: a value is written into a machine.
    ///
    /// # Errors
    ///
    /// Those of [`OneThreadRing::corrupt`]. Nothing has changed then.
    pub fn corrupt(&mut self, seat: u32, machine: u32, value: u32) -> Result<Receipt, CallError>
        ensures { IsCorrupted self.old self.new seat machine value result }
    {
        self.ring.corrupt(seat, machine, value)
    }

    /// A pass by a group of machines at once, for a seat.
    ///
    /// # Errors
    ///
    /// Those of [`OneThreadRing::pass_group`]. Nothing has changed then.
    pub fn pass_group(
        &mut self,
        seat: u32,
        machines: &[u32],
        order: u64,
    ) -> Result<GroupReceipt, CallError>
        ensures { IsGroupedBy self.old self.new seat machines.now order result }
    {
        self.ring.pass_group(seat, machines, order)
    }

    /// A survey, for a seat, whose log keeps it. If a journal is kept, its next lines have it.
    ///
    /// # Errors
    ///
    /// Those of [`OneThreadRing::survey`]. Nothing has changed then.
    pub fn survey(&mut self, seat: u32) -> Result<Survey, CallError>
        ensures { IsSurveyedBy self.old self.new seat result }
    {
        survey_noted(&mut self.ring, &mut self.looked, self.kept, seat)
    }

    /// The same survey, which nothing keeps.
    pub fn glance(&self) -> Survey
        ensures { result ≡ survey_now self.now.ring }
    {
        self.ring.glance()
    }

    /// How many events there were, over all segments.
    pub fn events(&self) -> u64
        ensures { result ≡ self.now.ring.base.events + length self.now.ring.ring.book.history }
    {
        self.ring.base().events + self.ring.segment().history_length()
    }

    /// The event of this number, from 0, of the segment.
    fn event_here(&self, number: u64) -> Option<Event>
        ensures { result ≡ slice_get self.now.ring.ring.book.history number }
    {
        self.ring.segment().history().get(number as usize).copied()
    }

    /// The event of this number, from 0 over all segments, if it is in this segment.
    pub fn event(&self, number: u64) -> Option<Event>
        ensures { result ≡ event_at self.now number }
    {
        let base = self.ring.base();
        if number < base.events {
            return None;
        }
        match self.event_here(number - base.events) {
            Some(event) => Some(shifted(base, event)),
            None => None,
        }
    }

    /// Writes the saved text of the segment as it is now, which counts by itself, to the front of the bytes, if they have room for
    /// it. Returns its size, counted up to 2^64 - 1. It takes no memory.
    pub fn save(&self, out: &mut [u8]) -> usize
        ensures written { Fills out.old out.new 0 result (text (saved_alone self.now.ring.ring)) }
        ensures fits { Fits (saved_alone self.now.ring.ring) }
        ensures legal { IsLegalText (saved_alone self.now.ring.ring) }
    {
        put_text(out, 0, self.ring.segment())
    }

    /// Writes the text of the segment's file as it is now to the front of the bytes, if they have room for it. Returns its size,
    /// counted up to 2^64 - 1. It takes no memory.
    pub fn put_file(&self, out: &mut [u8]) -> usize
        ensures written { Fills out.old out.new 0 result (file_text self.now.place self.now.ring) }
        ensures is { IsFileText self.now (file_text self.now.place self.now.ring) }
    {
        put_file(out, &self.place, &self.ring)
    }

    /// The same text by itself.
    ///
    /// # Errors
    ///
    /// Only if memory runs out.
    pub fn file_text(&self, alloc: Global) -> Result<Vec<u8>, AllocError>
        ensures { IfOk result (λ text. IsFileText self.now text.items) }
    {
        file_text(alloc, &self.place, &self.ring)
    }

    /// From now on a journal is kept, which has all of the segment so far.
    pub fn keep(&mut self)
        ensures { self.new ≡ kept_now self.old }
    {
        self.kept = true;
        self.events = self.ring.segment().history().len();
        self.looked.clear();
    }

    /// Writes the lines of what the journal does not have to the front of the bytes, if they have room for them. Returns their
    /// size, counted up to 2^64 - 1. It takes no memory.
    pub fn put_lines(&self, out: &mut [u8]) -> usize
        ensures { Fills out.old out.new 0 result (new_lines self.now) }
    {
        put_lines(
            out,
            self.ring.segment().history(),
            self.events,
            self.looked.as_slice(),
        )
    }

    /// The ring in its next segment, whose file comes after one of these bytes. This one does not change.
    ///
    /// # Errors
    ///
    /// `Full` only where no segment has room after this one, or its file would have no number; `OutOfMemory`.
    pub fn next(&self, alloc: Global, sealed: &[u8]) -> Result<FileRing, NextError>
        ensures ok { IfOk result (λ next. IsNextFile self.now sealed.now next) }
        ensures full { IfErr result (λ e. e ≡ error.Full → HasNoNext self.now) }
    {
        let Some(place) = self.place.next(sealed) else {
            return Err(NextError::Full);
        };
        match self.ring.next(alloc) {
            Ok(ring) => Ok(FileRing {
                ring,
                place,
                kept: false,
                events: 0,
                looked: Vec::new(alloc),
            }),
            Err(error) => Err(error),
        }
    }
}
