//! The rings that are served.

ghost use Rattle.std.specs.Prelude.{◌≡◌, ℕ, ◌-◌, ◌^◌, nat_lt, min, false, [], ◌∷◌, ◌++◌, length, map, drop, slice_get, OnOk, OnErr, Some};
ghost use Rattle.ring_service.specs.declared.answers.Answer.TheVariants as answer;
ghost use Rattle.ring_service.specs.declared.turns.Trace.TheVariants as trace;
ghost use Rattle.ring_service.specs.Commands.{seen, ring_of};
ghost use Rattle.endless_ring.specs.Endless.{IsEndless};
ghost use Rattle.ring_service.specs.Standings.{standing_of, AreRight};
ghost use Rattle.ring_service.specs.Due.{lines_in, lines_of, is_short, has_short, is_due, is_short_at, is_due_at, lines_recorded};
ghost use Rattle.ring_service.specs.Counted.{AreCounted};
ghost use Rattle.ring_service.specs.Turns.{IsTurn, is_off, IsHeardTurn, IsTurnOfLine, recorded_among, turn_seen_among, history_of};

use crate::answers::Refusal;
use crate::commands::{Command, read_command};
use crate::totals::surveys_of;
use crate::turns::{CallAnswer, Trace, make, refusal_answer};
use endless_ring::EndlessRing;
use ring_model::Event;
use ring_model::limits::{EVENT_LIMIT, MACHINE_LIMIT};
use std::alloc::{AllocError, Global};
use std::marker::Model;
use text_lines::{LINE_LIMIT, Stop};

/// Rings that are called by their numbers, from 0. Contracts see the state of each of them.
#[derive(Drop)]
pub struct Served {
    rings: Vec<EndlessRing>,
    /// How many events and surveys their segments have, up to 2 to the power 64 less 1.
    lines: u64,
}

impl Model for Served {
    ghost use Rattle.std.specs.Prelude.{List, map};
    ghost use Rattle.ring_service.specs.Standings.{Standing, standing_of};
    ghost use Rattle.ring_service.specs.Counted.{AreCounted};

    ghost Value = { List Standing };

    ghost view = { λ s. map standing_of s.rings.items };

    ghost invariant = { λ s. AreCounted s.rings.items s.lines };
}

/// A line that was answered: the number of the ring that it calls, and the answer to the call.
#[derive(Clone, Copy)]
pub struct LineAnswer {
    pub ring: u32,
    pub call: CallAnswer,
}

/// The number of the ring that is called.
fn ring_of(command: &Command) -> u32
    ensures { result ≡ ring_of (seen command.now) }
{
    match command {
        Command::Pass { ring, .. } => *ring,
        Command::Try { ring, .. } => *ring,
        Command::Group { ring, .. } => *ring,
        Command::Corrupt { ring, .. } => *ring,
        Command::Survey { ring, .. } => *ring,
        Command::Glance { ring } => *ring,
        Command::Save => 0,
    }
}

/// Whether this is a fault, where none is permitted.
fn is_off(faults: bool, command: &Command) -> bool
    ensures { result ≡ is_off faults (seen command.now) }
{
    match command {
        Command::Corrupt { .. } => !faults,
        _ => false,
    }
}

/// A command for one of the rings.
fn make_among(rings: &mut Vec<EndlessRing>, command: &Command) -> CallAnswer
    requires { AreRight rings.old.items }
    ensures turn { IsTurn (map standing_of rings.old.items) (seen command.now)
        (turn_seen_among (ring_of (seen command.now)) (map standing_of rings.new.items) result) }
    ensures right { AreRight rings.new.items }
{
    let at = ring_of(command) as usize;
    if at >= rings.len() {
        return refusal_answer(Refusal::NoRing);
    }
    make(&mut rings[at], command)
}

/// The events of a ring's history from a place on; none if there is no such ring.
fn events_of(rings: &[EndlessRing], ring: usize, from: usize) -> &[Event]
    ensures { result.now ≡ drop from (history_of (slice_get (map standing_of rings.now) ring)) }
{
    if ring >= rings.len() {
        return &[];
    }
    let history = rings[ring].segment().history();
    if from > history.len() {
        return &[];
    }
    &history[from..]
}

/// A ring more.
fn add_to(rings: &mut Vec<EndlessRing>, ring: EndlessRing) -> Result<(), AllocError>
    requires all { AreRight rings.old.items }
    requires ring { IsEndless ring }
    ensures right { AreRight rings.new.items }
    ensures ok { OnOk result (map standing_of rings.new.items
        ≡ map standing_of rings.old.items ++ standing_of ring ∷ []) }
    ensures err { OnErr result (rings.new.items ≡ rings.old.items) }
{
    rings.reserve(1)?;
    rings.push_reserved(ring);
    Ok(())
}

/// How many events and surveys the segment of a ring has, up to 2 to the power 64 less 1.
fn lines_in(ring: &EndlessRing) -> u64
    ensures { result ≡ min (lines_in (standing_of ring.now)) (2 ^ 64 - 1) }
{
    let events = ring.segment().history().len() as u64;
    match surveys_of(ring.segment()) {
        Some(surveys) => events.saturating_add(surveys),
        None => u64::MAX,
    }
}

/// How many lines a call that was made leaves in the journal.
fn lines_left(rings: &[EndlessRing], ring: u32, trace: Trace) -> u64
    ensures { result ≡ lines_recorded (recorded_among ring (map standing_of rings.now) trace) }
{
    match trace {
        Trace::Nothing => 0,
        Trace::Events(from) => events_of(rings, ring as usize, from).len() as u64,
        Trace::Survey { .. } => 1,
    }
}

/// Whether a ring has fewer places left for events than a line may need.
fn is_short(ring: &EndlessRing) -> bool
    ensures { result ≡ is_short (standing_of ring.now) }
{
    ring.segment().history().len() > EVENT_LIMIT - MACHINE_LIMIT as usize
}

/// Whether one of these rings has fewer places left for events than a line may need.
fn has_short(rings: &[EndlessRing]) -> bool
    ensures { result ≡ has_short (map standing_of rings.now) }
{
    for ring in rings {
        if is_short(ring) {
            return true;
        }
    }
    false
}

/// Whether there is a ring of this number, and it has fewer places left for events than a line may need.
fn is_short_at(rings: &[EndlessRing], ring: usize) -> bool
    ensures { result ≡ is_short_at (slice_get (map standing_of rings.now) ring) }
{
    ring < rings.len() && is_short(&rings[ring])
}

impl Served {
    /// No ring.
    pub fn none(alloc: Global) -> Served
        ensures { result ≡ [] }
    {
        Served {
            rings: Vec::new(alloc),
            lines: 0,
        }
    }

    /// Serves this ring too, by the next number.
    ///
    /// # Errors
    ///
    /// Only if memory is short.
    pub fn add(&mut self, ring: EndlessRing) -> Result<(), AllocError>
        requires { IsEndless ring }
        ensures ok { OnOk result (self.new ≡ self.old ++ standing_of ring ∷ []) }
        ensures err { OnErr result (self.new ≡ self.old) }
    {
        let more = lines_in(&ring);
        match add_to(&mut self.rings, ring) {
            Ok(()) => {}
            Err(fault) => return Err(fault),
        }
        self.lines = self.lines.saturating_add(more);
        Ok(())
    }

    /// How many rings there are.
    pub fn count(&self) -> usize
        ensures { result ≡ length self.now }
    {
        self.rings.len()
    }

    /// The rings, in their order, as they are.
    pub(crate) fn rings(&self) -> &[EndlessRing]
        ensures same { map standing_of result.now ≡ self.now }
        ensures right { AreRight result.now }
    {
        self.rings.as_slice()
    }

    /// The events of a ring's history from a place on; none if there is no such ring.
    pub fn events(&self, ring: u32, from: usize) -> &[Event]
        ensures { result.now ≡ drop from (history_of (slice_get self.now ring)) }
    {
        events_of(self.rings.as_slice(), ring as usize, from)
    }

    /// Whether the segment is due to end: its journal has at least `limit` lines, one for each event and each survey of all rings,
    /// or some ring has fewer places left for events than a line may need.
    pub fn is_due(&self, limit: u64) -> bool
        ensures { result ≡ is_due (Some limit) self.now }
    {
        self.lines >= limit || has_short(self.rings.as_slice())
    }

    /// The same after a line that called this ring, if the segment was not due before that.
    pub(crate) fn is_due_at(&self, limit: u64, ring: u32) -> bool
        ensures { result ≡ is_due_at (Some limit) self.now ring }
    {
        self.lines >= limit || is_short_at(self.rings.as_slice(), ring as usize)
    }

    /// Makes a call.
    fn make(&mut self, command: &Command) -> CallAnswer
        ensures turn { IsTurn self.old (seen command.now)
            (turn_seen_among (ring_of (seen command.now)) self.new result) }
        ensures due { (limit : ℕ) → is_due (Some limit) self.old ≡ false
            → is_due (Some limit) self.new
            ≡ is_due_at (Some limit) self.new (ring_of (seen command.now)) }
    {
        let answer = make_among(&mut self.rings, command);
        let more = lines_left(self.rings.as_slice(), ring_of(command), answer.trace);
        self.lines = self.lines.saturating_add(more);
        answer
    }
}

/// Answers a command, if it is permitted.
fn answer_command(served: &mut Served, faults: bool, command: &Command) -> LineAnswer
    ensures turn { IsHeardTurn faults served.old (Some (seen command.now))
        (turn_seen_among result.ring served.new result.call) }
    ensures due { (limit : ℕ) → is_due (Some limit) served.old ≡ false
        → is_due (Some limit) served.new ≡ is_due_at (Some limit) served.new result.ring }
{
    if is_off(faults, command) {
        return no_call(Refusal::Off);
    }
    LineAnswer {
        ring: ring_of(command),
        call: served.make(command),
    }
}

/// Answers a line, which has its LF: as the one-thread ring answers to the command whose line it is, `refused syntax` where it is
/// that of none or has more than 8 KiB, `refused off` where it is a fault and `faults` permits none, `refused order` where its
/// order is 2 to the power 64 or more. `refused memory` can come at any line, and changes nothing. A `save` is answered `saved`:
/// whether it is permitted, and to save, is the caller's, as in [`serve`](crate::serve).
pub fn answer_line(alloc: Global, served: &mut Served, faults: bool, line: &[u8]) -> LineAnswer
    ensures turn { IsTurnOfLine faults served.old line.now
        (turn_seen_among result.ring served.new result.call) }
    ensures due { (limit : ℕ) → is_due (Some limit) served.old ≡ false
        → is_due (Some limit) served.new ≡ is_due_at (Some limit) served.new result.ring }
{
    if line.len() > LINE_LIMIT {
        return no_call(Refusal::Syntax);
    }
    match read_command(alloc, line) {
        Ok(Some(command)) => answer_command(served, faults, &command),
        Ok(None) => no_call(Refusal::OrderTooLarge),
        Err(Stop::Memory) => no_call(Refusal::OutOfMemory),
        Err(Stop::Fault(_)) => no_call(Refusal::Syntax),
    }
}

/// A line that is not a call.
pub(crate) fn no_call(why: Refusal) -> LineAnswer
    ensures { result
        ≡ record {
          ring = 0;
          call = record { answer = answer.Refused why; trace = trace.Nothing };
        } }
{
    LineAnswer {
        ring: 0,
        call: refusal_answer(why),
    }
}
