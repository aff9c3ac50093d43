//! Whether the receipts of a seat's log are the seat's calls at their places, and no entry goes back.
ghost use Rattle.std.specs.Prelude.{◌≡◌, ◌<◌, ◌≤◌, ◌^◌, ◌-◌, ◌↔◌, None, Some, All, take, drop, map, slice_get, length, IsTrue, IsFalse, IfSome, IfOk};
ghost use Rattle.ring_logs.specs.Fronts.{front_of, is_receipt as is_receipt_entry, receipt_count, IsReceiptFrom, IsPlacedFrom, ArePlaced, IsPlaced};
ghost use Rattle.ring_logs.specs.Walks.{IsPlacedWalk, walk_of};

use crate::logs::ClientLog;
use ring_book::{Book, Resource};
use ring_model::{Entry, Event, Receipt};
use std::alloc::{AllocError, Global};
use std::marker::Model;

/// How many events all logs are followed along before the next are: that many stay near the processor.
const BLOCK: usize = 2048;

fn is_same_event(one: &Event, other: &Event) -> bool
    ensures { IsTrue result ↔ one.now ≡ other.now }
{
    *one == *other
}

/// Whether this event is at this place of a history.
fn is_at(history: &[Event], position: u64, event: &Event) -> bool
    ensures { IsTrue result ↔ slice_get history.now position ≡ Some event.now }
{
    match history.get(position as usize) {
        Some(found) => is_same_event(found, event),
        None => false,
    }
}

/// Whether the event of a receipt is where the receipt says, not before the front, and is this seat's.
fn is_receipt_from(history: &[Event], seat: u32, front: u64, receipt: &Receipt) -> bool
    ensures { IsTrue result ↔ IsReceiptFrom history.now seat front receipt.now }
{
    front <= receipt.position
        && receipt.event.seat == seat
        && is_at(history, receipt.position, &receipt.event)
}

/// The front after an entry; none where its receipt is not right, or where it goes back before the earlier front.
fn front_past(history: &[Event], seat: u32, front: u64, entry: &Entry) -> Option<u64>
    ensures some { IfSome result
        (λ f. (f ≡ front_of entry.now) × IsPlacedFrom history.now seat front entry.now) }
    ensures none { result ≡ None → IsPlacedFrom history.now seat front entry.now → ⊥ }
{
    match entry {
        Entry::Receipt(receipt) if is_receipt_from(history, seat, front, receipt) => {
            receipt.position.checked_add(1)
        }
        Entry::Survey(survey) if front <= survey.position => Some(survey.position),
        _ => None,
    }
}

fn is_receipt(entry: &Entry) -> bool
    ensures { result ≡ is_receipt_entry entry.now }
{
    matches!(entry, Entry::Receipt(_))
}

/// How far a log was followed: up to an entry of it, the front there, and how many entries before it are receipts.
#[derive(Clone, Copy)]
struct Reached {
    entry: usize,
    front: u64,
    receipts: u64,
}

/// The place that an entry names.
fn place_of(entry: &Entry) -> u64 {
    match entry {
        Entry::Receipt(receipt) => receipt.position,
        Entry::Survey(survey) => survey.position,
    }
}

/// Follows a log on, up to the first entry that is at `until` or after it, but to its end where that is the
/// greatest number; none where an entry is not placed.
fn follow(history: &[Event], seat: u32, log: &[Entry], from: Reached, until: u64) -> Option<Reached>
    requires within { from.entry ≤ length log.now }
    requires few { from.receipts ≤ from.entry }
    requires counted { from.receipts ≡ receipt_count (take from.entry log.now) }
    ensures within { IfSome result (λ to. to.entry ≤ length log.now) }
    ensures few { IfSome result (λ to. to.receipts ≤ to.entry) }
    ensures counted { IfSome result (λ to. to.receipts ≡ receipt_count (take to.entry log.now)) }
    ensures some { IfSome result (λ to. ArePlaced history.now seat to.front (drop to.entry log.now)
        ↔ ArePlaced history.now seat from.front (drop from.entry log.now)) }
    ensures none { result ≡ None → ArePlaced history.now seat from.front (drop from.entry log.now)
        → ⊥ }
    ensures all { until ≡ 2 ^ 64 - 1 → IfSome result (λ to. to.entry ≡ length log.now) }
{
    let mut front = from.front;
    let mut receipts = from.receipts;
    for place in from.entry..log.len() {
        let entry = &log[place];
        if until != u64::MAX && place_of(entry) >= until {
            return Some(Reached {
                entry: place,
                front,
                receipts,
            });
        }
        let Some(past) = front_past(history, seat, front, entry) else {
            return None;
        };
        front = past;
        if is_receipt(entry) {
            receipts += 1;
        }
    }
    Some(Reached {
        entry: log.len(),
        front,
        receipts,
    })
}

/// A seat's log that is followed along a history, and how far it was.
///
/// Contracts see only the history and the client: the rest of the log is placed just where all of it is.
#[derive(Drop)]
struct Walk<'a> {
    history: &'a [Event],
    seat: u32,
    log: &'a [Entry],
    calls: u64,
    reached: Reached,
}

impl<'a> Model for Walk<'a> {
    ghost use Rattle.std.specs.Prelude.{◌≡◌, ◌≤◌, ◌↔◌, length, take, drop};
    ghost use Rattle.ring_model.specs.Logs.{calls_of};
    ghost use Rattle.ring_logs.specs.Fronts.{ArePlaced, receipt_count};
    ghost use Rattle.ring_logs.specs.Walks.{Walked};

    ghost Value = { Walked };

    ghost view = { λ w. record { history = w.history.now; number = w.seat; log = w.log.now } };

    ghost invariant = { λ w. (w.reached.entry ≤ length w.log.now)
        × (w.reached.receipts ≤ w.reached.entry)
        × (w.reached.receipts ≡ receipt_count (take w.reached.entry w.log.now))
        × (w.calls ≡ length (calls_of w.seat w.history.now))
        × (ArePlaced w.history.now w.seat w.reached.front (drop w.reached.entry w.log.now)
        ↔ ArePlaced w.history.now w.seat 0 w.log.now) };
}

impl<'a> Walk<'a> {
    /// At the start of a client's log.
    fn new<R: Resource + Drop>(book: &'a Book<R>, client: &ClientLog<'a>) -> Walk<'a>
        ensures { result ≡ walk_of book.now.history client.now }
    {
        Walk {
            history: book.history(),
            seat: client.number,
            log: client.entries,
            calls: book.calls_of(client.number),
            reached: Reached {
                entry: 0,
                front: 0,
                receipts: 0,
            },
        }
    }

    /// Follows the log up to the first entry that is at `until` or after it. False where an entry isn't placed.
    fn walk(&mut self, until: u64) -> bool
        ensures same { self.new ≡ self.old }
        ensures wrong { IsFalse result → IsPlacedWalk self.old → ⊥ }
    {
        match follow(self.history, self.seat, self.log, self.reached, until) {
            Some(reached) => {
                self.reached = reached;
                true
            }
            None => false,
        }
    }

    /// Follows the log to its end: whether it is placed, with as many receipts as the seat has calls.
    fn is_placed(&self) -> bool
        ensures { IsTrue result ↔ IsPlacedWalk self.now }
    {
        match follow(self.history, self.seat, self.log, self.reached, u64::MAX) {
            Some(end) => end.receipts == self.calls,
            None => false,
        }
    }
}

/// A walk for each log, at its start.
fn walks_of<'a, R: Resource + Drop>(
    alloc: Global,
    book: &'a Book<R>,
    logs: &[ClientLog<'a>],
) -> Result<Vec<Walk<'a>>, AllocError>
    ensures { IfOk result (λ v. v.items ≡ map (walk_of book.now.history) logs.now) }
{
    let mut walks = Vec::with_capacity(alloc, logs.len())?;
    for log in logs {
        walks.push(Walk::new(book, log))?;
    }
    Ok(walks)
}

/// Follows each log up to its first entry that is at `until` or after it. False where an entry isn't placed.
fn all_walk(walks: &mut Vec<Walk>, until: u64) -> bool
    ensures same { walks.new.items ≡ walks.old.items }
    ensures wrong { IsFalse result → All IsPlacedWalk walks.old.items → ⊥ }
{
    for i in 0..walks.len() {
        if !walks[i].walk(until) {
            return false;
        }
    }
    true
}

/// Follows each log to its end.
fn all_end(walks: &[Walk]) -> bool
    ensures { IsTrue result ↔ All IsPlacedWalk walks.now }
{
    for walk in walks {
        if !walk.is_placed() {
            return false;
        }
    }
    true
}

/// Whether the receipts of each log are the client's calls at their places in the history of the book, and no
/// entry goes back. The content of the surveys isn't looked at. The logs are followed side by side, so that the history is
/// gone through once.
///
/// # Errors
///
/// If there is no memory for how far each log was followed.
pub(crate) fn all_placed<R: Resource + Drop>(
    alloc: Global,
    book: &Book<R>,
    logs: &[ClientLog],
) -> Result<bool, AllocError>
    ensures { IfOk result
        (λ b. IsTrue b ↔ All (λ l. IsPlaced book.now.history l.number l.log) logs.now) }
{
    let mut walks = walks_of(alloc, book, logs)?;
    for block in 1..book.history().len() / BLOCK + 1 {
        if !all_walk(&mut walks, (block * BLOCK) as u64) {
            return Ok(false);
        }
    }
    Ok(all_end(walks.as_slice()))
}
