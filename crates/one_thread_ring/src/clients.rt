//! The clients of a ring: their numbers, and the surveys of each.
ghost use Rattle.std.specs.Prelude.{◌≡◌, ◌<◌, ◌≤◌, ◌^◌, ◌+◌, ◌++◌, ◌∷◌, [], length, IfOk, OnOk, OnErr};
ghost use Rattle.std.specs.List.{slice_range};
ghost use Rattle.ring_model.specs.Limits.{seat_limit};
ghost use Rattle.one_thread_ring.specs.Clients.{receipts_by, log_from, StandInOrder};

use ring_model::{Entry, Event, Receipt, Survey};
use std::alloc::{AllocError, Global};
use std::marker::Model;

/// One client's number, and the surveys that it was given, in order. Contracts see the two. The receipts of its calls are not
/// kept: its events are in the history.
#[derive(Drop)]
pub struct Client {
    number: u32,
    surveys: Vec<Survey>,
}

impl Model for Client {
    ghost use Rattle.std.specs.Prelude.{◌<◌};
    ghost use Rattle.ring_model.specs.Limits.{seat_limit};
    ghost use Rattle.one_thread_ring.specs.Clients.{ClientView};

    ghost Value = { ClientView };

    ghost view = { λ c. record { number = c.number; surveys = c.surveys.items } };

    ghost invariant = { λ c. c.number < seat_limit };
}

impl Client {
    /// A client with no surveys.
    pub(crate) fn new(alloc: Global, number: u32) -> Client
        requires { number < seat_limit }
        ensures { result ≡ record { number = number; surveys = [] } }
    {
        Client {
            number,
            surveys: Vec::new(alloc),
        }
    }

    /// The client's number.
    pub fn number(&self) -> u32
        ensures is { result ≡ self.now.number }
        ensures most { result < seat_limit }
    {
        self.number
    }

    /// The surveys that the client was given, in order.
    pub fn surveys(&self) -> &[Survey]
        ensures { result.now ≡ self.now.surveys }
    {
        self.surveys.as_slice()
    }

    /// Gives the client a survey.
    pub(crate) fn tell(&mut self, survey: Survey) -> Result<(), AllocError>
        ensures told { OnOk result (self.new
            ≡ record { number = self.old.number; surveys = self.old.surveys ++ survey ∷ [] }) }
        ensures err { OnErr result (self.new ≡ self.old) }
    {
        self.surveys.reserve(1)?;
        self.surveys.push_reserved(survey);
        Ok(())
    }

    /// Returns the client's log, in order, where this is the history.
    pub(crate) fn log(&self, alloc: Global, history: &[Event]) -> Result<Vec<Entry>, AllocError>
        requires { StandInOrder 0 (length history.now) self.now.surveys }
        ensures { IfOk result
            (λ log. log.items ≡ log_from self.now.number 0 history.now self.now.surveys) }
    {
        log_of(alloc, history, self.number, &self.surveys)
    }
}

/// Logs the receipts of a seat's own events among those that follow one another in a history, from `first` on.
fn log_events(
    log: &mut Vec<Entry>,
    seat: u32,
    events: &[Event],
    first: u64,
) -> Result<(), AllocError>
    requires few { first + length events.now < 2 ^ 64 }
    ensures { OnOk result (log.new.items ≡ log.old.items ++ receipts_by seat first events.now) }
{
    let mut position = first;
    for event in events {
        if event.seat == seat {
            log.push(Entry::Receipt(Receipt {
                position,
                event: *event,
            }))?;
        }
        position += 1;
    }
    Ok(())
}

/// The same of the events of a history from one place up to another.
fn log_part(
    log: &mut Vec<Entry>,
    seat: u32,
    history: &[Event],
    from: usize,
    to: usize,
) -> Result<(), AllocError>
    requires from { from ≤ to }
    requires to { to ≤ length history.now }
    ensures { OnOk result
        (log.new.items ≡ log.old.items ++ receipts_by seat from (slice_range history.now from to)) }
{
    log_events(log, seat, &history[from..to], from as u64)
}

/// Returns the log of a seat: the receipts of its events, with these surveys at their places among them.
fn log_of(
    alloc: Global,
    history: &[Event],
    seat: u32,
    surveys: &[Survey],
) -> Result<Vec<Entry>, AllocError>
    requires { StandInOrder 0 (length history.now) surveys.now }
    ensures { IfOk result (λ log. log.items ≡ log_from seat 0 history.now surveys.now) }
{
    let mut log = Vec::new(alloc);
    let mut place = 0;
    for survey in surveys {
        let next = survey.position as usize;
        log_part(&mut log, seat, history, place, next)?;
        log.push(Entry::Survey(*survey))?;
        place = next;
    }
    log_part(&mut log, seat, history, place, history.len())?;
    Ok(log)
}
