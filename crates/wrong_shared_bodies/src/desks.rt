//! Calls of a ring that is called by numbers, each broken: the real one with something wrong.

ghost use Rattle.std.specs.Prelude.{◌≡◌, ◌≢◌, ◌+◌, ◌<◌, ◌≤◌, [], ◌∷◌, true, length, map, IsSome, IfOk, IfSome, OnErr};
ghost use Rattle.ring_book.specs.BookView.{IsRecorded};
ghost use Rattle.ring_book.specs.GroupView.{IsGroupRecorded};
ghost use Rattle.ring_check.specs.Table.{event_of};
ghost use Rattle.ring_model.specs.Ring.{is_privileged};
ghost use Rattle.ring_model.specs.declared.events.Entry.TheVariants as entry;
ghost use Rattle.ring_model.specs.declared.events.Op.TheVariants as op;
ghost use Rattle.one_thread_ring.specs.Refusals.{IsDecided, bounds_of, pass_refusal};
ghost use Rattle.one_thread_ring.specs.Rings.{told_more};
ghost use Rattle.one_thread_ring.specs.Texts.{surveys_told, saved_alone};
ghost use Rattle.saved_history.specs.Spelling.{text};
ghost use Rattle.text_lines.specs.Writing.{Writes};

use one_thread_ring::{CallError, OneThreadRing, OpenError, ResumeError, from_saved};
use ring_book::{GroupReceipt, Resource, Till};
use ring_farm::RingOutcome;
use ring_model::{Receipt, Survey};
use ring_text::WriteFault;
use saved_history::SavedRing;
use std::alloc::Global;
use std::io::Write;

/// A pass is recorded for the seat that asks: it is recorded for another one.
pub fn pass_for_another_seat<R: Resource + Drop>(
    ring: &mut OneThreadRing<R>,
    seat: u32,
    other: u32,
    machine: u32,
    order: u64,
) -> Result<Receipt, CallError>
    requires { other ≢ seat }
    ensures wrong { IfOk result
        (λ r. IsRecorded R.works ring.old.book ring.new.book seat (op.Pass machine order) r → ⊥) }
{
    ring.pass(other, machine, order)
}

/// A pass that cannot be refused is recorded for the seat that asks: it is recorded for another one.
pub fn grant_for_another_seat<R: Resource + Drop>(
    ring: &mut OneThreadRing<R>,
    seat: u32,
    other: u32,
    machine: u32,
    order: u64,
) -> Receipt
    requires seat { other < length ring.old.clients }
    requires machine { machine < length ring.old.book.now.ring.values }
    requires privileged { is_privileged ring.old.book.now.ring.values machine ≡ true }
    requires room { 1 ≤ ring.old.book.room }
    requires apart { other ≢ seat }
    ensures wrong { IsRecorded R.works ring.old.book ring.new.book seat (op.Pass machine order) result → ⊥ }
{
    ring.grant(other, machine, order)
}

/// Each seat of the ring may call: the last one gets the answer that there is no such seat.
pub fn no_seat_for_the_last_seat<R: Resource + Drop>(
    ring: &mut OneThreadRing<R>,
    seat: u32,
    machine: u32,
    order: u64,
) -> Result<Receipt, CallError>
    requires last { seat + 1 ≡ length ring.old.clients }
    requires few { seat ≤ 9 }
    ensures wrong { IsDecided (pass_refusal (bounds_of ring.old) seat machine) result → ⊥ }
{
    ring.pass(seat + 1, machine, order)
}

/// A full history is reported as such: it is reported as memory that ran out.
pub fn full_history_told_as_lack_of_memory<R: Resource + Drop>(
    ring: &mut OneThreadRing<R>,
    seat: u32,
    machine: u32,
    order: u64,
) -> Option<Result<Receipt, CallError>>
    ensures wrong { IfSome result
        (λ answer. IsDecided (pass_refusal (bounds_of ring.old) seat machine) answer → ⊥) }
{
    match ring.pass(seat, machine, order) {
        Err(CallError::HistoryFull) => Some(Err(CallError::OutOfMemory)),
        _ => None,
    }
}

/// A refused call changes nothing: one that was recorded is reported as refused.
pub fn refused_pass_that_is_recorded<R: Resource + Drop>(
    ring: &mut OneThreadRing<R>,
    seat: u32,
    machine: u32,
    order: u64,
) -> Option<Result<Receipt, CallError>>
    ensures wrong { IfSome result (λ answer. OnErr answer (ring.new ≡ ring.old) → ⊥) }
{
    match ring.pass(seat, machine, order) {
        Ok(_) => Some(Err(CallError::HistoryFull)),
        Err(_) => None,
    }
}

/// A group is recorded as one block: its machine passes by itself.
pub fn group_recorded_machine_by_machine<R: Resource + Drop>(
    ring: &mut OneThreadRing<R>,
    seat: u32,
    machine: u32,
    order: u64,
) -> Result<GroupReceipt, CallError>
    ensures wrong { IfOk result
        (λ r. IsGroupRecorded R.works ring.old.book ring.new.book seat order (machine ∷ []) r → ⊥) }
{
    match ring.pass(seat, machine, order) {
        Ok(receipt) => Ok(GroupReceipt {
            first: receipt.position,
            count: 1,
        }),
        Err(error) => Err(error),
    }
}

/// A ring of a saved text resumes where it ended: its grants so far are forgotten.
pub fn saved_ring_that_begins_anew(
    alloc: Global,
    saved: &SavedRing,
    seats: u32,
) -> Result<OneThreadRing<Till>, OpenError>
    requires { 1 ≤ length saved.now.events.items }
    ensures wrong { IfOk result (λ d. d.book.history ≡ map event_of saved.now.events.items → ⊥) }
{
    OneThreadRing::open(alloc, saved.n, saved.k, &saved.start, seats, Till::new())
}

/// A ring of a saved text has the surveys of that text: it resumes from one that has none.
pub fn saved_ring_that_forgets_the_surveys(
    alloc: Global,
    saved: &SavedRing,
    without: &SavedRing,
    seats: u32,
) -> Result<OneThreadRing<Till>, ResumeError>
    requires some { 1 ≤ length saved.now.surveys.items }
    requires none { without.now.surveys.items ≡ [] }
    ensures wrong { IfOk result (λ d. surveys_told d.clients ≡ saved.now.surveys.items → ⊥) }
{
    from_saved(alloc, without, seats)
}

/// The saved history is the ring's own: another one's is written, which has another text.
pub fn save_of_another_rings_history<W: Write>(
    ring: &OneThreadRing<Till>,
    other: &OneThreadRing<Till>,
    out: &mut W,
) -> Result<(), WriteFault>
    requires known { IsSome (W.contents out.old) }
    requires apart { text (saved_alone other.now) ≢ text (saved_alone ring.now) }
    ensures wrong { IfOk result (λ _.
        Writes (W.contents out.old) (W.contents out.new) result (text (saved_alone ring.now)) → ⊥) }
{
    other.save(out)?;
    Ok(())
}

/// A survey is in the log of its seat: it is answered, and kept nowhere.
pub fn survey_that_is_not_logged<R: Resource + Drop>(
    ring: &mut OneThreadRing<R>,
    seat: u32,
) -> Result<Survey, CallError>
    requires { seat + 1 ≤ length ring.old.clients }
    ensures wrong { IfOk result
        (λ s. ring.new.clients ≡ told_more ring.old.clients seat (entry.Survey s ∷ []) → ⊥) }
{
    Ok(ring.glance())
}

/// A closed ring has its own history: one that lacks the last event is handed out.
pub fn close_that_drops_the_last_event(
    alloc: Global,
    _ring: &OneThreadRing<Till>,
    shorter: OneThreadRing<Till>,
) -> Result<RingOutcome, OneThreadRing<Till>>
    requires { length shorter.book.history + 1 ≡ length _ring.now.book.history }
    ensures wrong { IfOk result (λ o. o.book ≡ _ring.now.book → ⊥) }
{
    shorter.close(alloc)
}
