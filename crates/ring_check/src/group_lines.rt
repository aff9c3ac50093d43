//! The lines of a group's members: which event may come after the members of an open block, and where a block is open.

ghost use Rattle.std.specs.Prelude.{◌≡◌, ◌+◌, ◌≤◌, ◌∷◌, ◌++◌, [], length, map, take, slice_index};
ghost use Rattle.ring_model.specs.Groups.{left_of, left_after};
ghost use Rattle.ring_model.specs.Replay.{machine_of};
ghost use Rattle.ring_check.specs.Members.{machines_of, least_of, is_in_order, goes_on, may_come};
ghost use Rattle.ring_check.specs.Table.{event_of};

use saved_history::SavedEvent;

/// How many members of its group come after an event.
pub(crate) fn left_of(event: &SavedEvent) -> u32
    ensures { result ≡ left_of (event_of event.now).op }
{
    match *event {
        SavedEvent::Member { left, .. } => left,
        _ => 0,
    }
}

/// How many come after the last of the first `place` events of a block: 0 where that place is inside none.
pub fn left_after(events: &[SavedEvent], place: usize) -> u32
    requires { place ≤ length events.now }
    ensures { result ≡ left_after (take place (map event_of events.now)) }
{
    if place == 0 {
        0
    } else {
        left_of(&events[place - 1])
    }
}

/// The machine that an event's call names.
fn machine_of(event: &SavedEvent) -> u32
    ensures { result ≡ machine_of (event_of event.now).op }
{
    match *event {
        SavedEvent::Granted { machine, .. }
        | SavedEvent::Member { machine, .. }
        | SavedEvent::Refused { machine, .. }
        | SavedEvent::Corrupted { machine, .. } => machine,
    }
}

/// The machine of this turn: those of the run in order, and then the last one.
fn machine_at(run: &[SavedEvent], last: u32, turn: usize) -> u32
    requires { turn ≤ length run.now }
    ensures { result ≡ slice_index (machines_of (map event_of run.now) ++ last ∷ []) turn }
{
    if turn < run.len() {
        machine_of(&run[turn])
    } else {
        last
    }
}

/// The least machine that is left out, where the machines of a run and then the last one are in the order of a block:
/// they begin with the one below it and come so down to machine 0, or have no machine 0.
fn least_of(run: &[SavedEvent], last: u32) -> usize
    ensures value { result ≡ least_of (machines_of (map event_of run.now) ++ last ∷ []) }
    ensures few { result ≤ length run.now + 1 }
{
    let first = machine_at(run, last, 0) as usize;
    if first <= run.len() && machine_at(run, last, first) == 0 {
        first + 1
    } else {
        0
    }
}

/// Whether the machines of a run and then the last one are in the order of a block: down to machine 0 from the one below
/// the least that is left out, and then down from the last machine of the ring.
fn is_in_order(n: usize, run: &[SavedEvent], last: u32) -> bool
    ensures { result ≡ is_in_order n (machines_of (map event_of run.now) ++ last ∷ []) }
{
    let least = least_of(run, last);
    if least >= n {
        return false;
    }
    let mut high = n;
    for turn in 0..run.len() + 1 {
        let machine = machine_at(run, last, turn) as usize;
        if turn < least {
            if machine != least - 1 - turn {
                return false;
            }
        } else {
            if machine >= high || machine <= least {
                return false;
            }
            high = machine;
        }
    }
    true
}

/// Whether an event is a member of this seat and order with one member more left.
fn precedes(event: &SavedEvent, seat: u32, order: u64, left: u32) -> bool
    ensures { result ≡ goes_on (event_of event.now ∷ []) seat order left }
{
    match *event {
        SavedEvent::Member {
            seat: its_seat,
            order: its_order,
            left: its_left,
            ..
        } => its_seat == seat && its_order == order && its_left as u64 == left as u64 + 1,
        _ => false,
    }
}

/// Whether a member continues the group of the last member of a run.
pub fn goes_on(run: &[SavedEvent], seat: u32, order: u64, left: u32) -> bool
    ensures { result ≡ goes_on (map event_of run.now) seat order left }
{
    run.is_empty() || precedes(&run[run.len() - 1], seat, order, left)
}

/// Whether an event may come after the members of an open block of a ring of n machines: where none is open each by
/// itself, and a member of a group that leaves one out; else the block's next member, and as its last one the one that completes
/// the order. That order costs a look at each member, so once a block.
pub fn may_come(n: usize, run: &[SavedEvent], event: &SavedEvent) -> bool
    ensures { result ≡ may_come n (map event_of run.now) (event_of event.now) }
{
    match *event {
        SavedEvent::Member {
            seat,
            machine,
            order,
            left,
            ..
        } => {
            (left as u64) + 1 < n as u64
                && goes_on(run, seat, order, left)
                && (left > 0 || is_in_order(n, run, machine))
        }
        _ => run.is_empty(),
    }
}
