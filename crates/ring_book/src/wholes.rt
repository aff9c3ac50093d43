//! Whether events are a row of whole groups and of calls by themselves.
ghost use Rattle.std.specs.Prelude.{◌≡◌, ◌+◌, ◌≤◌, ◌↔◌, ◌++◌, ℕ, suc, List, length, IsTrue, IfSome, IsNone};
ghost use Rattle.ring_model.specs.Groups.{down_from, Falls, IsInOrder, AreMembers, IsBlockOf, IsWhole, left_of};
ghost use Rattle.ring_model.specs.Replay.{machine_of};
ghost use Rattle.ring_book.specs.BookHistory.{machines_of, IsFirstPiece};

use ring_model::{Event, Op};

/// The machine that an event's call names.
fn machine_of(event: Event) -> u32
    ensures { result ≡ machine_of event.op }
{
    match event.op {
        Op::Pass { machine, .. } | Op::Member { machine, .. } | Op::Corrupt { machine, .. } => {
            machine
        }
    }
}

/// The least machine that a block leaves out, if its machines are in order: they begin with the one below it and come so
/// down to machine 0, or have no machine 0.
fn least_left_out(block: &[Event]) -> usize
    requires some { 1 ≤ length block.now }
    ensures is { (n least : ℕ) (back : List ℕ)
        → machines_of block.now ≡ down_from least ++ back → Falls (suc least) n back
        → result ≡ least }
    ensures few { result ≤ length block.now }
{
    let first = machine_of(block[0]) as usize;
    if first < block.len() && machine_of(block[first]) == 0 {
        first + 1
    } else {
        0
    }
}

/// Whether the machines of a block are in order: down to machine 0 from the one below the least that is left out, and then
/// down from the last machine of the ring.
fn are_in_order(n: u32, block: &[Event]) -> bool
    requires some { 1 ≤ length block.now }
    ensures { IsTrue result ↔ IsInOrder n (machines_of block.now) }
{
    let least = least_left_out(block);
    if least >= n as usize {
        return false;
    }
    let mut high = n as usize;
    for turn in 0..block.len() {
        let machine = machine_of(block[turn]) as usize;
        if turn < least {
            if machine != least - 1 - turn {
                return false;
            }
        } else {
            if machine >= high || machine <= least {
                return false;
            }
            high = machine;
        }
    }
    true
}

/// Whether an event is a member's of this seat and order, with this many left.
fn is_member(event: Event, seat: u32, order: u64, left: usize) -> bool
    ensures { IsTrue result
        ↔ (event.seat ≡ seat) × (event.op ≡ Op.Member (machine_of event.op) order left) }
{
    match event.op {
        Op::Member {
            order: its_order,
            left: its_left,
            ..
        } => event.seat == seat && its_order == order && its_left as usize == left,
        Op::Pass { .. } | Op::Corrupt { .. } => false,
    }
}

/// Whether the events are members of one seat and order, and each says how many are left.
fn are_members(block: &[Event], seat: u32, order: u64) -> bool
    ensures { IsTrue result ↔ AreMembers seat order (machines_of block.now) block.now }
{
    for place in 0..block.len() {
        if !is_member(block[place], seat, order, block.len() - 1 - place) {
            return false;
        }
    }
    true
}

/// Whether the events are a block of a ring of n machines, of this seat and order.
fn is_block(n: u32, block: &[Event], seat: u32, order: u64) -> bool
    requires some { 1 ≤ length block.now }
    ensures { IsTrue result ↔ IsBlockOf n seat order (machines_of block.now) block.now }
{
    are_members(block, seat, order) && are_in_order(n, block)
}

/// How many events a piece has that begins with this event: a group's members, or one call by itself.
fn piece_length(first: Event) -> usize
    ensures { result ≡ left_of first.op + 1 }
{
    match first.op {
        Op::Member { left, .. } => left as usize + 1,
        Op::Pass { .. } | Op::Corrupt { .. } => 1,
    }
}

/// How many events a whole history that begins so has in its first piece: a group's members, or one call by itself.
fn first_piece(n: u32, events: &[Event]) -> Option<usize>
    requires some { 1 ≤ length events.now }
    ensures some { IfSome result (λ count. IsFirstPiece n events.now count) }
    ensures none { IsNone result → IsWhole n events.now → ⊥ }
{
    let first = events[0];
    let count = piece_length(first);
    match first.op {
        Op::Member { order, .. } => {
            if count <= events.len() && is_block(n, &events[..count], first.seat, order) {
                Some(count)
            } else {
                None
            }
        }
        Op::Pass { .. } | Op::Corrupt { .. } => Some(1),
    }
}

/// Whether the events are a whole history of a ring of n machines.
pub(crate) fn are_whole(n: u32, events: &[Event]) -> bool
    ensures { IsTrue result ↔ IsWhole n events.now }
{
    let mut place = 0;
    while place < events.len() {
        match first_piece(n, &events[place..]) {
            Some(count) => place += count,
            None => return false,
        }
    }
    true
}
