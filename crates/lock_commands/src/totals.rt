//! The line of the sums over locks.

ghost use Rattle.std.specs.Prelude.{◌≡◌, OnOk, IfErr, IfSome, IsNone};
ghost use Rattle.std.specs.Io.KnownBytes.{Appends};
ghost use Rattle.text_lines.specs.Writing.{Writes};
ghost use Rattle.lock_commands.specs.Totals.{sums_of, with_ring, AreTooLarge, sums_line, total_line, IsUntold};

use endless_ring::EndlessRing;
use held_locks::Locks;
use std::io::Write;
use text_lines::{Line, WriteFault, put, put_word};
use tool_parts::faults::ToolError;

/// The events and the grants of rings, over all their segments.
#[derive(Clone, Copy)]
pub(crate) struct Sums {
    events: u64,
    granted: u64,
}

/// These sums with one ring more; none if one of them has more than 64 bits.
fn with_ring(all: Sums, ring: &EndlessRing) -> Option<Sums>
    ensures some { IfSome result (λ sums. sums ≡ with_ring all ring.now) }
    ensures none { IsNone result → AreTooLarge (with_ring all ring.now) }
{
    let events = all.events.checked_add(ring.base().events)?;
    Some(Sums {
        events: events.checked_add(ring.segment().history().len() as u64)?,
        granted: all.granted.checked_add(ring.grants())?,
    })
}

/// The sums over the rings of all locks; none if one of them has more than 64 bits.
fn sums_of(locks: &Locks) -> Option<Sums>
    ensures some { IfSome result (λ sums. sums ≡ sums_of locks.now) }
    ensures none { IsNone result → AreTooLarge (sums_of locks.now) }
{
    let count = locks.count();
    let mut all = Sums {
        events: 0,
        granted: 0,
    };
    for lock in 0..count {
        all = with_ring(all, locks.ring(lock))?;
    }
    Some(all)
}

/// Writes the line of `locks` locks with these sums, by one write, so that lines of processes that share a file do not mix.
fn put_sums<W: Write>(out: &mut W, locks: u32, sums: Sums) -> Result<(), WriteFault>
    ensures { Writes (W.contents out.old) (W.contents out.new) result (sums_line locks sums) }
{
    let mut line = Line::new();
    line.byte(b'\n');
    line.number(sums.granted);
    put_word(&mut line, b" granted ");
    line.number(sums.events);
    put_word(&mut line, b" events ");
    line.number(locks as u64);
    put_word(&mut line, b"total locks ");
    put(out, line.as_bytes())
}

/// Writes the line of the sums over the locks.
pub(crate) fn tell_totals<'a, W: Write>(locks: &Locks, err: &mut W) -> Result<(), ToolError<'a>>
    ensures ok { OnOk result (Appends (W.contents err.old) (W.contents err.new)
        (total_line locks.now)) }
    ensures err { IfErr result
        (λ e. IsUntold locks.now (W.contents err.old) (W.contents err.new) e) }
{
    let Some(sums) = sums_of(locks) else {
        return Err(ToolError::TotalsTooLarge);
    };
    put_sums(err, locks.count(), sums)?;
    Ok(())
}
