//! The commands, as lines.

ghost use Rattle.std.specs.Prelude.{◌≡◌, ◌≤◌, length};
ghost use Rattle.std.specs.Option.{option_map};
ghost use Rattle.text_lines.specs.Reading.{Gives, whole_at};
ghost use Rattle.ring_service.specs.Commands.{seen, IsReadAs};
ghost use Rattle.ring_service.specs.Readers.{pass_at, try_at, corrupt_at, survey_at, glance_at, group_at, machines_at, gaps, name_at, end_of_line, save_at, g_at, s_at, command_at};

use std::alloc::Global;
use text_lines::{Fault, Stop, decimal, nothing_more, place, places, word};

/// A command, by its numbers.
#[derive(Drop)]
pub enum Command {
    /// A pass by a machine, for a seat.
    Pass {
        ring: u32,
        seat: u32,
        machine: u32,
        order: u64,
    },
    /// A pass by a machine, for a seat, if the machine is privileged; otherwise it is not an event.
    Try {
        ring: u32,
        seat: u32,
        machine: u32,
        order: u64,
    },
    /// A pass by a group of machines at once.
    Group {
        ring: u32,
        seat: u32,
        order: u64,
        machines: Vec<u32>,
    },
    /// A fault: a value is written into a machine.
    Corrupt {
        ring: u32,
        seat: u32,
        machine: u32,
        value: u32,
    },
    /// A survey, which the seat's log keeps.
    Survey {
        ring: u32,
        seat: u32,
    },
    /// A survey that nobody keeps.
    Glance {
        ring: u32,
    },
    /// All rings are to be saved in the file that the line names.
    Save,
}

#[tactic(auto, unfolding(crate::specs::Readers::pass_at))]
fn pass(bytes: &[u8]) -> Result<(Option<Command>, &[u8]), Stop>
    ensures { Gives (λ x. (option_map seen x.0, x.1.now)) result (pass_at bytes.now) }
{
    let rest = word(bytes, b"pass ")?;
    let (ring, rest) = place(rest, b' ')?;
    let (seat, rest) = place(rest, b' ')?;
    let (machine, rest) = place(rest, b' ')?;
    let (order, rest) = decimal(rest, b'\n')?;
    let Some(order) = order else {
        return Ok((None, rest));
    };
    let command = Command::Pass {
        ring,
        seat,
        machine,
        order,
    };
    Ok((Some(command), rest))
}

#[tactic(auto, unfolding(crate::specs::Readers::try_at))]
fn try_pass(bytes: &[u8]) -> Result<(Option<Command>, &[u8]), Stop>
    ensures { Gives (λ x. (option_map seen x.0, x.1.now)) result (try_at bytes.now) }
{
    let rest = word(bytes, b"try ")?;
    let (ring, rest) = place(rest, b' ')?;
    let (seat, rest) = place(rest, b' ')?;
    let (machine, rest) = place(rest, b' ')?;
    let (order, rest) = decimal(rest, b'\n')?;
    let Some(order) = order else {
        return Ok((None, rest));
    };
    let command = Command::Try {
        ring,
        seat,
        machine,
        order,
    };
    Ok((Some(command), rest))
}

#[tactic(auto, unfolding(crate::specs::Readers::corrupt_at))]
fn corrupt(bytes: &[u8]) -> Result<(Option<Command>, &[u8]), Stop>
    ensures { Gives (λ x. (option_map seen x.0, x.1.now)) result (corrupt_at bytes.now) }
{
    let rest = word(bytes, b"corrupt ")?;
    let (ring, rest) = place(rest, b' ')?;
    let (seat, rest) = place(rest, b' ')?;
    let (machine, rest) = place(rest, b' ')?;
    let (value, rest) = place(rest, b'\n')?;
    let command = Command::Corrupt {
        ring,
        seat,
        machine,
        value,
    };
    Ok((Some(command), rest))
}

/// How many spaces are before the end of the line.
fn gaps(bytes: &[u8]) -> usize
    ensures { (result ≡ gaps bytes.now) × (result ≤ length bytes.now) }
{
    let mut count = 0;
    for byte in bytes {
        if *byte == b'\n' {
            return count;
        }
        if *byte == b' ' {
            count += 1;
        }
    }
    count
}

/// The numbers up to the end of the line, one at least.
#[tactic(auto, unfolding(crate::specs::Readers::machines_at))]
fn machines(alloc: Global, bytes: &[u8]) -> Result<(Vec<u32>, &[u8]), Stop>
    ensures { Gives (λ x. (x.0.items, x.1.now)) result (machines_at bytes.now) }
{
    places(alloc, gaps(bytes) + 1, bytes)
}

#[tactic(auto, unfolding(crate::specs::Readers::group_at))]
fn group(alloc: Global, bytes: &[u8]) -> Result<(Option<Command>, &[u8]), Stop>
    ensures { Gives (λ x. (option_map seen x.0, x.1.now)) result (group_at bytes.now) }
{
    let rest = word(bytes, b"roup ")?;
    let (ring, rest) = place(rest, b' ')?;
    let (seat, rest) = place(rest, b' ')?;
    let (order, rest) = decimal(rest, b' ')?;
    let (machines, rest) = machines(alloc, rest)?;
    let Some(order) = order else {
        return Ok((None, rest));
    };
    let command = Command::Group {
        ring,
        seat,
        order,
        machines,
    };
    Ok((Some(command), rest))
}

#[tactic(auto, unfolding(crate::specs::Readers::glance_at))]
fn glance(bytes: &[u8]) -> Result<(Option<Command>, &[u8]), Stop>
    ensures { Gives (λ x. (option_map seen x.0, x.1.now)) result (glance_at bytes.now) }
{
    let rest = word(bytes, b"lance ")?;
    let (ring, rest) = place(rest, b'\n')?;
    Ok((Some(Command::Glance { ring }), rest))
}

#[tactic(auto, unfolding(crate::specs::Readers::survey_at))]
fn survey(bytes: &[u8]) -> Result<(Option<Command>, &[u8]), Stop>
    ensures { Gives (λ x. (option_map seen x.0, x.1.now)) result (survey_at bytes.now) }
{
    let rest = word(bytes, b"urvey ")?;
    let (ring, rest) = place(rest, b' ')?;
    let (seat, rest) = place(rest, b'\n')?;
    Ok((Some(Command::Survey { ring, seat }), rest))
}

/// The bytes after the end of the line.
fn end_of_line(bytes: &[u8]) -> Result<&[u8], Stop>
    ensures { Gives (λ rest. rest.now) result (end_of_line bytes.now) }
{
    for (i, byte) in bytes.iter().enumerate() {
        if *byte == b'\n' {
            return Ok(&bytes[i + 1..]);
        }
    }
    Err(Stop::Fault(Fault::Short))
}

/// Succeeds if the rest of the line is a name, of a byte at least.
#[tactic(auto, unfolding(crate::specs::Readers::name_at))]
fn name(bytes: &[u8]) -> Result<&[u8], Stop>
    ensures { Gives (λ rest. rest.now) result (name_at bytes.now) }
{
    match bytes {
        [] => Err(Stop::Fault(Fault::Short)),
        [b'\n', ..] => Err(Stop::Fault(Fault::Bad(bytes.len()))),
        [_, rest @ ..] => end_of_line(rest),
    }
}

#[tactic(auto, unfolding(crate::specs::Readers::save_at))]
fn save(bytes: &[u8]) -> Result<(Option<Command>, &[u8]), Stop>
    ensures { Gives (λ x. (option_map seen x.0, x.1.now)) result (save_at bytes.now) }
{
    let rest = word(bytes, b"ave ")?;
    let rest = name(rest)?;
    Ok((Some(Command::Save), rest))
}

#[tactic(auto, unfolding(crate::specs::Readers::g_at))]
fn begins_with_g(alloc: Global, bytes: &[u8]) -> Result<(Option<Command>, &[u8]), Stop>
    ensures { Gives (λ x. (option_map seen x.0, x.1.now)) result (g_at bytes.now) }
{
    let rest = word(bytes, b"g")?;
    match rest {
        [] => Err(Stop::Fault(Fault::Short)),
        [b'r', ..] => group(alloc, rest),
        [b'l', ..] => glance(rest),
        [_, ..] => Err(Stop::Fault(Fault::Bad(rest.len()))),
    }
}

#[tactic(auto, unfolding(crate::specs::Readers::s_at))]
fn begins_with_s(bytes: &[u8]) -> Result<(Option<Command>, &[u8]), Stop>
    ensures { Gives (λ x. (option_map seen x.0, x.1.now)) result (s_at bytes.now) }
{
    let rest = word(bytes, b"s")?;
    match rest {
        [] => Err(Stop::Fault(Fault::Short)),
        [b'u', ..] => survey(rest),
        [b'a', ..] => save(rest),
        [_, ..] => Err(Stop::Fault(Fault::Bad(rest.len()))),
    }
}

#[tactic(auto, unfolding(crate::specs::Readers::command_at))]
fn front_command(alloc: Global, bytes: &[u8]) -> Result<(Option<Command>, &[u8]), Stop>
    ensures { Gives (λ x. (option_map seen x.0, x.1.now)) result (command_at bytes.now) }
{
    match bytes {
        [] => Err(Stop::Fault(Fault::Short)),
        [b'p', ..] => pass(bytes),
        [b't', ..] => try_pass(bytes),
        [b'c', ..] => corrupt(bytes),
        [b'g', ..] => begins_with_g(alloc, bytes),
        [b's', ..] => begins_with_s(bytes),
        [_, ..] => Err(Stop::Fault(Fault::Bad(bytes.len()))),
    }
}

/// The command as it is heard, where these bytes are its line.
#[tactic(auto, unfolding(text_lines::specs::Reading::whole_at))]
fn whole_command(alloc: Global, line: &[u8]) -> Result<Option<Command>, Stop>
    ensures { Gives (λ c. option_map seen c) result (whole_at command_at line.now) }
{
    let (command, rest) = front_command(alloc, line)?;
    nothing_more(rest)?;
    Ok(command)
}

/// The command whose line this is, its LF included; none if its order is 2 to the power 64 or more, so that no call has it.
///
/// # Errors
///
/// A fault where it is the line of no command; `Memory` where there was no room for a group's machines.
#[tactic(auto, using(crate::proofs::Reading::read_as))]
pub fn read_command(alloc: Global, line: &[u8]) -> Result<Option<Command>, Stop>
    ensures { IsReadAs line.now result }
{
    whole_command(alloc, line)
}
