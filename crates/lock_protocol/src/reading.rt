//! The lines, as they are read. It takes no memory.

ghost use Rattle.std.specs.Prelude.{◌≡◌, ◌≤◌, ◌<◌, List, ℕ, ◌^◌, length, Err, IfSome, IsNone};
ghost use Rattle.std.specs.Option.{option_map};
ghost use Rattle.text_lines.specs.Reading.{whole_at};
ghost use Rattle.text_lines.specs.Limits.{line_limit};
ghost use Rattle.text_lines.specs.Exact.{Returns};
ghost use Rattle.lock_protocol.specs.Asks.{seen};
ghost use Rattle.text_lines.specs.declared.fault.Fault.{Fault as Stop};
ghost use Rattle.text_lines.specs.LongNumbers.{order_at};
ghost use Rattle.lock_protocol.specs.Views.{input_of};
ghost use Rattle.lock_protocol.specs.Inputs.{front_of, IsFront, IsReadAs};
ghost use Rattle.lock_protocol.specs.Readers.{IsAskedAs, IsUnread};
ghost use Rattle.lock_protocol.specs.Readers.{acquire_at, try_at, release_at, cancel_at, corrupt_at, c_at, leave_at, stats_at, ask_at};

use crate::inputs::{Ask, Fault as InputFault, Input};
use crate::name_reading::lock_name;
use text_lines::{Fault, LINE_LIMIT, fixed_word, number};

#[tactic(auto, unfolding(crate::specs::Readers::acquire_at))]
fn acquire(bytes: &[u8]) -> Result<(Option<Ask<'_>>, &[u8]), Fault>
    ensures { Returns (λ x. (option_map seen x.0, x.1.now)) result (acquire_at bytes.now) }
{
    let rest = fixed_word(bytes, b"acquire ")?;
    let (name, rest) = lock_name(rest, b' ')?;
    let (label, rest) = number(rest, b'\n')?;
    let Some(label) = label else {
        return Ok((None, rest));
    };
    Ok((Some(Ask::Acquire { name, label }), rest))
}

#[tactic(auto, unfolding(crate::specs::Readers::try_at))]
fn try_acquire(bytes: &[u8]) -> Result<(Option<Ask<'_>>, &[u8]), Fault>
    ensures { Returns (λ x. (option_map seen x.0, x.1.now)) result (try_at bytes.now) }
{
    let rest = fixed_word(bytes, b"try ")?;
    let (name, rest) = lock_name(rest, b' ')?;
    let (label, rest) = number(rest, b'\n')?;
    let Some(label) = label else {
        return Ok((None, rest));
    };
    Ok((Some(Ask::Try { name, label }), rest))
}

#[tactic(auto, unfolding(crate::specs::Readers::release_at))]
fn release(bytes: &[u8]) -> Result<(Option<Ask<'_>>, &[u8]), Fault>
    ensures { Returns (λ x. (option_map seen x.0, x.1.now)) result (release_at bytes.now) }
{
    let rest = fixed_word(bytes, b"release ")?;
    let (name, rest) = lock_name(rest, b' ')?;
    let (token, rest) = number(rest, b'\n')?;
    let Some(token) = token else {
        return Ok((None, rest));
    };
    Ok((Some(Ask::Release { name, token }), rest))
}

#[tactic(auto, unfolding(crate::specs::Readers::cancel_at))]
fn cancel(bytes: &[u8]) -> Result<(Option<Ask<'_>>, &[u8]), Fault>
    ensures { Returns (λ x. (option_map seen x.0, x.1.now)) result (cancel_at bytes.now) }
{
    let rest = fixed_word(bytes, b"ancel ")?;
    let (name, rest) = lock_name(rest, b'\n')?;
    Ok((Some(Ask::Cancel { name }), rest))
}

#[tactic(auto, unfolding(crate::specs::Readers::corrupt_at))]
fn corrupt(bytes: &[u8]) -> Result<(Option<Ask<'_>>, &[u8]), Fault>
    ensures { Returns (λ x. (option_map seen x.0, x.1.now)) result (corrupt_at bytes.now) }
{
    let rest = fixed_word(bytes, b"orrupt ")?;
    let (name, rest) = lock_name(rest, b' ')?;
    let (machine, rest) = number(rest, b' ')?;
    let (value, rest) = number(rest, b'\n')?;
    let (Some(machine), Some(value)) = (machine, value) else {
        return Ok((None, rest));
    };
    let ask = Ask::Corrupt {
        name,
        machine,
        value,
    };
    Ok((Some(ask), rest))
}

#[tactic(auto, unfolding(crate::specs::Readers::c_at))]
fn begins_with_c(bytes: &[u8]) -> Result<(Option<Ask<'_>>, &[u8]), Fault>
    ensures { Returns (λ x. (option_map seen x.0, x.1.now)) result (c_at bytes.now) }
{
    let rest = fixed_word(bytes, b"c")?;
    match rest {
        [] => Err(Fault::Short),
        [b'a', ..] => cancel(rest),
        [b'o', ..] => corrupt(rest),
        [_, ..] => Err(Fault::Bad(rest.len())),
    }
}

#[tactic(auto, unfolding(crate::specs::Readers::leave_at))]
fn leave(bytes: &[u8]) -> Result<(Option<Ask<'_>>, &[u8]), Fault>
    ensures { Returns (λ x. (option_map seen x.0, x.1.now)) result (leave_at bytes.now) }
{
    let rest = fixed_word(bytes, b"leave\n")?;
    Ok((Some(Ask::Leave), rest))
}

#[tactic(auto, unfolding(crate::specs::Readers::stats_at))]
fn stats(bytes: &[u8]) -> Result<(Option<Ask<'_>>, &[u8]), Fault>
    ensures { Returns (λ x. (option_map seen x.0, x.1.now)) result (stats_at bytes.now) }
{
    let rest = fixed_word(bytes, b"stats ")?;
    let (name, rest) = lock_name(rest, b'\n')?;
    Ok((Some(Ask::Stats { name }), rest))
}

#[tactic(auto, unfolding(crate::specs::Readers::ask_at))]
fn front_ask(bytes: &[u8]) -> Result<(Option<Ask<'_>>, &[u8]), Fault>
    ensures { Returns (λ x. (option_map seen x.0, x.1.now)) result (ask_at bytes.now) }
{
    match bytes {
        [] => Err(Fault::Short),
        [b'a', ..] => acquire(bytes),
        [b't', ..] => try_acquire(bytes),
        [b'r', ..] => release(bytes),
        [b'c', ..] => begins_with_c(bytes),
        [b'l', ..] => leave(bytes),
        [b's', ..] => stats(bytes),
        [_, ..] => Err(Fault::Bad(bytes.len())),
    }
}

/// What is heard of the ask that these bytes are.
#[tactic(auto, unfolding(text_lines::specs::Reading::whole_at))]
fn whole_ask(bytes: &[u8]) -> Result<Option<Ask<'_>>, Fault>
    ensures { Returns (λ c. option_map seen c) result (whole_at ask_at bytes.now) }
{
    let (ask, rest) = front_ask(bytes)?;
    match rest {
        [] => Ok(ask),
        [_, ..] => Err(Fault::Bad(rest.len())),
    }
}

/// What a client asks by the rest of its line.
fn asked(client: u64, rest: &[u8]) -> Input<'_>
    ensures { IsAskedAs client rest.now (input_of result) }
{
    match whole_ask(rest) {
        Ok(Some(ask)) => Input::Asked { client, ask },
        Ok(None) => Input::Refused {
            client,
            why: InputFault::Number,
        },
        Err(_) => Input::Refused {
            client,
            why: InputFault::Syntax,
        },
    }
}

/// The connection whose number these bytes begin with.
fn connection(bytes: &[u8]) -> Option<u64>
    ensures some { IfSome result (λ c. (c < 2 ^ 64) × IsFront c bytes.now) }
    ensures none { IsNone result → (c : ℕ) → c < 2 ^ 64 → IsFront c bytes.now → ⊥ }
{
    match number(bytes, b' ') {
        Ok((client, _)) => client,
        Err(_) => match number(bytes, b'\n') {
            Ok((client, _)) => client,
            Err(_) => None,
        },
    }
}

/// A line that asks nothing, of the connection whose number its front begins with.
fn unread(front: &[u8]) -> Input<'_>
    ensures { IsUnread front.now (input_of result) }
{
    match connection(front) {
        Some(client) => Input::Refused {
            client,
            why: InputFault::Syntax,
        },
        None => Input::Nobody,
    }
}

/// The part of a long line that is looked at.
fn front(line: &[u8]) -> &[u8]
    requires { line_limit < length line.now }
    ensures { result.now ≡ front_of line.now }
{
    &line[..LINE_LIMIT]
}

/// What is read of a line, which has its LF.
pub fn read_input(line: &[u8]) -> Input<'_>
    ensures { IsReadAs line.now (input_of result) }
{
    if line.len() > LINE_LIMIT {
        return unread(front(line));
    }
    match number(line, b' ') {
        Ok((Some(client), rest)) => asked(client, rest),
        Ok((None, _)) => Input::Nobody,
        Err(_) => unread(line),
    }
}
