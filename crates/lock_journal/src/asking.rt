//! Asks, as locks hear them.

ghost use Rattle.std.specs.Prelude.{◌≡◌};
ghost use Rattle.std.specs.Option.{option_map};
ghost use Rattle.text_lines.specs.LongNumbers.{in_32_bits};
ghost use Rattle.lock_protocol.specs.Asks.{seen};
ghost use Rattle.held_locks.specs.Asked.{asked};
ghost use Rattle.lock_journal.specs.Asking.{one_ask, is_off, is_lack};
ghost use Rattle.lock_journal.specs.Answering.{denial_of};

use held_locks::{Answer, OneAsk, Refusal};
use lock_protocol::{Ask, Denial, Fault};

/// This number, or the greatest one of 32 bits if it is greater.
fn narrow(number: u64) -> u32
    ensures { result ≡ in_32_bits number }
{
    if number < u32::MAX as u64 {
        number as u32
    } else {
        u32::MAX
    }
}

/// Whether this is a fault, where none is permitted.
pub fn is_off(faults: bool, ask: Ask<'_>) -> bool
    ensures { result ≡ is_off faults (seen ask.entry) }
{
    match ask {
        Ask::Corrupt { .. } => !faults,
        _ => false,
    }
}

/// The name of the lock that is asked, and what; none where all are left.
pub fn one_ask(ask: Ask<'_>) -> Option<(&[u8], OneAsk)>
    ensures { option_map (λ x. (x.0.now, asked x.1)) result ≡ one_ask (seen ask.entry) }
{
    match ask {
        Ask::Acquire { name, label } => Some((name, OneAsk::Acquire { label })),
        Ask::Try { name, label } => Some((name, OneAsk::Try { label })),
        Ask::Release { name, token } => Some((name, OneAsk::Release { token })),
        Ask::Cancel { name } => Some((name, OneAsk::Cancel)),
        Ask::Leave => None,
        Ask::Corrupt {
            name,
            machine,
            value,
        } => {
            let machine = narrow(machine);
            let value = narrow(value);
            Some((name, OneAsk::Corrupt { machine, value }))
        }
        Ask::Stats { name } => Some((name, OneAsk::Stats)),
    }
}

/// Whether the asker is refused for lack of room or of memory.
pub fn is_lack(own: Option<Answer>) -> bool
    ensures { result ≡ is_lack own }
{
    match own {
        Some(Answer::Refused(Refusal::Full | Refusal::Memory)) => true,
        _ => false,
    }
}

/// The refusal of a line that has a fault.
pub fn denial_of(why: Fault) -> Denial
    ensures { result ≡ denial_of why }
{
    match why {
        Fault::Syntax => Denial::Syntax,
        Fault::Number => Denial::Number,
    }
}
