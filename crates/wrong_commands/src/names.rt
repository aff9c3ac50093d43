//! Wrong answers to which lock a name is, and with the names of locks.

ghost use Rattle.std.specs.Prelude.{◌≡◌, ◌≢◌, ◌++◌, ◌↔◌, Some, IsTrue, IfSome, OnOk};
ghost use Rattle.held_locks.specs.declared.answers.Answer.TheVariants as answer;
ghost use Rattle.lock_protocol.specs.Answers.{answer_line};
ghost use Rattle.lock_protocol.specs.Names.{lock_named, IsName};

use held_locks::Answer;
use lock_protocol::{LockNames, MOST_NAME, put_answer};
use std::alloc::AllocError;

/// A name is that of one lock of the list: here it is taken for that of the lock after it. It gives up unless a lock has it.
pub fn takes_a_name_for_the_lock_after(names: &LockNames, name: &[u8]) -> Option<u32>
    ensures wrong { IfSome result (λ lock. lock_named names.now name.now ≡ Some lock → ⊥) }
{
    match names.find(name) {
        Some(lock) if lock < u32::MAX => Some(lock + 1),
        _ => None,
    }
}

/// A name that no lock has is that of none: here it is taken for that of the first lock. It gives up if a lock has it.
pub fn takes_a_foreign_name_for_a_lock(names: &LockNames, name: &[u8]) -> Option<u32>
    ensures wrong { IfSome result (λ lock. lock_named names.now name.now ≡ Some lock → ⊥) }
{
    match names.find(name) {
        Some(_) => None,
        None => Some(0),
    }
}

/// A name has at most 128 bytes: here one with more is let pass. It gives up unless there are more.
pub fn lets_a_long_name_pass(name: &[u8]) -> Option<bool>
    ensures wrong { IfSome result (λ passes. (IsTrue passes ↔ IsName name.now) → ⊥) }
{
    if name.len() > MOST_NAME {
        Some(true)
    } else {
        None
    }
}

/// An answer has the name of its lock: here it has another one.
#[tactic(auto, using(crate::proofs::OtherNames::one_name))]
pub fn answers_with_another_name(
    text: &mut Vec<u8>,
    client: u64,
    name: &[u8],
    other: &[u8],
) -> Result<(), AllocError>
    requires { other.now ≢ name.now }
    ensures wrong { OnOk result (text.new.items
        ≡ text.old.items ++ answer_line client name.now answer.Busy → ⊥) }
{
    put_answer(text, client, other, Answer::Busy)
}
