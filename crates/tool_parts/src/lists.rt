//! Lists of numbers, as `step` takes them.

ghost use Rattle.std.specs.Prelude.{◌≡◌, ℕ, [], ◌∷◌, ◌++◌, ◌<◌, ◌^◌, decimal, OnOk, IfOk, IfErr};
ghost use Rattle.tool_parts.specs.Faults.{IsPieceRefusal, IsListRefusal};
ghost use Rattle.tool_parts.specs.ListWords.{IsListText};

use crate::faults::ToolError;
use std::alloc::Global;
use text_lines::read_decimal;

/// Adds the number that a piece of a list spells.
fn add_number<'a>(numbers: &mut Vec<u32>, piece: &str) -> Result<(), ToolError<'a>>
    ensures ok { OnOk result ((n : ℕ)
        × (n < 2 ^ 32)
        × (decimal n ≡ piece.now)
        × (numbers.new.items ≡ numbers.old.items ++ n ∷ [])) }
    ensures err { IfErr result (λ e. IsPieceRefusal piece.now e) }
{
    let Some(number) = read_decimal(piece) else {
        return Err(ToolError::BadList);
    };
    if numbers.push(number).is_err() {
        return Err(ToolError::OutOfMemory);
    }
    Ok(())
}

/// The numbers of a list: one or more, separated by single commas.
///
/// # Errors
///
/// `BadList` where the text is not such a list, and `OutOfMemory`.
pub fn read_list<'a>(alloc: Global, text: &str) -> Result<Vec<u32>, ToolError<'a>>
    ensures ok { IfOk result (λ numbers. IsListText text.now numbers.items) }
    ensures err { IfErr result (λ e. IsListRefusal text.now e) }
{
    let mut numbers = Vec::new(alloc);
    let mut rest = text;
    while let Some((piece, more)) = rest.split_once(',') {
        add_number(&mut numbers, piece)?;
        rest = more;
    }
    add_number(&mut numbers, rest)?;
    Ok(numbers)
}
