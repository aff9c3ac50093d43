//! Reads the lines of holds that are handed over.

ghost use Rattle.std.specs.Prelude.{◌≡◌, ◌∷◌, ◌++◌, [], map, IfOk, IfErr};
ghost use Rattle.text_lines.specs.Reading.{Gives};
ghost use Rattle.lock_protocol.specs.NameReading.{name_at};
ghost use Rattle.folder_of_locks.specs.Holders.{Hold, hold_of, FitsLine, hold_line, AreHolders, IsNoLine, IsHoldersFault};
ghost use Rattle.folder_of_locks.specs.HolderSteps.{hold_at, in_text};

use lock_protocol::lock_name;
use std::alloc::{AllocError, Global};
use text_lines::{Stop, number64, word};

/// A hold that is handed over: the name of its lock, its token, and the client that gets it.
#[derive(Drop)]
pub struct NamedHold {
    pub name: Vec<u8>,
    pub token: u64,
    pub client: u64,
}

/// The same, where the name is among the bytes of a text.
#[derive(Clone, Copy)]
struct HoldText<'t> {
    name: &'t [u8],
    token: u64,
    client: u64,
}

/// Why a text has not the holders of holds.
#[derive(Clone, Copy)]
pub enum HoldersError {
    /// The first line, from 1, that is not the line of a hold.
    Line(u64),
    OutOfMemory,
}

/// The name before a space, among readers that may take memory.
fn spaced_name(bytes: &[u8]) -> Result<(&[u8], &[u8]), Stop>
    ensures { Gives (λ x. (x.0.now, x.1.now)) result (name_at 32 bytes.now) }
{
    match lock_name(bytes, b' ') {
        Ok(read) => Ok(read),
        Err(fault) => Err(Stop::Fault(fault)),
    }
}

/// The hold of the line that comes.
#[tactic(auto, unfolding(crate::specs::HolderSteps::hold_at))]
fn hold(bytes: &[u8]) -> Result<(HoldText<'_>, &[u8]), Stop>
    ensures { Gives (λ x. (in_text x.0, x.1.now)) result (hold_at bytes.now) }
{
    let rest = word(bytes, b"hold ")?;
    let (name, rest) = spaced_name(rest)?;
    let (token, rest) = number64(rest, b' ')?;
    let (client, rest) = number64(rest, b'\n')?;
    let text = HoldText {
        name,
        token,
        client,
    };
    Ok((text, rest))
}

/// A hold with its name in memory of its own.
fn named(alloc: Global, text: HoldText<'_>) -> Result<NamedHold, AllocError>
    ensures { IfOk result (λ hold. hold_of hold ≡ in_text text.entry) }
{
    let mut name = Vec::new(alloc);
    name.extend_from_slice(text.name)?;
    Ok(NamedHold {
        name,
        token: text.token,
        client: text.client,
    })
}

/// Adds the hold of the line that comes, and returns the bytes after that line.
fn add_hold<'t>(
    alloc: Global,
    holders: &mut Vec<NamedHold>,
    bytes: &'t [u8],
) -> Result<&'t [u8], HoldersError>
    ensures ok { IfOk result (λ rest. (h : Hold)
        × FitsLine h
        × (bytes.now ≡ hold_line h ++ rest.now)
        × (map hold_of holders.new.items ≡ map hold_of holders.old.items ++ h ∷ [])) }
    ensures err { IfErr result (λ e. IsNoLine (map hold_of holders.old.items) bytes.now e) }
{
    let (text, rest) = match hold(bytes) {
        Ok(read) => read,
        Err(Stop::Fault(_)) => return Err(HoldersError::Line(holders.len() as u64 + 1)),
        Err(Stop::Memory) => return Err(HoldersError::OutOfMemory),
    };
    let Ok(holder) = named(alloc, text) else {
        return Err(HoldersError::OutOfMemory);
    };
    if holders.push(holder).is_err() {
        return Err(HoldersError::OutOfMemory);
    }
    Ok(rest)
}

/// The holds of a text: a line `hold NAME TOKEN CLIENT` for each, and nothing else.
///
/// # Errors
///
/// `Line` with the first line that is something else; `OutOfMemory`.
pub fn read_holders(alloc: Global, bytes: &[u8]) -> Result<Vec<NamedHold>, HoldersError>
    ensures ok { IfOk result (λ holders. AreHolders bytes.now (map hold_of holders.items)) }
    ensures err { IfErr result (λ e. IsHoldersFault bytes.now e) }
{
    let mut holders = Vec::new(alloc);
    let mut rest = bytes;
    while !rest.is_empty() {
        rest = match add_hold(alloc, &mut holders, rest) {
            Ok(more) => more,
            Err(error) => return Err(error),
        };
    }
    Ok(holders)
}
