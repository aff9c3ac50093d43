//! The judge: each line is right, or it is refused.

ghost use Rattle.std.specs.Prelude.{◌≡◌, ◌↔◌, ℕ, ◌<◌, nat_lt, IsTrue, if◌then◌else◌, Some, None, length, map, slice_get, slice_set, true, IfOk, IfErr, OnOk, OnErr, string_bytes};
ghost use Rattle.name_check.specs.Entries.{Top, Bind, Free, Grant, Repair, End, File, begun};
ghost use Rattle.name_check.specs.Judged.{due_bound, closed, refused_bind, refusal};
ghost use Rattle.name_check.specs.Kept.{seen, entry_of, IsSound, IsNoted, IsRead, IsRefused, IsWrong, IsPut, IsNotNext, CannotBegin, unbegun};

use crate::begin::{NotJudged, add_pool, add_rings, begun_notes};
use crate::lines::{Due, Line, Ring};
use crate::notes::Notes;
use crate::refusals::{
    refused_bind, refused_end, refused_file, refused_free, refused_grant, refused_repair,
    refused_top,
};
use crate::scans::{are_same, restated, unbegun};
use crate::table::{Counts, Table};
use crate::wrongs::{Refused, Wrong};
use std::alloc::{AllocError, Global};
use std::marker::Model;

/// The number of all grants begins a file.
fn read_top(notes: &mut Notes, top: u64) -> Option<Wrong>
    ensures { IsRead (seen notes.old) (Top top) (seen notes.new) result }
{
    match refused_top(notes.due, notes.top, top) {
        Some(wrong) => Some(wrong),
        None => {
            notes.due = restated(&notes.rings, notes.fixed);
            None
        }
    }
}

/// A ring loses its name.
fn read_free(notes: &mut Notes, ring: usize) -> Option<Wrong>
    requires { IsSound true (seen notes.old) }
    ensures { IsRead (seen notes.old) (Free ring) (seen notes.new) result }
{
    if ring >= notes.rings.len() {
        return Some(Wrong::NoRing);
    }
    match refused_free(notes.due, ring) {
        Some(wrong) => Some(wrong),
        None => {
            notes.names.forget(ring);
            notes.due = Due::Nothing;
            None
        }
    }
}

/// A ring is granted.
fn read_grant(notes: &mut Notes, ring: usize) -> Option<Wrong>
    requires { IsSound true (seen notes.old) }
    ensures { IsRead (seen notes.old) (Grant ring) (seen notes.new) result }
{
    if ring >= notes.rings.len() {
        return Some(Wrong::NoRing);
    }
    let known = notes.rings[ring];
    match refused_grant(notes.due, notes.fixed, notes.top, ring, known) {
        Some(wrong) => Some(wrong),
        None => {
            notes.rings[ring] = Ring {
                grants: known.grants + 1,
                held: Some(known.grants + 1),
            };
            notes.top += 1;
            notes.due = Due::Nothing;
            None
        }
    }
}

/// A ring is repaired.
fn read_repair(notes: &mut Notes, ring: usize) -> Option<Wrong>
    requires { IsSound true (seen notes.old) }
    ensures { IsRead (seen notes.old) (Repair ring) (seen notes.new) result }
{
    if ring >= notes.rings.len() {
        return Some(Wrong::NoRing);
    }
    let known = notes.rings[ring];
    match refused_repair(notes.due, notes.top) {
        Some(wrong) => Some(wrong),
        None => {
            notes.rings[ring] = Ring {
                grants: known.grants + 1,
                held: known.held,
            };
            notes.top += 1;
            None
        }
    }
}

/// What has to come after the end of a hold.
fn due_ended(fixed: usize, ring: usize) -> Due
    ensures { result ≡ (if nat_lt ring fixed then Due.Nothing else Due.Handed ring) }
{
    if ring < fixed {
        Due::Nothing
    } else {
        Due::Handed(ring)
    }
}

/// The hold of a ring ends.
fn read_end(notes: &mut Notes, ring: usize) -> Option<Wrong>
    ensures { IsRead (seen notes.old) (End ring) (seen notes.new) result }
{
    if ring >= notes.rings.len() {
        return Some(Wrong::NoRing);
    }
    let known = notes.rings[ring];
    match refused_end(notes.due, known) {
        Some(wrong) => Some(wrong),
        None => {
            notes.rings[ring] = Ring {
                grants: known.grants,
                held: None,
            };
            notes.due = due_ended(notes.fixed, ring);
            None
        }
    }
}

/// The ring has the name, if it did not have it already.
fn put_name(
    names: &mut Table,
    alloc: Global,
    ring: usize,
    name: &str,
    counts: Counts,
) -> Result<(), AllocError>
    requires ring { ring < length names.old }
    requires fits { IsPut names.old ring (record {
      name = name.now;
      before = counts.before;
      floor = counts.floor;
    }) }
    ensures ok { OnOk result (names.new ≡ slice_set names.old ring
        (Some (record { name = name.now; before = counts.before; floor = counts.floor }))) }
    ensures err { OnErr result (names.new ≡ names.old) }
{
    if names.is_bound(ring, name, counts).is_some() {
        return Ok(());
    }
    names.bind(alloc, ring, name, counts)
}

/// What has to come after a binding.
fn due_bound(due: Due, ring: usize, rings: &[Ring]) -> Due
    requires { ring < length rings.now }
    ensures { result ≡ due_bound due ring rings.now }
{
    match due {
        Due::Restated(_) => restated(rings, ring + 1),
        _ => Due::Granted(ring),
    }
}

/// A name is bound that may be.
fn bind_name(
    notes: &mut Notes,
    alloc: Global,
    ring: usize,
    name: &str,
    counts: Counts,
    known: Ring,
) -> Result<(), Refused>
    requires sound { IsSound true (seen notes.old) }
    requires there { slice_get notes.old.rings.items ring ≡ Some known }
    requires right { refused_bind notes.old.due (seen notes.old) ring (record {
      name = name.now;
      before = counts.before;
      floor = counts.floor;
    }) known ≡ None }
    ensures ok { OnOk result (IsNoted (seen notes.old) (Bind ring (record {
      name = name.now;
      before = counts.before;
      floor = counts.floor;
    })) (seen notes.new)) }
    ensures err { IfErr result (λ e. IsRefused (seen notes.old) (Bind ring (record {
      name = name.now;
      before = counts.before;
      floor = counts.floor;
    })) (seen notes.new) e) }
{
    let Ok(()) = put_name(&mut notes.names, alloc, ring, name, counts) else {
        return Err(Refused::Memory);
    };
    notes.due = due_bound(notes.due, ring, &notes.rings);
    Ok(())
}

/// A name is bound.
fn read_bind(
    notes: &mut Notes,
    alloc: Global,
    ring: usize,
    name: &str,
    counts: Counts,
) -> Result<(), Refused>
    requires { IsSound true (seen notes.old) }
    ensures ok { OnOk result (IsNoted (seen notes.old) (Bind ring (record {
      name = name.now;
      before = counts.before;
      floor = counts.floor;
    })) (seen notes.new)) }
    ensures err { IfErr result (λ e. IsRefused (seen notes.old) (Bind ring (record {
      name = name.now;
      before = counts.before;
      floor = counts.floor;
    })) (seen notes.new) e) }
{
    if ring >= notes.rings.len() {
        return Err(Refused::Wrong(Wrong::NoRing));
    }
    let known = notes.rings[ring];
    match refused_bind(notes, ring, name, counts, known) {
        Some(wrong) => Err(Refused::Wrong(wrong)),
        None => bind_name(notes, alloc, ring, name, counts, known),
    }
}

/// The answer about a line that needs no memory.
fn answered(wrong: Option<Wrong>) -> Result<(), Refused>
    ensures ok { OnOk result (wrong ≡ None) }
    ensures err { IfErr result (λ e. IsWrong wrong e) }
{
    match wrong {
        Some(wrong) => Err(Refused::Wrong(wrong)),
        None => Ok(()),
    }
}

/// A hold that ended with the file is handed to nobody.
fn close_hold(names: &mut Table, due: Due)
    requires { (q : ℕ) → due ≡ Due.Handed q → q < length names.old }
    ensures { names.new ≡ closed due names.old }
{
    if let Due::Handed(ring) = due {
        names.forget(ring);
    }
}

/// A line.
fn read_line(notes: &mut Notes, alloc: Global, line: Line<'_>) -> Result<(), Refused>
    requires { IsSound true (seen notes.old) }
    ensures ok { OnOk result (IsNoted (seen notes.old) (entry_of line.entry) (seen notes.new)) }
    ensures err { IfErr result (λ e. IsRefused (seen notes.old) (entry_of line.entry)
        (seen notes.new) e) }
{
    match line {
        Line::Top(top) => answered(read_top(notes, top)),
        Line::Bind {
            ring,
            before,
            floor,
            name,
        } => read_bind(notes, alloc, ring as usize, name, Counts { before, floor }),
        Line::Free(ring) => answered(read_free(notes, ring as usize)),
        Line::Grant(ring) => answered(read_grant(notes, ring as usize)),
        Line::Repair(ring) => answered(read_repair(notes, ring as usize)),
        Line::End(ring) => answered(read_end(notes, ring as usize)),
        Line::Other => Ok(()),
    }
}

/// The judge of the names in a folder's files. Contracts see what it knows.
#[derive(Drop)]
pub struct Judge {
    notes: Notes,
}

impl Model for Judge {
    ghost use Rattle.std.specs.Prelude.{true};
    ghost use Rattle.name_check.specs.Entries.{Judged};
    ghost use Rattle.name_check.specs.Kept.{seen, IsSound};

    ghost Value = { Judged };

    ghost view = { λ j. seen j.notes };

    ghost invariant = { λ j. IsSound true (seen j.notes) };
}

/// The same, and what is known stays sound.
fn read_sound(notes: &mut Notes, alloc: Global, line: Line<'_>) -> Result<(), Refused>
    requires { IsSound true (seen notes.old) }
    ensures ok { OnOk result (IsNoted (seen notes.old) (entry_of line.entry) (seen notes.new)) }
    ensures err { IfErr result (λ e. IsRefused (seen notes.old) (entry_of line.entry)
        (seen notes.new) e) }
    ensures sound { IsSound true (seen notes.new) }
{
    read_line(notes, alloc, line)
}

/// The next file begins, which may, with this number of rings.
fn begin_file(notes: &mut Notes, count: usize) -> Result<(), Refused>
    requires sound { IsSound true (seen notes.old) }
    requires right { refusal (seen notes.old) (File count) ≡ None }
    ensures ok { OnOk result (IsNoted (seen notes.old) (File count) (seen notes.new)) }
    ensures err { IfErr result (λ e. IsNotNext (seen notes.old) (File count) e) }
{
    close_hold(&mut notes.names, notes.due);
    let Ok(()) = add_pool(&mut notes.names, count) else {
        return Err(Refused::Memory);
    };
    let Ok(()) = add_rings(&mut notes.rings, count) else {
        return Err(Refused::Memory);
    };
    notes.due = Due::Top;
    Ok(())
}

/// The next file begins, with this number of rings.
fn read_file(notes: &mut Notes, count: usize) -> Result<(), Refused>
    requires { IsSound true (seen notes.old) }
    ensures ok { OnOk result (IsNoted (seen notes.old) (File count) (seen notes.new)) }
    ensures err { IfErr result (λ e. IsNotNext (seen notes.old) (File count) e) }
{
    match refused_file(notes.due, notes.rings.len(), count) {
        Some(wrong) => Err(Refused::Wrong(wrong)),
        None => begin_file(notes, count),
    }
}

/// The same, and what is known stays sound.
fn read_next(notes: &mut Notes, count: usize) -> Result<(), Refused>
    requires { IsSound true (seen notes.old) }
    ensures ok { OnOk result (IsNoted (seen notes.old) (File count) (seen notes.new)) }
    ensures err { IfErr result (λ e. IsNotNext (seen notes.old) (File count) e) }
    ensures sound { OnOk result (IsSound true (seen notes.new)) }
{
    read_file(notes, count)
}

impl Judge {
    /// Before the first file that is judged: the names of the fixed locks, and of each ring what the file begins with, the grants
    /// before it and whether it carries a hold. The names of such holds are taken on trust.
    pub fn begin(alloc: Global, fixed: &[String], rings: &[Ring]) -> Result<Judge, NotJudged>
        ensures ok { IfOk result (λ j. j ≡ begun (map string_bytes fixed.now) rings.now) }
        ensures why { IfErr result (λ e. CannotBegin (map string_bytes fixed.now) rings.now e) }
    {
        let notes = match begun_notes(alloc, fixed, rings) {
            Ok(notes) => notes,
            Err(why) => return Err(why),
        };
        Ok(Judge { notes })
    }

    /// The next file begins, with this number of rings. If it cannot be the next one, the judge is let go.
    pub fn next(self, count: usize) -> Result<Judge, Refused>
        ensures ok { IfOk result (λ j. IsNoted self (File count) j) }
        ensures why { IfErr result (λ e. IsNotNext self (File count) e) }
    {
        let mut notes = self.notes;
        match read_next(&mut notes, count) {
            Ok(()) => Ok(Judge { notes }),
            Err(why) => Err(why),
        }
    }

    /// A line of the file. It is accepted exactly if it is right; otherwise nothing changes.
    pub fn line(&mut self, alloc: Global, line: Line<'_>) -> Result<(), Refused>
        ensures ok { OnOk result (IsNoted self.old (entry_of line.entry) self.new) }
        ensures why { IfErr result (λ e. IsRefused self.old (entry_of line.entry) self.new e) }
    {
        read_sound(&mut self.notes, alloc, line)
    }

    /// Whether these are the rings, as they are known.
    pub fn has(&self, rings: &[Ring]) -> bool
        ensures { IsTrue result ↔ (self.now.rings ≡ rings.now) }
    {
        are_same(&self.notes.rings, rings)
    }

    /// Why the last file may not end here, if it may not: its beginning is not whole. It may end after a binding that has no grant,
    /// and after the end of a hold.
    pub fn unbegun(&self) -> Option<Wrong>
        ensures { result ≡ unbegun self.now.due }
    {
        unbegun(self.notes.due)
    }
}
