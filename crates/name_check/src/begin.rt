//! The first file that is judged, and the rings of a later one.

ghost use Rattle.std.specs.Prelude.{◌≡◌, ℕ, ◌-◌, ◌≤◌, ◌++◌, ◌∷◌, ◌<◌, ◌⊎◌, [], None, Some, true, length, map, IfOk, IfErr, OnOk, string_bytes};
ghost use Rattle.name_bindings.specs.Bindings.{found, fixed_names, frees, AreDistinct};
ghost use Rattle.name_check.specs.Entries.{begun, fresh_rings, grants_in};
ghost use Rattle.name_check.specs.Judged.{most_grants};
ghost use Rattle.name_check.specs.Kept.{seen, CannotBegin, IsSound};
ghost use Rattle.name_check.specs.declared.begin.NotJudged.{NotJudged};

use crate::lines::{Due, Ring};
use crate::notes::Notes;
use crate::table::{Counts, Table};
use std::alloc::{AllocError, Global};

/// Why a folder cannot be judged.
#[derive(Clone, Copy, Debug, PartialEq, Eq)]
pub enum NotJudged {
    /// There are fewer rings than fixed locks.
    Rings,
    /// Two fixed locks have one name.
    Twice,
    /// The rings had more grants than can be counted.
    Full,
    /// There is no memory for the rings.
    Memory,
}

/// How many grants the rings had.
fn grants_in(rings: &[Ring]) -> Result<u64, NotJudged>
    ensures ok { IfOk result (λ n. n ≡ grants_in rings.now) }
    ensures why { IfErr result (λ e. (e ≡ NotJudged.Full) × (most_grants < grants_in rings.now)) }
{
    let mut sum = 0u64;
    for ring in rings {
        let room = u64::MAX - sum;
        if ring.grants > room {
            return Err(NotJudged::Full);
        }
        sum += ring.grants;
    }
    Ok(sum)
}

/// A ring more, which has the name of a fixed lock.
fn add_name(table: &mut Table, alloc: Global, name: &str) -> Result<(), AllocError>
    requires { found name.now table.old ≡ None }
    ensures { OnOk result (table.new ≡ table.old ++ Some (record {
      name = name.now;
      before = 0;
      floor = 0;
    }) ∷ []) }
{
    let ring = table.count();
    let Ok(()) = table.add_free() else {
        return Err(AllocError);
    };
    let counts = Counts {
        before: 0,
        floor: 0,
    };
    table.bind(alloc, ring, name, counts)
}

/// The names of fixed locks.
fn add_names(table: &mut Table, alloc: Global, names: &[String]) -> Result<(), NotJudged>
    requires { table.old ≡ [] }
    ensures ok { OnOk result (table.new ≡ fixed_names (map string_bytes names.now)) }
    ensures why { IfErr result (λ e. ((e ≡ NotJudged.Twice)
        × ¬ AreDistinct (map string_bytes names.now)) ⊎ (e ≡ NotJudged.Memory)) }
{
    for name in names {
        if table.find(name.as_str()).is_some() {
            return Err(NotJudged::Twice);
        }
        let Ok(()) = add_name(table, alloc, name.as_str()) else {
            return Err(NotJudged::Memory);
        };
    }
    Ok(())
}

/// Rings without names, until there is this number of rings.
pub(crate) fn add_pool(table: &mut Table, count: usize) -> Result<(), AllocError>
    ensures { OnOk result (table.new ≡ table.old ++ frees (count - length table.old)) }
{
    while table.count() < count {
        let Ok(()) = table.add_free() else {
            return Err(AllocError);
        };
    }
    Ok(())
}

/// Rings that were never granted, until there is this number of rings.
pub(crate) fn add_rings(rings: &mut Vec<Ring>, count: usize) -> Result<(), AllocError>
    ensures { OnOk result (rings.new.items
        ≡ rings.old.items ++ fresh_rings (count - length rings.old.items)) }
{
    while rings.len() < count {
        let fresh = Ring {
            grants: 0,
            held: None,
        };
        let Ok(()) = rings.push(fresh) else {
            return Err(AllocError);
        };
    }
    Ok(())
}

/// The names of fixed locks, and rings without names up to this number.
fn begun_table(alloc: Global, names: &[String], count: usize) -> Result<Table, NotJudged>
    requires { length names.now ≤ count }
    ensures ok { IfOk result (λ table. table
        ≡ fixed_names (map string_bytes names.now) ++ frees (count - length names.now)) }
    ensures apart { OnOk result (AreDistinct (map string_bytes names.now)) }
    ensures why { IfErr result (λ e. ((e ≡ NotJudged.Twice)
        × ¬ AreDistinct (map string_bytes names.now)) ⊎ (e ≡ NotJudged.Memory)) }
{
    let mut table = Table::none(alloc);
    match add_names(&mut table, alloc, names) {
        Ok(()) => {}
        Err(why) => return Err(why),
    }
    let Ok(()) = add_pool(&mut table, count) else {
        return Err(NotJudged::Memory);
    };
    table.are_apart();
    Ok(table)
}

/// What is known before the first line.
pub(crate) fn begun_notes(
    alloc: Global,
    fixed: &[String],
    rings: &[Ring],
) -> Result<Notes, NotJudged>
    ensures ok { IfOk result (λ notes. seen notes ≡ begun (map string_bytes fixed.now) rings.now) }
    ensures sound { IfOk result (λ notes. IsSound true (seen notes)) }
    ensures why { IfErr result (λ e. CannotBegin (map string_bytes fixed.now) rings.now e) }
{
    if rings.len() < fixed.len() {
        return Err(NotJudged::Rings);
    }
    let top = match grants_in(rings) {
        Ok(top) => top,
        Err(why) => return Err(why),
    };
    let names = match begun_table(alloc, fixed, rings.len()) {
        Ok(names) => names,
        Err(why) => return Err(why),
    };
    let Ok(rings) = Vec::from_slice(alloc, rings) else {
        return Err(NotJudged::Memory);
    };
    Ok(Notes {
        rings,
        names,
        fixed: fixed.len(),
        top,
        due: Due::Top,
    })
}
