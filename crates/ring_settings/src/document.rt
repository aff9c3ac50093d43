ghost use Rattle.std.specs.Prelude.{◌≡◌, ◌≢◌, ◌≤◌, IfOk, IfErr, Ok, Err, map};
ghost use Rattle.ring_settings.specs.Seats.{settings_of_object, settings_of};
ghost use Rattle.serde_json.specs.View.{view};

use crate::contents::{Settings, sizes_of};
use crate::faults::{Field, SettingsError};
use crate::members::read_document;
use crate::rings::read_rings;
use crate::seats::read_seats;
use serde_json::Value;
use std::alloc::Global;

/// The settings that an object is.
fn read_object(alloc: Global, document: &Value) -> Result<Settings, SettingsError>
    ensures ok { IfOk result (λ s. settings_of_object (view document.now) ≡ Ok s) }
    ensures err { IfErr result (λ e. e ≢ SettingsError.OutOfMemory
        → settings_of_object (view document.now) ≡ Err e) }
{
    let rings = read_rings(alloc, document)?;
    let Ok(sizes) = sizes_of(alloc, rings.as_slice()) else {
        return Err(SettingsError::OutOfMemory);
    };
    let seats = read_seats(alloc, sizes.as_slice(), document)?;
    Ok(Settings::new(rings, seats))
}

/// Reads settings from JSON.
///
/// # Errors
///
/// The first fault that a walk over the document meets, rings before seats and each of them in
/// order; `OutOfMemory` where memory runs out before that.
pub fn read_settings(alloc: Global, bytes: &[u8]) -> Result<Settings, SettingsError>
    ensures ok { IfOk result (λ s. settings_of bytes.now ≡ Ok s) }
    ensures err { IfErr result (λ e. e ≢ SettingsError.OutOfMemory
        → settings_of bytes.now ≡ Err e) }
{
    let document = read_document(alloc, bytes)?;
    if !document.is_object() {
        return Err(SettingsError::Shape(Field::Top));
    }
    let settings = read_object(alloc, &document)?;
    Ok(settings)
}
