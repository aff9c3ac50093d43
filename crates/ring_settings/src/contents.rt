ghost use Rattle.std.specs.Prelude.{◌≡◌, ◌<◌, ◌≤◌, length, All, IfOk, Some, slice_get, map};
ghost use Rattle.ring_settings.specs.Limits.{ring_limit};
ghost use Rattle.ring_model.specs.Limits.{seat_limit};
ghost use Rattle.ring_state.specs.Sizes.{IsSize};
ghost use Rattle.ring_settings.specs.Actions.{size_at};
ghost use Rattle.ring_settings.specs.Contents.{ring_at, sizes_of, IsSettings};
ghost use Rattle.ring_settings.specs.Views.{ring_data, seat_data};

use crate::actions::{Action, Role};
use ring_state::Params;
use std::alloc::{AllocError, Global};
use std::marker::Model;

/// A ring of the settings: its size, and the values that its machines start with.
#[derive(Drop)]
pub(crate) struct RingSetting {
    pub(crate) params: Params,
    pub(crate) start: Vec<u32>,
}

/// The work of one seat.
#[derive(Drop)]
pub enum SeatSetting {
    /// These actions, in order; at most `ACTION_LIMIT`.
    Script(Vec<Action>),
    /// Actions that are drawn, at most `ACTION_LIMIT`.
    Drawn { role: Role, seed: u64, actions: u32 },
}

/// The settings of a farm: 1 to `RING_LIMIT` rings, and 1 to `SEAT_LIMIT` seats in the order of their numbers.
///
/// Only `read_settings` makes one, so each action of a script is for a ring that is there, a machine
/// of that ring, and a value below its K.
#[derive(Drop)]
pub struct Settings {
    rings: Vec<RingSetting>,
    seats: Vec<SeatSetting>,
}

impl Model for Settings {
    ghost use Rattle.std.specs.Prelude.{map};
    ghost use Rattle.ring_settings.specs.Contents.{SettingsData, IsSettings};
    ghost use Rattle.ring_settings.specs.Views.{ring_data, seat_data};

    ghost Value = { SettingsData };

    ghost view = { λ s.
        record { rings = map ring_data s.rings.items; seats = map seat_data s.seats.items } };

    ghost invariant = { λ s. IsSettings (
        record { rings = map ring_data s.rings.items; seats = map seat_data s.seats.items }) };
}

/// The sizes of these rings.
pub(crate) fn sizes_of(alloc: Global, rings: &[RingSetting]) -> Result<Vec<Params>, AllocError>
    ensures { IfOk result (λ v. v.items ≡ sizes_of (map ring_data rings.now)) }
{
    let mut sizes = Vec::new(alloc);
    for ring in rings {
        sizes.push(ring.params)?;
    }
    Ok(sizes)
}

impl Settings {
    /// The settings with these rings and seats.
    pub(crate) fn new(rings: Vec<RingSetting>, seats: Vec<SeatSetting>) -> Settings
        requires { IsSettings (
            record { rings = map ring_data rings.items; seats = map seat_data seats.items }) }
        ensures { result
            ≡ record { rings = map ring_data rings.items; seats = map seat_data seats.items } }
    {
        Settings { rings, seats }
    }

    /// How many rings there are, 1 to `RING_LIMIT`.
    pub fn ring_count(&self) -> usize
        ensures is { result ≡ length self.now.rings }
        ensures some { 1 ≤ result }
        ensures most { result ≤ ring_limit }
        ensures settings { IsSettings self.now }
    {
        self.rings.len()
    }

    /// The size of this ring.
    pub fn params(&self, ring: usize) -> Params
        requires { ring < length self.now.rings }
        ensures is { result ≡ (ring_at self.now ring).size }
        ensures in_sizes { result ≡ size_at (sizes_of self.now.rings) ring }
        ensures size { IsSize (ring_at self.now ring).size }
    {
        self.rings[ring].params
    }

    /// The values that the machines of this ring start with: one for each machine, each below K.
    pub fn start(&self, ring: usize) -> &[u32]
        requires { ring < length self.now.rings }
        ensures is { result.now ≡ (ring_at self.now ring).start }
        ensures one_each { length result.now ≡ (ring_at self.now ring).size.n }
        ensures below { All (λ v. v < (ring_at self.now ring).size.k) result.now }
    {
        self.rings[ring].start.as_slice()
    }

    /// How many seats there are, 1 to `SEAT_LIMIT`.
    pub fn seat_count(&self) -> usize
        ensures is { result ≡ length self.now.seats }
        ensures some { 1 ≤ result }
        ensures most { result ≤ seat_limit }
    {
        self.seats.len()
    }

    /// The seat of this number.
    pub fn seat(&self, seat: usize) -> &SeatSetting
        requires { seat < length self.now.seats }
        ensures { slice_get self.now.seats seat ≡ Some (seat_data result.now) }
    {
        &self.seats[seat]
    }

    /// The sizes of the rings, in order.
    pub(crate) fn sizes(&self, alloc: Global) -> Result<Vec<Params>, AllocError>
        ensures is { IfOk result (λ v. v.items ≡ sizes_of self.now.rings) }
        ensures settings { IsSettings self.now }
    {
        sizes_of(alloc, self.rings.as_slice())
    }
}
