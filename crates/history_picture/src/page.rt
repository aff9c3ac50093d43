//! Where columns, machines and numbers are on the page, in hundredths of its units.

ghost use Rattle.std.specs.Prelude.{◌≡◌, ◌<◌};
ghost use Rattle.history_picture.specs.Picture.{across, middle, down, filled, quarter, up};

/// The machines of a picture's ring, and its columns.
#[derive(Clone, Copy)]
pub(crate) struct Grid {
    pub(crate) n: u32,
    pub(crate) columns: u32,
    ghost machines: { 0 < n },
    ghost some: { 0 < columns },
}

/// Where a column begins.
pub(crate) fn across(columns: u32, column: u32) -> u64
    requires { 0 < columns }
    ensures { result ≡ across columns column }
{
    90_000 * column as u64 / columns as u64
}

/// The middle of a column.
pub(crate) fn middle(columns: u32, column: u32) -> u64
    requires { 0 < columns }
    ensures { result ≡ middle columns column }
{
    45_000 * (2 * column as u64 + 1) / columns as u64
}

/// Where the row of a machine begins.
pub(crate) fn down(n: u32, machine: u32) -> u64
    requires { 0 < n }
    ensures { result ≡ down n machine }
{
    30_000 * machine as u64 / n as u64
}

/// Three quarters of a row.
pub(crate) fn filled(n: u32) -> u32
    requires { 0 < n }
    ensures { result ≡ filled n }
{
    22_500 / n
}

/// A quarter of a row.
pub(crate) fn quarter(n: u32) -> u32
    requires { 0 < n }
    ensures { result ≡ quarter n }
{
    7_500 / n
}

/// How high a number is over the lower edge of the curves.
pub(crate) fn up(height: u64, number: u64) -> u128
    ensures { result ≡ up height number }
{
    let most = 2 * height as u128;
    16_000 * (number as u128).min(most) / (height as u128).max(1)
}
