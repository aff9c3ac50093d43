ghost use Rattle.std.specs.Prelude.{◌≢◌};

/// Another number: the one below, or 1 for 0.
pub(crate) fn another(number: u64) -> u64
    ensures { result ≢ number }
{
    if number == 0 { 1 } else { number - 1 }
}

/// The same of a narrow number.
pub(crate) fn another_narrow(number: u32) -> u32
    ensures { result ≢ number }
{
    if number == 0 { 1 } else { number - 1 }
}
