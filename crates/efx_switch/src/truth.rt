// Truth values as numbers.

ghost use Rattle.std.specs.Prelude.{◌≡◌};
ghost use Rattle.efx_switch.specs.Switching.{is_one, number_of};

// Whether an input, 0 or 1, is true.
pub(crate) fn is_one(x: i64) -> bool
    ensures { result ≡ is_one x }
{
    x == 1
}

// The number of a truth value.
pub(crate) fn number_of(on: bool) -> i64
    ensures { result ≡ number_of on }
{
    if on { 1 } else { 0 }
}
