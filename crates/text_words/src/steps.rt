// Steps in their order: a test that holds, or else a fault.
ghost use Rattle.std.specs.Prelude.{◌≡◌};
ghost use Rattle.text_words.specs.Steps.{demand};

/// The fault, unless the test holds.
pub fn demand<E: Copy>(holds: bool, fault: E) -> Result<(), E>
    ensures { result ≡ demand holds fault }
{
    if holds { Ok(()) } else { Err(fault) }
}

/// Returns from the function with the fault where the test fails. It says what `demand(..)?` says, in fewer steps to
/// prove.
#[macro_export]
macro_rules! demand {
    ($test:expr, $fault:expr) => {
        if !$test {
            return Err($fault);
        }
    };
}
