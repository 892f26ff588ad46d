//! The bits of a byte.
ghost use Rattle.std.specs.Prelude.{◌≡◌, ◌<◌};
ghost use Rattle.event.specs.Event.{bit};

/// Whether a bit of a byte is 1; bit 0 is the low one. The other chips ask for bit 0 alone, of a level byte that has no other: there `% 2 == 1` says as much.
#[inline(always)]
pub(crate) fn bit(number: usize, byte: u8) -> bool
    requires { number < 8 }
    ensures { result ≡ bit number byte }
{
    (byte >> number) & 1 == 1
}
