//! The colour selection of one pixel, a step at a time.
ghost use Rattle.std.specs.Prelude.{◌≡◌, ◌+◌, ◌≤◌, ◌<◌};
ghost use Rattle.tlc34058.specs.Tick.{entry_of};
ghost use Rattle.tlc34058.specs.Selection.{after_read_mask, after_blink_mask, after_overlay_enables, after_overlay_blink, overlay_number, entry_by_ram_enable};
ghost use Rattle.tlc34058.specs.Struct.{registers_of, pixel_of};

use crate::Registers;
use crate::bits::bit;

/// A pixel on its way through the selection: its bits P0 to P7, and its overlay bits OL0 and OL1.
#[derive(Clone, Copy, Debug, PartialEq, Eq)]
pub(crate) struct Pixel {
    pub(crate) bits: u8,
    pub(crate) ol0: bool,
    pub(crate) ol1: bool,
}

// The steps, in the order of specs/Selection.antt. Each gives the pixel as it leaves it, the last one the entry. The registers and the blink phase are two parameters, as there: three of the steps don't ask for the phase.
impl Pixel {
    /// The read mask: planes with a 0 in it become 0.
    #[inline(always)]
    fn after_read_mask(self, registers: Registers) -> Pixel
        ensures { pixel_of result ≡ after_read_mask (registers_of registers) (pixel_of self) }
    {
        Pixel {
            bits: self.bits & registers.read_mask,
            ..self
        }
    }

    /// The blink mask: with blink off, planes with a 1 in it become 0.
    #[inline(always)]
    fn after_blink_mask(self, registers: Registers, on: bool) -> Pixel
        ensures { pixel_of result ≡ after_blink_mask (registers_of registers) on (pixel_of self) }
    {
        let unlit = self.bits & !registers.blink_mask;
        Pixel {
            bits: if on { self.bits } else { unlit },
            ..self
        }
    }

    /// The overlay enables: CR0 for OL0, CR1 for OL1.
    #[inline(always)]
    fn after_overlay_enables(self, registers: Registers) -> Pixel
        ensures { pixel_of result ≡ after_overlay_enables (registers_of registers) (pixel_of self) }
    {
        Pixel {
            ol0: self.ol0 & bit(0, registers.command),
            ol1: self.ol1 & bit(1, registers.command),
            ..self
        }
    }

    /// The overlay blink: CR2 for OL0, CR3 for OL1.
    #[inline(always)]
    fn after_overlay_blink(self, registers: Registers, on: bool) -> Pixel
        ensures { pixel_of result ≡ after_overlay_blink (registers_of registers) on (pixel_of self) }
    {
        Pixel {
            ol0: self.ol0 & (on | !bit(2, registers.command)),
            ol1: self.ol1 & (on | !bit(3, registers.command)),
            ..self
        }
    }

    /// The RAM enable, CR6: with it high and both overlay bits low the palette, otherwise the overlay, which stands behind the 256 palette entries.
    #[inline(always)]
    fn entry_by_ram_enable(self, registers: Registers) -> usize
        ensures entry { result ≡ entry_by_ram_enable (registers_of registers) (pixel_of self) }
        ensures few { result < 260 }
    {
        let palette = usize::from(self.bits);
        let overlay = 256 + self.overlay();
        if bit(6, registers.command) & !self.ol0 & !self.ol1 {
            palette
        } else {
            overlay
        }
    }

    /// The overlay that the overlay bits select.
    #[inline(always)]
    fn overlay(self) -> usize
        ensures number { result ≡ overlay_number (pixel_of self) }
        ensures few { result ≤ 3 }
    {
        2 * usize::from(self.ol1) + usize::from(self.ol0)
    }

    /// The entry that the pixel shows.
    #[inline(always)]
    pub(crate) fn entry(self, registers: Registers, on: bool) -> usize
        ensures entry { result ≡ entry_of (registers_of registers) on self.bits self.ol0 self.ol1 }
        ensures few { result < 260 }
    {
        let masked = self.after_read_mask(registers);
        let lit = masked.after_blink_mask(registers, on);
        let enabled = lit.after_overlay_enables(registers);
        let shown = enabled.after_overlay_blink(registers, on);
        shown.entry_by_ram_enable(registers)
    }
}
