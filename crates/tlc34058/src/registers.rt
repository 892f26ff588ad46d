//! The control registers, at addresses 04h to 07h.
ghost use Rattle.std.specs.Prelude.{Ok, ◌≡◌, ◌+◌, ltb};
ghost use Rattle.event.specs.Answer.{written};
ghost use Rattle.event.specs.Struct.{answer_to};
ghost use Rattle.tlc34058.specs.Port.{read_register, with_register};
ghost use Rattle.tlc34058.specs.TestRegister.{half as half_of, dac_input, test_read};
ghost use Rattle.tlc34058.specs.Struct.{address_of, registers_of, codes_of};

use crate::bits::bit;
use event::Reply;

/// The codes of a pixel, the DACs' inputs. (Eight bits each. A TMS34070's `Colour` has four, and no function takes both.)
#[derive(Clone, Copy, Debug, Default, PartialEq, Eq)]
pub struct Codes {
    pub red: u8,
    pub green: u8,
    pub blue: u8,
}

/// A control register.
#[derive(Clone, Copy, Debug, PartialEq, Eq)]
pub(crate) enum Register {
    ReadMask,
    BlinkMask,
    Command,
    Test,
}

/// The control registers, as they were written.
#[derive(Clone, Copy, Debug, Default, PartialEq, Eq)]
pub struct Registers {
    pub read_mask: u8,
    pub blink_mask: u8,
    /// CR0 to CR7.
    pub command: u8,
    pub test: u8,
}

impl Registers {
    /// Writes a register, and says what that paints: the number is 256 more than the address. No tick sees the test register.
    #[tactic(auto, unfolding(crate::specs::Port::with_register))]
    #[inline(always)]
    pub(crate) fn write(&mut self, register: Register, byte: u8) -> Reply
        ensures registers { registers_of self.new ≡ with_register (registers_of self.old) (address_of register) byte }
        ensures reply { answer_to (Ok result) ≡ written (ltb (address_of register) 7) (256 + address_of register) }
    {
        match register {
            Register::ReadMask => {
                self.read_mask = byte;
                Reply::Painted(260)
            }
            Register::BlinkMask => {
                self.blink_mask = byte;
                Reply::Painted(261)
            }
            Register::Command => {
                self.command = byte;
                Reply::Painted(262)
            }
            Register::Test => {
                self.test = byte;
                Reply::Done
            }
        }
    }

    /// Reads a register: the byte written but, of the test register, what the codes of the last pixel shown make of it.
    #[tactic(auto, unfolding(crate::specs::Port::register))]
    #[inline(always)]
    pub(crate) fn read(&self, register: Register, last: Codes) -> u8
        ensures { result ≡ read_register (registers_of self.now) (codes_of last) (address_of register) }
    {
        match register {
            Register::ReadMask => self.read_mask,
            Register::BlinkMask => self.blink_mask,
            Register::Command => self.command,
            Register::Test => test_read(self.test, last),
        }
    }
}

/// Half of a code: bit 3 of the test register selects the low one.
fn half(test: u8, code: u8) -> u8
    ensures { result ≡ half_of test code }
{
    if bit(3, test) { code % 16 } else { code / 16 }
}

/// The code that is selected, Table 8: 0 unless exactly one of bits 0 to 2 is set.
#[tactic(auto, unfolding(crate::specs::TestRegister::dac_input))]
fn dac_input(test: u8, last: Codes) -> u8
    ensures { result ≡ dac_input test (codes_of last) }
{
    match test % 8 {
        1 => last.red,
        2 => last.green,
        4 => last.blue,
        _ => 0,
    }
}

/// What a read of the test register gives: its low four bits and, in bits 4 to 7, half of a code.
#[tactic(auto, unfolding(crate::specs::TestRegister::test_read))]
fn test_read(test: u8, last: Codes) -> u8
    ensures { result ≡ test_read test (codes_of last) }
{
    test % 16 + 16 * half(test, dac_input(test, last))
}
