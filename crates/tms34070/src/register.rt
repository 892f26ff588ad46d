//! The registers of the colour lookup table.
ghost use Rattle.std.specs.Prelude.{◌≡◌, ◌/◌, ◌%◌, length};
ghost use Rattle.tms34070.specs.Struct.{register_values, values_in};

use crate::{REGISTER_VALUES, REGISTERS, VALUES};

/// Four bits each.
#[derive(Clone, Copy, Debug, Default, PartialEq, Eq)]
pub struct Colour {
    pub red: u8,
    pub green: u8,
    pub blue: u8,
}

/// What both pixels show where DATEN is low.
// Written out: a static's value may call no function, so it isn't `Colour::default()`.
pub(crate) static BLACK: Colour = Colour {
    red: 0,
    green: 0,
    blue: 0,
};

/// A register.
// EXT and REP are bytes and no bits: a state by value can have larger ones, which the check of its values finds.
#[derive(Clone, Copy, Debug, Default, PartialEq, Eq)]
pub struct Register {
    pub colour: Colour,
    /// One bit, which a tick gives out as a level.
    pub ext: u8,
    /// One bit: 1 repeats the colour of the pixel shown before.
    pub rep: u8,
}

/// What a register's first load holds for its second.
#[derive(Clone, Copy, Debug, Default, PartialEq, Eq)]
pub struct Held {
    pub red: u8,
    /// EXT + 2 × REP: one byte, as its place is; a state by value can have a larger one.
    pub attributes: u8,
}

impl Held {
    /// The register that a second load stores.
    pub(crate) fn register(self, green: u8, blue: u8) -> Register
        ensures { result ≡ record { colour = record { red = self.red; green = green; blue = blue }; ext = self.attributes % 2; rep = self.attributes / 2 } }
    {
        Register {
            colour: Colour {
                red: self.red,
                green,
                blue,
            },
            ext: self.attributes % 2,
            rep: self.attributes / 2,
        }
    }
}

impl Register {
    // Private, and no `From`: an impl of it would be public, and its name says nothing of the places' order.

    /// Its places, in the order of their numbers.
    fn values(self) -> [u8; REGISTER_VALUES]
        ensures { result ≡ register_values self }
    {
        [
            self.colour.red,
            self.colour.green,
            self.colour.blue,
            self.ext,
            self.rep,
        ]
    }

    /// The register with these places.
    fn from_values(values: [u8; REGISTER_VALUES]) -> Register
        ensures { register_values result ≡ values }
    {
        let [red, green, blue, ext, rep] = values;
        Register {
            colour: Colour { red, green, blue },
            ext,
            rep,
        }
    }
}

// Both loops go by index: std says nothing of what a loop leaves that writes through `as_chunks_mut` or through an adapter of `iter_mut`, and the closure of an `array::from_fn` would need clauses of its own.

/// Writes the places of all registers.
pub(crate) fn put_registers(registers: &[Register; REGISTERS], places: &mut [u8])
    requires { length places.old ≡ VALUES }
    ensures { places.new ≡ values_in registers.now }
{
    for (i, register) in registers.iter().enumerate() {
        let from = REGISTER_VALUES * i;
        places[from..from + REGISTER_VALUES].copy_from_slice(&register.values());
    }
}

/// The registers with these places.
pub(crate) fn read_registers(places: &[u8]) -> [Register; REGISTERS]
    requires { length places.now ≡ VALUES }
    ensures { values_in result ≡ places.now }
{
    let (values, _) = places.as_chunks::<REGISTER_VALUES>();
    let mut registers = [Register::default(); REGISTERS];
    for i in 0..REGISTERS {
        registers[i] = Register::from_values(values[i]);
    }
    registers
}
