// The keys of a line.
ghost use Rattle.std.specs.Prelude.{◌≡◌, Some};
ghost use Rattle.frames.specs.Keys.{opening, quantity_of, range_of};
ghost use Rattle.frames.specs.Texts.{key_text};

use network::{Quantity, Range};
use std::fmt;

// The keys in the order in which a line has them. It is no `Quantity`, though there are as many: the order and the texts are a
// matter of the program's lines, and the network knows no lines.
#[derive(Clone, Copy)]
pub enum Key {
    Size,
    Rate,
    Grain,
}

impl Key {
    // What a line has in front of the key's number.
    pub fn opening(self) -> &'static [u8]
        ensures { result.now ≡ opening self }
    {
        match self {
            Key::Size => b"size=",
            Key::Rate => b" rate=",
            Key::Grain => b" grain=",
        }
    }

    // The numbers that the key may have.
    pub fn range(self) -> Range
        ensures { result ≡ range_of self }
    {
        Quantity::from(self).range()
    }
}

// What the key's number says.
impl From<Key> for Quantity {
    ghost from_gives = { λ key quantity. quantity ≡ quantity_of key };

    fn from(key: Key) -> Quantity {
        match key {
            Key::Size => Quantity::Size,
            Key::Rate => Quantity::Rate,
            Key::Grain => Quantity::Grain,
        }
    }
}

impl fmt::Display for Key {
    ghost output = { λ k. Some (key_text k) };

    fn fmt<W: fmt::Write>(&self, f: &mut fmt::Formatter<W>) -> fmt::Result {
        match self {
            Key::Size => f.write_str("size"),
            Key::Rate => f.write_str("rate"),
            Key::Grain => f.write_str("grain"),
        }
    }
}
