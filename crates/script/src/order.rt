// What a line of a script asks for.
ghost use Rattle.std.specs.Prelude.{◌≡◌};
ghost use Rattle.std.specs.Result.{result_ok};
ghost use Rattle.script.specs.Reading.{pile_of};

use book::Window;

// The books that a script can ask for.
#[derive(Clone, Copy, Debug, PartialEq, Eq)]
pub enum Pile {
    // The formula book alone.
    Formula,
}

// No pile has the number.
#[derive(Clone, Copy, Debug, PartialEq, Eq)]
pub struct NoSuchPile;

// The pile that has this number.
impl TryFrom<u32> for Pile {
    type Error = NoSuchPile;

    ghost try_from_gives = { λ n pile. result_ok pile ≡ pile_of n };

    fn try_from(n: u32) -> Result<Pile, NoSuchPile> {
        match n {
            1 => Ok(Pile::Formula),
            _ => Err(NoSuchPile),
        }
    }
}

// A call of a book.
#[derive(Clone, Copy, Debug, PartialEq, Eq)]
pub enum Call {
    Book { number: u32, window: Window },
    Lift { number: u32 },
    Find { number: u32 },
    Held { link: u32, step: u32 },
    Span { link: u32 },
}

#[derive(Clone, Copy, Debug, PartialEq, Eq)]
pub enum Order {
    // A book with so many links of this cycle. Where such a book is made the two are one value; that type is no matter of the crate
    // that a script builds on, which says what books mean, and not how they are made.
    Make { pile: Pile, links: u32, cycle: u32 },
    Call(Call),
}
