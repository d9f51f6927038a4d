// The order that makes the book of a script.
ghost use Rattle.std.specs.Prelude.{◌≡◌, Ok};
ghost use Rattle.bottom.specs.Ledger.{can_make, ground as without_windows};

use book::Cause;
use bottom::{FormulaBook, Ground};
use script::{Order, Pile};

// A book that can be made: its pile, and what it is made of.
#[derive(Clone, Copy)]
pub struct Opening {
    pub pile: Pile,
    pub ground: Ground,
    ghost can: { can_make ground.links ground.cycle ≡ Ok tt },
}

impl Opening {
    ghost use Rattle.std.specs.Option.{option_map, option_and_then};
    ghost use Rattle.std.specs.Result.{result_ok};
    ghost use Rattle.bookrun.specs.Openings.{ground_of, opened_by};
    ghost use Rattle.bookrun.specs.Performing.{book_reply};
    ghost use Rattle.bookrun.specs.Scripts.{made, opening_reply, opened};

    // The book of such a pile, or why it cannot be made.
    fn new(pile: Pile, ground: Ground) -> Result<Opening, Cause>
        ensures reply { opened_by result ≡ book_reply (can_make ground.links ground.cycle) }
        ensures opened { option_map ground_of (result_ok result) ≡ made (can_make ground.links ground.cycle) (without_windows ground.links ground.cycle) }
    {
        FormulaBook::can_make(ground)?;
        Ok(Opening { pile, ground })
    }

    // The book that an order asks for while there is none, or why it cannot be made; none where it asks for no book.
    pub fn of(order: Option<Order>) -> Option<Result<Opening, Cause>>
        ensures reply { option_map opened_by result ≡ opening_reply order }
        ensures opened { option_map ground_of (option_and_then result_ok result) ≡ opened order }
    {
        match order {
            Some(Order::Make { pile, links, cycle }) => {
                Some(Opening::new(pile, Ground { links, cycle }))
            }
            _ => None,
        }
    }
}
