// The layer that holds a link longer after each window.
ghost use Rattle.std.specs.Prelude.{◌≡◌, Ok};
ghost use Rattle.layer.specs.Links.{value_at};
ghost use Rattle.layer.specs.Rests.{longer, shorter, rest_meaning, RestTied, first_over, can_make_rest};
ghost use Rattle.layer.specs.Resting.{rest_through, rest_replaced, rest_put, rest_taken};

use crate::layer::{Layer, vacant};
use crate::per_link::PerLink;
use crate::view::View;
use book::{Book, LAST_LINK, MakeFault, Span, Window};

// The greatest rest, in steps.
const GREATEST: u64 = 1_000_000;

// The rest of each link is the one below and an extra, which the book below has as part of the windows.
#[derive(Drop)]
pub struct Extra {
    extra: PerLink,
}

// A book over another one, with an extra rest for each link.
pub type RestLayer<B> = Layer<B, Extra>;

// The first link whose rest would be too great.
fn first_over<B: Book>(below: &B, extra: &PerLink) -> Option<u32>
    ensures { B.Book.keeps below.now → result ≡ first_over (value_at extra.now) (B.Book.meaning below.now) }
{
    (1..=LAST_LINK).find(|&link| {
        let Span { rest, .. } = below.span(link);
        u64::from(rest) + u64::from(extra.at(link)) > GREATEST
    })
}

impl<B: Book> Layer<B, Extra> {
    // Whether the layer can be made over the book. Book and extra are two parameters here and in `new`: a value of both would be the
    // layer itself, which is not made yet.
    pub fn can_make(below: &B, extra: &PerLink) -> Result<(), MakeFault>
        ensures { B.Book.keeps below.now → result ≡ can_make_rest (value_at extra.now) (B.Book.meaning below.now) }
    {
        if let Some(link) = first_over(below, extra) {
            return Err(MakeFault::RestTooGreat { link });
        }
        vacant(below)
    }

    // The layer over the book. It keeps its meaning where it can be made over a book that keeps its own.
    pub fn new(below: B, extra: PerLink) -> RestLayer<B>
        ensures means { ⟦<RestLayer<B> as Book>⟧.meaning result ≡ rest_meaning (value_at extra) (B.Book.meaning below) }
        ensures kept { B.Book.keeps below → can_make_rest (value_at extra) (B.Book.meaning below) ≡ Ok tt → ⟦<RestLayer<B> as Book>⟧.keeps result }
    {
        Layer::over(below, Extra { extra })
    }
}

impl View for Extra {
    ghost down = { λ x. longer (value_at x.extra) };

    ghost up = { λ x. shorter (value_at x.extra) };

    ghost step_below = { λ x l s. s };

    ghost above = { λ x. rest_meaning (value_at x.extra) };

    ghost tied = { λ x. RestTied (value_at x.extra) };

    ghost through = { λ x. rest_through (value_at x.extra) };

    ghost replaced = { λ x. rest_replaced (value_at x.extra) };

    ghost put = { λ x. rest_put (value_at x.extra) };

    ghost taken = { λ x. rest_taken (value_at x.extra) };

    fn down(&self, window: Window) -> Window {
        Window {
            length: window.length.saturating_add(self.extra.at(window.link)),
            ..window
        }
    }

    fn up(&self, window: Window) -> Window {
        Window {
            length: window.length.saturating_sub(self.extra.at(window.link)),
            ..window
        }
    }

    fn step_below(&self, _link: u32, step: u64) -> u64 {
        step
    }

    fn direct_step(&self, _link: u32, step: u64) -> Option<u64> {
        Some(step)
    }

    fn span(&self, link: u32, span: Span) -> Span {
        Span {
            rest: span.rest.saturating_add(self.extra.at(link)),
            ..span
        }
    }
}
