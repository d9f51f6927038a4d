// The layer whose steps are several steps of the book below.
ghost use Rattle.std.specs.Prelude.{◌≡◌, ◌*◌, Ok};
ghost use Rattle.layer.specs.Links.{value_at};
ghost use Rattle.layer.specs.Grains.{finer, coarser, grain_meaning, GrainTied, can_make_grain};
ghost use Rattle.layer.specs.Graining.{grain_through, grain_replaced, grain_put, grain_taken};

use crate::layer::{Layer, vacant};
use crate::per_link::PerLink;
use crate::view::View;
use book::{Book, MakeFault, Span, Window};

// A step of each link is as many steps below as the link's grain.
#[derive(Drop)]
pub struct Grain {
    grain: PerLink,
}

// A book over another one, with a grain for each link.
pub type GrainLayer<B> = Layer<B, Grain>;

impl<B: Book> Layer<B, Grain> {
    // Whether the layer can be made over the book.
    pub fn can_make(below: &B) -> Result<(), MakeFault>
        ensures { B.Book.keeps below.now → result ≡ can_make_grain (B.Book.meaning below.now) }
    {
        vacant(below)
    }

    // The layer over the book. It keeps its meaning where it can be made over a book that keeps its own.
    pub fn new(below: B, grain: PerLink) -> GrainLayer<B>
        ensures means { ⟦<GrainLayer<B> as Book>⟧.meaning result ≡ grain_meaning (value_at grain) (B.Book.meaning below) }
        ensures kept { B.Book.keeps below → can_make_grain (B.Book.meaning below) ≡ Ok tt → ⟦<GrainLayer<B> as Book>⟧.keeps result }
    {
        Layer::over(below, Grain { grain })
    }
}

impl View for Grain {
    ghost down = { λ x. finer (value_at x.grain) };

    ghost up = { λ x. coarser (value_at x.grain) };

    ghost step_below = { λ x l s. s * value_at x.grain l };

    ghost above = { λ x. grain_meaning (value_at x.grain) };

    ghost tied = { λ x. GrainTied (value_at x.grain) };

    ghost through = { λ x. grain_through (value_at x.grain) };

    ghost replaced = { λ x. grain_replaced (value_at x.grain) };

    ghost put = { λ x. grain_put (value_at x.grain) };

    ghost taken = { λ x. grain_taken (value_at x.grain) };

    fn down(&self, window: Window) -> Window {
        let grain = self.grain.at(window.link);
        Window {
            link: window.link,
            start: window.start.saturating_mul(grain),
            length: window.length.saturating_mul(grain),
            period: window.period.saturating_mul(grain),
        }
    }

    fn up(&self, window: Window) -> Window {
        let grain = self.grain.at(window.link);
        Window {
            link: window.link,
            start: window.start.checked_div(grain).unwrap_or(0),
            length: window.length.checked_div(grain).unwrap_or(0),
            period: window.period.checked_div(grain).unwrap_or(0),
        }
    }

    fn step_below(&self, link: u32, step: u64) -> u64 {
        step.saturating_mul(u64::from(self.grain.at(link)))
    }

    // A step of 64 bits times the grain could have more.
    fn direct_step(&self, _link: u32, _step: u64) -> Option<u64> {
        None
    }

    fn span(&self, link: u32, span: Span) -> Span {
        let grain = self.grain.at(link);
        if grain == 0 || span.cycle == 0 || span.cycle % grain != 0 {
            // No `Option`: the call promises two numbers for every link.
            return Span::default();
        }
        Span {
            cycle: span.cycle / grain,
            rest: span.rest.div_ceil(grain),
        }
    }
}
