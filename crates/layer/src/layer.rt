// A book over another one, which keeps its windows in another form.
ghost use Rattle.std.specs.Prelude.{◌≡◌};
ghost use Rattle.book.proofs.Through.{through_sound};
ghost use Rattle.layer.specs.Vacancy.{vacant};

use crate::view::View;
use book::{Book, BookFault, MakeFault, Span, Window, holds_windows};

// A book whose windows are those of the book below, as the view shows them.
#[derive(Drop)]
pub struct Layer<B, V> {
    below: B,
    view: V,
}

// A layer is made only over a book without windows.
pub(crate) fn vacant<B: Book>(below: &B) -> Result<(), MakeFault>
    ensures { B.Book.keeps below.now → result ≡ vacant (B.Book.meaning below.now) }
{
    if holds_windows(below) {
        return Err(MakeFault::HoldsWindows);
    }
    Ok(())
}

impl<B: Book, V: View> Layer<B, V> {
    // The layer over the book. It keeps its meaning where the book keeps its own and has only windows that the view can have
    // handed down.
    pub fn over(below: B, view: V) -> Layer<B, V>
        ensures means { ⟦<Layer<B, V> as Book>⟧.meaning result ≡ V.View.above view (B.Book.meaning below) }
        ensures kept { B.Book.keeps below → V.View.tied view (B.Book.meaning below) → ⟦<Layer<B, V> as Book>⟧.keeps result }
    {
        Layer { below, view }
    }
}

impl<B: Book, V: View> Book for Layer<B, V> {
    ghost meaning = { λ s. V.View.above s.view (B.Book.meaning s.below) };

    ghost keeps = { λ s. B.Book.keeps s.below × V.View.tied s.view (B.Book.meaning s.below) };

    ghost sound = { λ x (keeps, tied). through_sound (V.View.through x.view (B.Book.meaning x.below) (B.Book.sound x.below keeps) tied) };

    fn book(&mut self, number: u32, window: Window) -> Result<(), BookFault> {
        window.check(number, self.span(window.link))?;
        self.below.book(number, self.view.down(window))
    }

    fn lift(&mut self, number: u32) -> Result<Window, BookFault> {
        self.below.lift(number).map(|window| self.view.up(window))
    }

    fn find(&self, number: u32) -> Option<Window> {
        self.below.find(number).map(|window| self.view.up(window))
    }

    // A link's steps are held alike in every cycle, so where the view has no step below for each of them, the place in the cycle is
    // asked for there.
    fn held(&self, link: u32, step: u64) -> Option<u32> {
        if let Some(below) = self.view.direct_step(link, step) {
            return self.below.held(link, below);
        }
        let Span { cycle, .. } = self.span(link);
        let place = step.checked_rem(u64::from(cycle))?;
        self.below.held(link, self.view.step_below(link, place))
    }

    fn span(&self, link: u32) -> Span {
        self.view.span(link, self.below.span(link))
    }
}
