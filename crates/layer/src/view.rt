// How the windows of a book appear in a book over it.
ghost use Rattle.std.specs.Prelude.{◌≡◌, ℕ, ◌^◌, ◌<◌, Some, None, Option, IfSome};
ghost use Rattle.std.specs.Option.{option_map};
ghost use Rattle.book.specs.Calls.{span_answer};
ghost use Rattle.book.specs.Meaning.{Meaning, with};
ghost use Rattle.book.specs.Sound.{Sound, Suits};
ghost use Rattle.book.specs.declared.Window.{Window};
ghost use Rattle.book.specs.Through.{Through};

use book::{Span, Window};

pub trait View {
    // A window of the book above as the book below has it.
    ghost down: { Self → Window → Window };

    // A window of the book below as the book above has it.
    ghost up: { Self → Window → Window };

    // The step of a link of the book below that is asked for in place of a step of the book above.
    ghost step_below: { Self → ℕ → ℕ → ℕ };

    // What the book above means, by what the book below means.
    ghost above: { Self → Meaning → Meaning };

    // What has to hold of the book below: it has only windows that this view can have handed down to it.
    ghost tied: { Self → Meaning → Type 0 };

    // The window as the book below has it, where its numbers are not too great for a window.
    fn down(&self, window: Window) -> Window
        ensures { (down self.now window).start < 2 ^ 32 → (down self.now window).length < 2 ^ 32 → (down self.now window).period < 2 ^ 32 → result ≡ down self.now window };

    // A window of the book below as the book above has it.
    fn up(&self, window: Window) -> Window
        ensures { result ≡ up self.now window };

    // The step to ask the book below for.
    fn step_below(&self, link: u32, step: u64) -> u64
        ensures { step < 2 ^ 32 → result ≡ step_below self.now link step };

    // The step to ask the book below for, where it is found for every step of the link, and so without the cycle.
    fn direct_step(&self, link: u32, step: u64) -> Option<u64>
        ensures { IfSome result (λ below. below ≡ step_below self.now link step) };

    // The cycle and the rest of the link, by those of the book below.
    fn span(&self, link: u32, span: Span) -> Span
        ensures { (m : Meaning) → tied self.now m → span ≡ span_answer link m → result ≡ span_answer link (above self.now m) };

    // The book above is one that is kept in the book below.
    ghost through: { (x : Self) (m : Meaning) → Sound m → tied x m → Through (up x) (down x) (step_below x) m (above x m) };

    // What stands under a number is seen through the view whatever it is.
    ghost replaced: { (x : Self) (m : Meaning) (n : ℕ) (o : Option Window) → above x (with n o m) ≡ with n (option_map (up x) o) (above x m) };

    // The book below stays tied when a window that suits the book above is handed down.
    ghost put: { (x : Self) (m : Meaning) (n : ℕ) (w : Window) → tied x m → Suits (above x m) w → tied x (with n (Some (down x w)) m) };

    // It stays tied when a window is taken out.
    ghost taken: { (x : Self) (m : Meaning) (n : ℕ) → tied x m → tied x (with n None m) };
}
