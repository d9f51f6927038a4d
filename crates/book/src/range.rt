// The numbers that windows and links may have.
ghost use Rattle.std.specs.Prelude.{◌≡◌};
ghost use Rattle.book.specs.Meaning.{numbered, linked};

// The greatest number that a window may have.
pub const LAST_WINDOW: u32 = 256;

// The greatest number that a link may have.
pub const LAST_LINK: u32 = 32;

// Whether a window may have the number. This and the next differ in a constant alone: a function of the last number would be the
// library's `contains` by another name.
pub fn is_window(number: u32) -> bool
    ensures { result ≡ numbered number }
{
    (1..=LAST_WINDOW).contains(&number)
}

// Whether a link may have the number.
pub fn is_link(number: u32) -> bool
    ensures { result ≡ linked number }
{
    (1..=LAST_LINK).contains(&number)
}
