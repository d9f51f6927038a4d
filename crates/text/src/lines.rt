// The lines of a text.
ghost use Rattle.std.specs.Prelude.{◌≡◌, ℕ, ◌≤◌, List, length};
ghost use Rattle.std.specs.Iterator.{YieldsFirstRef, item_count};
ghost use Rattle.std.specs.List.{prefix_len};
ghost use Rattle.text.specs.Lines.{no_feed, first_line, after_line, lines};

use std::marker::Model;

// How many bytes the first line of `text` has.
fn first_length(text: &[u8]) -> usize
    ensures { result ≡ prefix_len no_feed text.now }
{
    text.iter().take_while(|byte| **byte != b'\n').count()
}

// The first line of `text`, without its line feed, and the text after it.
pub fn cut_line(text: &[u8]) -> (&[u8], &[u8])
    ensures first { result.0.now ≡ first_line text.now }
    ensures rest { result.1.now ≡ after_line text.now }
{
    let (line, rest) = text.split_at(first_length(text));
    match rest {
        [_, after @ ..] => (line, after),
        [] => (line, rest),
    }
}

// The lines of a text, one after another, without their line feeds.
#[derive(Drop)]
pub struct Lines<'a> {
    rest: &'a [u8],
}

// It is seen as the lines that are left.
impl<'a> Model for Lines<'a> {
    ghost Value = { List (List ℕ) };

    ghost view = { λ l. lines l.rest.now };
}

impl<'a> Lines<'a> {
    // All lines of the text, at most as many as it has bytes.
    pub fn of(text: &'a [u8]) -> Lines<'a>
        ensures all { result ≡ lines text.now }
        ensures few { length result ≤ length text.now }
    {
        Lines { rest: text }
    }
}

impl<'a> Iterator for Lines<'a> {
    type Item = &'a [u8];

    ghost next_gives = { YieldsFirstRef (λ left. left) };

    ghost remaining = { item_count (λ left. left) };

    fn next(&mut self) -> Option<&'a [u8]> {
        if self.rest.is_empty() {
            return None;
        }
        let (line, rest) = cut_line(self.rest);
        self.rest = rest;
        Some(line)
    }
}

#[cfg(test)]
mod tests {
    use super::*;
    use std::process::Abort;

    // Whether `first` is the first line of `text`, and `rest` is left.
    fn cuts(rt: &impl Abort, text: &[u8], first: &[u8], rest: &[u8]) {
        assert_eq!(rt; cut_line(text), (first, rest));
    }

    #[test]
    fn first_lines(rt: HostRuntime) {
        cuts(&rt, b"", b"", b"");
        cuts(&rt, b"a", b"a", b"");
        cuts(&rt, b"a\n", b"a", b"");
        cuts(&rt, b"\n\nb", b"", b"\nb");
        cuts(&rt, b"a\r\nb", b"a\r", b"b");
    }

    // What is not cut into lines yet is left, and after the last line nothing.
    #[test]
    fn all_lines(rt: HostRuntime) {
        let mut lines = Lines::of(b"a\n\nbc");
        assert_eq!(rt; lines.next(), Some(b"a".as_slice()));
        assert_eq!(rt; lines.next(), Some(b"".as_slice()));
        assert_eq!(rt; lines.next(), Some(b"bc".as_slice()));
        assert_eq!(rt; lines.next(), None);
        assert_eq!(rt; lines.next(), None);
        assert_eq!(rt; Lines::of(b"a\n").count(), 1);
        assert_eq!(rt; Lines::of(b"").count(), 0);
    }
}
