// The front of a text.
ghost use Rattle.std.specs.Prelude.{◌≡◌};
ghost use Rattle.std.specs.Option.{option_map};
ghost use Rattle.text.specs.Front.{after};

// What follows `front` in `text`, none where the text does not begin with it.
pub fn after_front<'a>(text: &'a [u8], front: &[u8]) -> Option<&'a [u8]>
    ensures { option_map (λ x. x.now) result ≡ after front.now text.now }
{
    text.strip_prefix(front)
}

#[cfg(test)]
mod tests {
    use super::*;

    #[test]
    fn fronts(rt: HostRuntime) {
        let text = b"ab";
        assert_eq!(rt; after_front(text, b""), Some(b"ab".as_slice()));
        assert_eq!(rt; after_front(text, b"a"), Some(b"b".as_slice()));
        assert_eq!(rt; after_front(text, b"ab"), Some(b"".as_slice()));
        assert_eq!(rt; after_front(text, b"abc"), None);
        assert_eq!(rt; after_front(text, b"b"), None);
    }
}
