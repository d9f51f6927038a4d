// A value for each number.
ghost use Rattle.std.specs.Prelude.{◌≡◌};
ghost use Rattle.book.specs.Numbered.{value_at, alike, changed_at};

// A value for each number from 1 to `N`, and none for any other.
#[derive(Clone, Copy, Debug, PartialEq, Eq)]
pub struct Numbered<T, const N: usize> {
    values: [T; N],
}

impl<T: Copy, const N: usize> Numbered<T, N> {
    // The same value for every number.
    pub fn all(value: T) -> Self
        ensures { value_at result ≡ alike N value }
    {
        Numbered { values: [value; N] }
    }

    // The value of the number, where there is such a number.
    pub fn at(&self, number: u32) -> Option<T>
        ensures { result ≡ value_at self.now number }
    {
        let place = number.checked_sub(1)?;
        self.values.get(place as usize).copied()
    }

    // Gives the number, where there is such a number, another value.
    pub fn set(&mut self, number: u32, value: T)
        ensures { value_at self.new ≡ changed_at N number value (value_at self.old) }
    {
        // With `get_mut` the proof was tried and did not close: its contract says nothing of the values afterwards.
        if let Some(place) = number.checked_sub(1)
            && (place as usize) < N
        {
            self.values[place as usize] = value;
        }
    }
}
