// A number for each link.
ghost use Rattle.std.specs.Prelude.{◌≡◌};
ghost use Rattle.layer.specs.Links.{value_at, alike, changed_at};

use book::{LAST_LINK, Numbered};

// How many links there may be.
const LINKS: usize = LAST_LINK as usize;

// A number for each link. It is a type of its own over `Numbered`, since what is no link has the number 0 here, and none there.
#[derive(Clone, Copy, Debug, PartialEq, Eq)]
pub struct PerLink {
    values: Numbered<u32, LINKS>,
}

impl PerLink {
    // The same number for every link.
    pub fn all(value: u32) -> PerLink
        ensures { value_at result ≡ alike value }
    {
        PerLink {
            values: Numbered::all(value),
        }
    }

    // The number of the link, 0 where there is no such link.
    pub fn at(&self, link: u32) -> u32
        ensures { result ≡ value_at self.now link }
    {
        self.values.at(link).unwrap_or(0)
    }

    // Gives the link, where there is such a link, another number.
    pub fn set(&mut self, link: u32, value: u32)
        ensures { value_at self.new ≡ changed_at link value (value_at self.old) }
    {
        self.values.set(link, value);
    }
}
