// What a link gives its windows.

// How many steps the cycle of a link has, and for how many it is still held after each window. Both are 0 where there is no such
// link, and no `Option` says so: the call `span` promises two numbers for every link, and a program prints them.
#[derive(Clone, Copy, Debug, Default, PartialEq, Eq)]
pub struct Span {
    pub cycle: u32,
    pub rest: u32,
}
