// One line of a script: the order that it gives.
ghost use Rattle.std.specs.Prelude.{◌≡◌, length, map};
ghost use Rattle.std.specs.Option.{option_map};
ghost use Rattle.script.specs.Form.{field as read_field, ended, numbers_of, left};
ghost use Rattle.script.specs.Reading.{read_make, read_book, read_lift, read_find, read_held, read_span, read_call, read_line, ReadsExactly};

use crate::order::{Call, Order, Pile};
use book::Window;
use text::{after_front, number};

// The number of `key` at the front of `text`, and what follows it.
fn field<'a>(text: &'a [u8], key: &[u8]) -> Option<(u32, &'a [u8])>
    ensures { option_map left result ≡ read_field key.now text.now }
{
    number(after_front(text, key)?).ok()
}

// Refuses a line of which some text is left.
fn end(rest: &[u8]) -> Option<()>
    ensures { result ≡ ended rest.now }
{
    rest.is_empty().then_some(())
}

// The numbers of a line that is these keys, each followed by its number, and nothing else.
// The keys are a slice: `[&[u8]; N]` was tried, and an array of references whose length is a parameter gets no proof.
fn numbers<const N: usize>(line: &[u8], keys: &[&[u8]]) -> Option<[u32; N]>
    requires { length keys.now ≡ N }
    ensures { result ≡ numbers_of (map (λ key. key.now) keys.now) line.now }
{
    let mut numbers = [0; N];
    let mut rest = line;
    // By index: with `numbers.iter_mut().zip(keys)` the proof was tried and did not close.
    for (i, key) in keys.iter().enumerate() {
        (numbers[i], rest) = field(rest, key)?;
    }
    end(rest)?;
    Some(numbers)
}

// The order of a line that makes a book.
fn make(line: &[u8]) -> Option<Order>
    ensures { result ≡ read_make line.now }
{
    let [pile, links, cycle] = numbers::<3>(line, &[b"pile=", b" links=", b" cycle="])?;
    let pile = Pile::try_from(pile).ok()?;
    Some(Order::Make { pile, links, cycle })
}

// The call of a line that books a window.
fn book(line: &[u8]) -> Option<Call>
    ensures { result ≡ read_book line.now }
{
    let [number, link, start, length, period] = numbers::<5>(
        line,
        &[b"book=", b" link=", b" start=", b" length=", b" period="],
    )?;
    let window = Window {
        link,
        start,
        length,
        period,
    };
    Some(Call::Book { number, window })
}

// The call of a line that lifts a window. This and two more below differ in their key and in what they make: a function over key
// and maker would say in a closure's clauses what each says here by its definition.
fn lift(line: &[u8]) -> Option<Call>
    ensures { result ≡ read_lift line.now }
{
    let [number] = numbers::<1>(line, &[b"lift="])?;
    Some(Call::Lift { number })
}

// The call of a line that asks for the window of a number.
fn find(line: &[u8]) -> Option<Call>
    ensures { result ≡ read_find line.now }
{
    let [number] = numbers::<1>(line, &[b"find="])?;
    Some(Call::Find { number })
}

// The call of a line that asks who holds a step of a link.
fn held(line: &[u8]) -> Option<Call>
    ensures { result ≡ read_held line.now }
{
    let [link, step] = numbers::<2>(line, &[b"held=", b" step="])?;
    Some(Call::Held { link, step })
}

// The call of a line that asks for the cycle and the rest of a link.
fn span(line: &[u8]) -> Option<Call>
    ensures { result ≡ read_span line.now }
{
    let [link] = numbers::<1>(line, &[b"span="])?;
    Some(Call::Span { link })
}

// The call that a line makes of a book.
fn read_call(line: &[u8]) -> Option<Call>
    ensures { result ≡ read_call line.now }
{
    book(line)
        .or_else(|| lift(line))
        .or_else(|| find(line))
        .or_else(|| held(line))
        .or_else(|| span(line))
}

// The order that a line gives, none where it cannot be read.
pub fn read_line(line: &[u8]) -> Option<Order>
    ensures value { result ≡ read_line line.now }
    ensures exact { ReadsExactly line.now result }
{
    read_call(line).map(Order::Call).or_else(|| make(line))
}

#[cfg(test)]
mod tests {
    use super::*;
    use std::process::Abort;

    // Whether `line` is read as this order.
    fn reads(rt: &impl Abort, line: &[u8], order: Order) {
        assert_eq!(rt; read_line(line), Some(order));
    }

    // Whether `line` is read as this call.
    fn calls(rt: &impl Abort, line: &[u8], call: Call) {
        reads(rt, line, Order::Call(call));
    }

    // Whether `line` cannot be read.
    fn refuses(rt: &impl Abort, line: &[u8]) {
        assert!(rt; read_line(line).is_none());
    }

    #[test]
    fn orders(rt: HostRuntime) {
        let (pile, links, cycle) = (Pile::Formula, 2, 24);
        let make = Order::Make { pile, links, cycle };
        reads(&rt, b"pile=1 links=2 cycle=24", make);
        let window = Window {
            link: 1,
            start: 0,
            length: 3,
            period: 4_294_967_295,
        };
        let line = b"book=7 link=1 start=0 length=3 period=4294967295";
        calls(&rt, line, Call::Book { number: 7, window });
        calls(&rt, b"lift=1", Call::Lift { number: 1 });
        calls(&rt, b"find=256", Call::Find { number: 256 });
        calls(&rt, b"held=1 step=8", Call::Held { link: 1, step: 8 });
        calls(&rt, b"span=2", Call::Span { link: 2 });
    }

    #[test]
    fn other_spacing(rt: HostRuntime) {
        refuses(&rt, b"");
        refuses(&rt, b" lift=1");
        refuses(&rt, b"lift=1 ");
        refuses(&rt, b"lift=1\r");
        refuses(&rt, b"lift =1");
        refuses(&rt, b"held=1  step=8");
        refuses(&rt, b"held=1\tstep=8");
    }

    #[test]
    fn other_numbers(rt: HostRuntime) {
        refuses(&rt, b"lift=");
        refuses(&rt, b"lift=01");
        refuses(&rt, b"lift=-1");
        refuses(&rt, b"lift=4294967296");
        refuses(&rt, b"pile=0 links=2 cycle=24");
        refuses(&rt, b"pile=2 links=2 cycle=24");
    }

    #[test]
    fn other_keys(rt: HostRuntime) {
        refuses(&rt, b"1");
        refuses(&rt, b"drop=1");
        refuses(&rt, b"Lift=1");
        refuses(&rt, b"held=1");
        refuses(&rt, b"step=8 held=1");
        refuses(&rt, b"held=1 cycle=8");
        refuses(&rt, b"lift=1 step=8");
        refuses(&rt, b"pile=1 cycle=24 links=2");
        refuses(&rt, b"book=1 link=1 start=0 length=1");
    }
}
