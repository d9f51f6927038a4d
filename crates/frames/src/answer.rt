// The whole run, from the input to what is printed.
ghost use Rattle.std.specs.Prelude.{◌≡◌, IfOk, string_bytes};
ghost use Rattle.frames.specs.Answer.{answer as answer_to, Answered};
ghost use Rattle.text.specs.Lines.{lines, LinesOf};

use crate::fault::Refusal;
use crate::tally::Tally;
use crate::timed::time_line;
use std::alloc::Global;
use std::fmt;
use text::Lines;

// Writes a line for each line of `input`, up to the first that is refused, and answers what was timed.
fn answer_lines(out: &mut String, input: &[u8]) -> Result<Tally, fmt::Error>
    ensures { IfOk result (λ tally. Answered input.now (string_bytes out.old) (string_bytes out.new) tally) }
{
    let mut tally = Tally::default();
    for (before, line) in Lines::of(input).enumerate() {
        match time_line(line) {
            Ok(timed) => {
                writeln!(out, "{timed}")?;
                tally.frames += 1;
                tally.micros += u128::from(timed.micros);
            }
            Err(fault) => {
                let refusal = Refusal {
                    line: before + 1,
                    fault,
                };
                writeln!(out, "{refusal}")?;
                return Ok(tally);
            }
        }
    }
    Ok(tally)
}

// What the program prints for `input`.
pub fn answer(heap: Global, input: &[u8]) -> Result<String, fmt::Error>
    ensures text { IfOk result (λ text. string_bytes text ≡ answer_to input.now) }
    ensures lines { LinesOf (lines input.now) input.now }
{
    let mut out = String::new(heap);
    let tally = answer_lines(&mut out, input)?;
    writeln!(out, "{tally}")?;
    Ok(out)
}

#[cfg(test)]
mod tests {
    use super::*;
    use std::process::Abort;
    use std::test::Fail;

    // Whether the program prints `text` for `input`.
    fn prints(rt: &(impl Abort + AllocGlobal), input: &[u8], text: &str) -> Result<(), Fail> {
        let printed = answer(rt.alloc(), input)?;
        assert_eq!(rt; printed.as_str(), text);
        Ok(())
    }

    #[test]
    fn no_lines(rt: HostRuntime) -> Result<(), Fail> {
        prints(&rt, b"", "frames=0 us=0\n")
    }

    #[test]
    fn no_line_feed_at_the_end(rt: HostRuntime) -> Result<(), Fail> {
        let text = "size=233 rate=2 grain=100 steps=12 us=1200\nframes=1 us=1200\n";
        prints(&rt, b"size=233 rate=2 grain=100", text)
    }

    #[test]
    fn reading_stops_at_the_first_bad_line(rt: HostRuntime) -> Result<(), Fail> {
        let input =
            b"size=233 rate=2 grain=100\nsize=233 rate=2 grain=x\nsize=5 rate=1 grain=1\nbad\n";
        let text =
            "size=233 rate=2 grain=100 steps=12 us=1200\nrefused line=2 key=grain reason=digit expected\nframes=1 us=1200\n";
        prints(&rt, input, text)
    }

    #[test]
    fn bytes_that_are_no_text(rt: HostRuntime) -> Result<(), Fail> {
        prints(
            &rt,
            b"size=5\xff",
            "refused line=1 key=rate reason=key expected\nframes=0 us=0\n",
        )
    }

    #[test]
    fn a_very_long_line(rt: HostRuntime) -> Result<(), Fail> {
        let mut input = b"size=".to_vec(rt.alloc())?;
        for _ in 0..200_000 {
            input.push(b'7')?;
        }
        prints(
            &rt,
            input.as_slice(),
            "refused line=1 key=size reason=number above 4294967295\nframes=0 us=0\n",
        )
    }

    #[test]
    fn refusals(rt: HostRuntime) -> Result<(), Fail> {
        let heap = rt.alloc();
        let cases = [
            ("\n", "size reason=key expected"),
            ("hello", "size reason=key expected"),
            (" size=5 rate=1 grain=1", "size reason=key expected"),
            ("size =5 rate=1 grain=1", "size reason=key expected"),
            ("size=", "size reason=digit expected"),
            ("size=+5 rate=1 grain=1", "size reason=digit expected"),
            ("size=05 rate=1 grain=1", "size reason=leading zero"),
            ("size=00 rate=1 grain=1", "size reason=leading zero"),
            ("size=0 rate=1 grain=1", "size reason=number below 1"),
            ("size=1472 rate=1 grain=1", "size reason=number above 1471"),
            (
                "size=4294967295 rate=1 grain=1",
                "size reason=number above 1471",
            ),
            (
                "size=4294967296 rate=1 grain=1",
                "size reason=number above 4294967295",
            ),
            ("size=5", "rate reason=key expected"),
            ("size=5  rate=1 grain=1", "rate reason=key expected"),
            ("size=5x rate=1 grain=1", "rate reason=key expected"),
            ("size=5 grain=1 rate=1", "rate reason=key expected"),
            ("size=5 rate=-1 grain=1", "rate reason=digit expected"),
            ("size=5 rate=010 grain=1", "rate reason=leading zero"),
            ("size=5 rate=0 grain=1", "rate reason=number below 1"),
            ("size=5 rate=1001 grain=1", "rate reason=number above 1000"),
            (
                "size=5 rate=99999999999 grain=1",
                "rate reason=number above 4294967295",
            ),
            ("size=5 rate=1", "grain reason=key expected"),
            ("size=5 rate=1 grain:1", "grain reason=key expected"),
            ("size=5 rate=1 grain=", "grain reason=digit expected"),
            ("size=5 rate=1 grain=007", "grain reason=leading zero"),
            ("size=5 rate=1 grain=0", "grain reason=number below 1"),
            (
                "size=5 rate=1 grain=1000001",
                "grain reason=number above 1000000",
            ),
            (
                "size=5 rate=1 grain=4294967296",
                "grain reason=number above 4294967295",
            ),
            (
                "size=5 rate=1 grain=1 ",
                "grain reason=end of line expected",
            ),
            (
                "size=5 rate=1 grain=1\r\n",
                "grain reason=end of line expected",
            ),
            ("size=0 rate=x grain=1", "rate reason=digit expected"),
            (
                "size=0 rate=0 grain=1 x",
                "grain reason=end of line expected",
            ),
            ("size=0 rate=0 grain=0", "size reason=number below 1"),
            ("size=5 rate=0 grain=0", "rate reason=number below 1"),
        ];
        for (line, why) in cases {
            let printed = answer(heap, line.as_bytes())?;
            let expected = format!(in heap; "refused line=1 key={why}\nframes=0 us=0\n")?;
            assert_eq!(rt; printed.as_str(), expected.as_str());
        }
        Ok(())
    }
}
