// Whether two windows meet, by arithmetic on their periods.
ghost use Rattle.std.specs.Prelude.{◌≡◌, ℕ, ◌<◌, Decides};
ghost use Rattle.book.specs.Form.{GoodForm};
ghost use Rattle.book.specs.Holding.{Meet, meets as meets_in_cycle};
ghost use Rattle.bottom.specs.Leading.{Leads};

use book::Window;
use periods::gcd;

// How many steps, fewer than `period`, it is from `from` to a number that leaves the remainder of `to` by `period`;
// 0 where there is no period.
fn ahead(from: u32, to: u32, period: u32) -> u32
    ensures leads { 0 < period → Leads from to period result }
    ensures none { period ≡ 0 → result ≡ 0 }
{
    if period == 0 {
        return 0;
    }
    let here = from % period;
    let there = to % period;
    if here <= there {
        there - here
    } else {
        period - (here - there)
    }
}

// Whether two windows of good form, on one link without rest, ever hold one step.
pub fn meets(one: Window, other: Window) -> bool
    ensures always { 0 < one.length → 0 < one.period → 0 < other.length → 0 < other.period → Decides result (Meet 0 one other) }
    ensures searched { (cycle : ℕ) → 0 < cycle → GoodForm cycle 0 one → GoodForm cycle 0 other → result ≡ meets_in_cycle cycle 0 one other }
{
    let common = gcd(one.period, other.period);
    let to_other = ahead(one.start, other.start, common);
    let to_one = ahead(other.start, one.start, common);
    to_other < one.length || to_one < other.length
}
