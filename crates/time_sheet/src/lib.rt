// What a transaction takes, in nanoseconds, by the terms of document 000 section 4 and their letters: the sheet by itself, and what a path costs
// whatever the length. `out` is how many routers the command crosses, `home` how many the reply does.
#![tactic(auto)]

ghost use Rattle.std.specs.Prelude.{◌≡◌, ◌-◌, ◌*◌, ◌≤◌};
ghost use Rattle.rules_plan.specs.Sheet.{quotient_up, reply_address, crossing, header, data_time, reply_time, sheet, fixed_time, sheet_told, sheet_answer};
ghost use Rattle.time_sheet.specs.Paced.{timed, in_range};

use rules_plan::{Fault, Terms};
use std::marker::Model;

// The greatest latency and slot length.
pub const MOST_TIME: u32 = 1_000_000;

// "four given latencies (a, d, f, g)"
#[derive(Clone, Copy)]
pub struct Latencies {
    pub a: u32,
    pub d: u32,
    pub f: u32,
    pub g: u32,
}

// A rate and latencies that are in range. Contracts see the times of a plan with no slot length.
#[derive(Clone, Copy)]
pub struct Pace {
    rate: u32,
    given: Latencies,
}

impl Model for Pace {
    ghost use Rattle.rules_plan.specs.Plan.{Times};
    ghost use Rattle.rules_plan.specs.laws.Sheets.{TimesRange};
    ghost use Rattle.time_sheet.specs.Paced.{paced};

    ghost Value = { Times };

    ghost view = { λ p. paced p.rate p.given.a p.given.d p.given.f p.given.g };

    ghost invariant = { λ p. TimesRange (paced p.rate p.given.a p.given.d p.given.f p.given.g) };

    ghost inverse = { λ x. record { rate = x.rate; given = record { a = x.a; d = x.d; f = x.f; g = x.g } } };
}

// "each term rounded up"
fn quotient_up(n: u32, s: u32) -> u32
    requires { 1 ≤ s }
    ensures { (result ≡ quotient_up n s) × (result ≤ n) }
{
    n.div_ceil(s)
}

// "P the least multiple of 4 not below R"
fn reply_address(home: u8) -> u32
    ensures { (result ≡ reply_address home) × (result ≤ 256) }
{
    u32::from(home).div_ceil(4) * 4
}

// (b) and (h)
fn crossing_time(routers: u8) -> u32
    ensures { (result ≡ crossing routers) × (result ≤ 153_000) }
{
    600 * u32::from(routers)
}

// "R routers (links less one)"
pub fn routers_over(links: u8) -> u8
    ensures { result ≡ links - 1 }
{
    links.saturating_sub(1)
}

impl Pace {
    // None for "S outside 2 to 400, or a latency … over 1,000,000".
    pub fn new(rate: u32, given: Latencies) -> Option<Pace>
        ensures { result ≡ in_range (timed rate given) }
    {
        if rate < 2
            || 400 < rate
            || MOST_TIME < given.a
            || MOST_TIME < given.d
            || MOST_TIME < given.f
            || MOST_TIME < given.g
        {
            return None;
        }
        Some(Pace { rate, given })
    }

    // (c)
    fn header_time(self, out: u8, home: u8) -> u32
        ensures { (result ≡ header self.rate out home) × (result ≤ 5_270_000) }
    {
        quotient_up(
            10_000 * (u32::from(out) + 16 + reply_address(home)),
            self.rate,
        )
    }

    // (e)
    fn data_time(self, length: u16) -> u32
        ensures { (result ≡ data_time self.rate length) × (result ≤ 655_360_000) }
    {
        quotient_up(10_000 * (u32::from(length) + 1), self.rate)
    }

    // (i)
    fn reply_time(self, home: u8) -> u32
        ensures { (result ≡ reply_time self.rate home) × (result ≤ 2_630_000) }
    {
        quotient_up(10_000 * (u32::from(home) + 8), self.rate)
    }

    // The terms that are worked out, and the sum with the latencies.
    fn terms(self, out: u8, home: u8, length: u16) -> Terms
        ensures { result ≡ record {
          sum = sheet self out home length;
          b = crossing out;
          c = header self.rate out home;
          e = data_time self.rate length;
          h = crossing home;
          i = reply_time self.rate home;
        } }
    {
        let Latencies { a, d, f, g } = self.given;
        let b = crossing_time(out);
        let c = self.header_time(out, home);
        let e = self.data_time(length);
        let h = crossing_time(home);
        let i = self.reply_time(home);
        let sum = a + b + c + d + e + f + g + h + i;
        Terms { sum, b, c, e, h, i }
    }

    // The fixed time, all but the data term, multiplied by the rate: with it an event compares products and divides nothing (`fits-product`).
    pub fn cost(self, out: u8, home: u8) -> u32
        ensures { result ≡ self.rate * fixed_time self out home }
    {
        let rate = self.rate;
        let Latencies { a, d, f, g } = self.given;
        let there = crossing_time(out) + self.header_time(out, home);
        let back = crossing_time(home) + self.reply_time(home);
        rate * (there + back + a + d + f + g)
    }
}

// The sheet of a transaction by itself. Whatever the numbers are, it is answered or refused: "and so for the sheet by itself, also above 7 routers
// or 4,096 bytes".
pub fn sheet(out: u8, home: u8, rate: u16, length: u16, given: Latencies) -> Result<Terms, Fault>
    ensures { sheet_told result ≡ sheet_answer (timed rate given) out home length }
{
    match Pace::new(u32::from(rate), given) {
        Some(pace) if out <= 7 && home <= 7 && length <= 4096 => Ok(pace.terms(out, home, length)),
        _ => Err(Fault::OutOfRange),
    }
}
