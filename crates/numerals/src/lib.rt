// Numbers in the texts: decimal, no plus sign, no leading zero, no minus before 0.
#![tactic(auto)]

ghost use Rattle.std.specs.Prelude.{◌≡◌, ℕ, ◌≤◌, ℤ, pos, negsuc, ◌≤ℤ◌, decimal, Decides, MatchOption, FitsSigned, ◌≢◌};
ghost use Rattle.std.specs.Int.{w32};
ghost use Rattle.std.specs.Fmt.{signed_decimal};

use itoa::Buffer;
use std::str;

// Whether a text is just what is written of a number.
fn is_written(s: &[u8], z: i32) -> bool
    ensures { Decides result (s.now ≡ signed_decimal z) }
{
    s == Buffer::new().format(z).as_bytes()
}

// The number that a text writes.
fn read_integer(s: &[u8]) -> Option<i32>
    ensures { MatchOption result ((z : ℤ) → FitsSigned w32 z → s.now ≢ signed_decimal z) (λ z. FitsSigned w32 z × (s.now ≡ signed_decimal z)) }
{
    let z = str::from_utf8(s).ok()?.parse::<i32>().ok()?;
    is_written(s, z).then_some(z)
}

/// The number that a text writes, if it lies between two bounds.
pub fn natural_between(s: &[u8], least: u8, most: u8) -> Option<u8>
    ensures { MatchOption result ((n : ℕ) → least ≤ n → n ≤ most → s.now ≢ decimal n) (λ n. (least ≤ n) × (n ≤ most) × (s.now ≡ decimal n)) }
{
    let n = u8::try_from(read_integer(s)?).ok()?;
    (least..=most).contains(&n).then_some(n)
}

/// The bounds of lo, hi, value and the numbers of a book.
const LEAST: i32 = -1_000_000;

const MOST: i32 = 1_000_000;

fn is_within_a_million(z: i32) -> bool
    ensures { Decides result ((negsuc 999999 ≤ℤ z) × (z ≤ℤ pos 1000000)) }
{
    (LEAST..=MOST).contains(&z)
}

/// The number that a text writes, if it lies within a million of 0.
pub fn value_within(s: &[u8]) -> Option<i32>
    ensures { MatchOption result ((z : ℤ) → negsuc 999999 ≤ℤ z → z ≤ℤ pos 1000000 → s.now ≢ signed_decimal z) (λ z. (negsuc 999999 ≤ℤ z) × (z ≤ℤ pos 1000000) × (s.now ≡ signed_decimal z)) }
{
    let z = read_integer(s)?;
    is_within_a_million(z).then_some(z)
}
