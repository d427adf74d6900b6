// What a property is worth on a table.
ghost use Rattle.std.specs.Prelude.{◌≡◌, ℕ, ◌<◌, [], ◌∷◌, pos, negsuc, ◌≤ℤ◌, ◌==◌};
ghost use Rattle.host.specs.Tables.{row_at};
ghost use Rattle.ftpl.specs.Properties.{kind_number, place_of, margin as margin_of, verdict as verdict_of, test_value, tests_value, joined_by, pair_by, quantified, value_at, property_value, numbered_value, first_broken};

use crate::numbers::numbered;
use crate::properties::{Binder, Property, Quantifier, Test, Tests, Variable, VariableKind};
use host::{Host, NONE, Row, row_at, same_name};
use scale::Scale;

/// The places that the two variables of a property stand for.
#[derive(Clone, Copy)]
struct Places {
    v: u8,
    w: u8,
}

impl Places {
    fn of(self, variable: Variable) -> u8
        ensures { result ≡ place_of self.v self.w variable }
    {
        match variable {
            Variable::Outer => self.v,
            Variable::Inner => self.w,
        }
    }
}

fn row_of<H: Host>(host: &H, places: Places, variable: Variable) -> Row
    ensures { result ≡ row_at (H.Host.rows host.now) (place_of places.v places.w variable) }
{
    row_at(host, places.of(variable))
}

fn verdict<S: Scale>(b: bool) -> S
    ensures { result ≡ verdict_of S.Scale.ops b }
{
    if b { S::top() } else { S::bottom() }
}

fn margin(left: i32, right: i32) -> i32
    ensures value { result ≡ margin_of left right }
    ensures least { negsuc 1999999 ≤ℤ result }
    ensures most { result ≤ℤ pos 2000000 }
{
    (right as i64 - left as i64).clamp(-2_000_000, 2_000_000) as i32
}

fn at_most<S: Scale>(left: i32, right: i32) -> S
    ensures { result ≡ S.Scale.ops.grade (margin_of left right) }
{
    S::grade(margin(left, right))
}

fn test_value<H: Host, S: Scale>(host: &H, places: Places, test: Test) -> S
    ensures { result ≡ test_value S.Scale.ops (H.Host.rows host.now) places.v places.w test }
{
    match test {
        Test::Named { subject, name } => verdict(same_name(
            row_of(host, places, subject).name,
            name,
        )),
        Test::OwnerNamed { subject, name } => {
            let owner = row_of(host, places, subject).owner;
            verdict(same_name(row_at(host, owner).name, name))
        }
        Test::Bound { from, to } => verdict(row_of(host, places, from).link == places.of(to)),
        Test::Child { child, owner } => verdict(
            row_of(host, places, child).owner == places.of(owner),
        ),
        Test::Same { left, right } => verdict(places.of(left) == places.of(right)),
        Test::Up { subject } => verdict(row_of(host, places, subject).up == 1),
        Test::AtMostNumber { left, number } => at_most(row_of(host, places, left).value, number),
        Test::AtMost { left, right } => {
            let high = row_of(host, places, right).value;
            at_most(row_of(host, places, left).value, high)
        }
    }
}

fn tests_value<H: Host, S: Scale>(host: &H, places: Places, tests: &Tests) -> S
    ensures { result ≡ tests_value S.Scale.ops (H.Host.rows host.now) places.v places.w tests.now }
{
    match tests {
        Tests::Single(test) => test_value(host, places, *test),
        Tests::Not(part) => {
            let value: S = tests_value(host, places, part);
            value.turn()
        }
        Tests::Both(left, right) => {
            let value: S = tests_value(host, places, left);
            value.both(tests_value(host, places, right))
        }
        Tests::Either(left, right) => {
            let value: S = tests_value(host, places, left);
            value.either(tests_value(host, places, right))
        }
    }
}

/// The value of no row.
fn nothing<S: Scale>(quantifier: Quantifier) -> S
    ensures { result ≡ joined_by S.Scale.ops quantifier [] }
{
    match quantifier {
        Quantifier::ForAll => S::top(),
        Quantifier::Exists => S::bottom(),
    }
}

/// The values of some rows with that of one more.
fn joined<S: Scale>(quantifier: Quantifier, total: S, more: S) -> S
    ensures { result ≡ pair_by S.Scale.ops quantifier total more }
{
    match quantifier {
        Quantifier::ForAll => total.both(more),
        Quantifier::Exists => total.either(more),
    }
}

fn is_of_kind<H: Host>(host: &H, place: u8, kind: VariableKind) -> bool
    ensures { result ≡ ((row_at (H.Host.rows host.now) place).kind == kind_number kind) }
{
    row_at(host, place).kind == kind as u8
}

/// The values at the places of the rows of the binder's kind, joined.
fn quantified<H: Host, S: Scale, F: Fn(u8) -> S>(host: &H, binder: Binder, value: F) -> S
    requires { F.IsAlwaysCallable value }
    ensures { (f : ℕ → S) → ((p : ℕ) (x : S) → p < 256 → F.post value p x → x ≡ f p) → result ≡ quantified S.Scale.ops (H.Host.rows host.now) binder f }
{
    let mut total = nothing(binder.quantifier);
    for place in 0..host.capacity() {
        if is_of_kind(host, place, binder.kind) {
            total = joined(binder.quantifier, total, value(place));
        }
    }
    total
}

fn value_at<H: Host, S: Scale>(host: &H, property: &Property, v: u8) -> S
    ensures { result ≡ value_at S.Scale.ops (H.Host.rows host.now) property.now.inner property.now.tests v }
{
    match property.inner {
        // Stays: 255, no place, where there is no second quantifier, as the definition has it.
        None => tests_value(host, Places { v, w: NONE }, &property.tests),
        Some(binder) => quantified(
            host,
            binder,
            |w| tests_value(host, Places { v, w }, &property.tests),
        ),
    }
}

/// The value of a property on the host's table.
pub fn property_value<H: Host, S: Scale>(host: &H, property: &Property) -> S
    ensures { result ≡ property_value S.Scale.ops (H.Host.rows host.now) property.now }
{
    quantified(host, property.outer, |v| value_at(host, property, v))
}

/// The value of the property with this number, counted from 1; bottom where none is listed.
pub fn numbered_value<H: Host, S: Scale>(host: &H, properties: &[Property], number: u8) -> S
    ensures { result ≡ numbered_value S.Scale.ops (H.Host.rows host.now) properties.now number }
{
    let listed = &properties[..properties.len().min(64)];
    match numbered(listed, number) {
        Some(property) => property_value(host, property),
        None => S::bottom(),
    }
}

/// The first of the standing conditions that the host's table does not meet, read in yes and no.
pub fn broken_condition<H: Host>(host: &H, properties: &[Property], conditions: &[u8]) -> Option<u8>
    ensures { result ≡ first_broken (H.Host.rows host.now) properties.now conditions.now }
{
    conditions.iter().copied().find(|number| !numbered_value::<_, bool>(host, properties, *number))
}
