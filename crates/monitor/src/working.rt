// The 64 working values: what the properties are worth at the position that is being recorded.
ghost use Rattle.std.specs.Prelude.{◌≡◌, ◌+◌, ◌<◌, length, replicate, vec_items};
ghost use Rattle.std.specs.List.{list_any};
ghost use Rattle.monitor.specs.Monitor.{number_of};
ghost use Rattle.monitor.specs.Boards.{working_value, values_in, Serves, Ready, names};

use ftpl::books::Book;
use ftpl::formulas::{Formula, Leaf, Leaves, PerLeaf};
use ftpl::numbers::numbered;
use ftpl::values::numbered_value;
use host::Host;
use scale::Scale;
use std::array;

fn number_of(leaf: Leaf) -> u8
    ensures { result ≡ number_of leaf }
{
    match leaf {
        Leaf::Always(number) | Leaf::Eventually(number) | Leaf::Never(number) => number,
    }
}

fn names(leaves: Leaves, number: u8) -> bool
    ensures { result ≡ names leaves number }
{
    number_of(leaves.first) == number
        || number_of(leaves.second) == number
        || number_of(leaves.third) == number
        || number_of(leaves.fourth) == number
}

fn is_named(formulas: &[Formula], number: u8) -> bool
    ensures { result ≡ list_any (λ f. names f.leaves number) formulas.now }
{
    formulas.iter().any(|f| names(f.leaves, number))
}

/// The value of a listed property that a formula names, once a position; bottom of any other.
fn needed_value<H: Host, S: Scale>(host: &H, book: &Book, number: u8) -> S
    ensures { Serves S.Scale.ops (H.Host.rows host.now) (vec_items book.now.properties) (vec_items book.now.formulas) number result }
{
    let properties = book.properties.as_slice();
    if usize::from(number) <= properties.len() && is_named(book.formulas.as_slice(), number) {
        numbered_value(host, properties, number)
    } else {
        S::bottom()
    }
}

/// Sets the working values to what the properties that formulas name are worth on the host's table.
pub(crate) fn fill<H: Host, S: Scale>(host: &H, book: &Book, values: &mut [S])
    requires { length values.old ≡ 64 }
    ensures { Ready S.Scale.ops (H.Host.rows host.now) (vec_items book.now.properties) (vec_items book.now.formulas) values.new }
{
    let needed: [S; 64] = array::from_fn(
        |k| -> S
            requires { k < 64 }
            ensures { Serves S.Scale.ops (H.Host.rows host.entry.now) (vec_items book.entry.now.properties) (vec_items book.entry.now.formulas) (k + 1) result }
        { needed_value(host, book, k as u8 + 1) },
    );
    values.copy_from_slice(&needed);
}

/// Sets the working values back to bottom.
pub(crate) fn clear<S: Scale>(values: &mut [S])
    requires { length values.old ≡ 64 }
    ensures { values.new ≡ replicate 64 S.Scale.ops.bottom }
{
    values.copy_from_slice(&[S::bottom(); 64]);
}

fn value_of<S: Scale>(values: &[S], leaf: Leaf) -> S
    ensures { result ≡ working_value S.Scale.ops values.now (number_of leaf) }
{
    match numbered(values, number_of(leaf)) {
        Some(value) => *value,
        None => S::bottom(),
    }
}

/// The working values of a trace's leaves.
pub(crate) fn values_of<S: Scale>(values: &[S], leaves: Leaves) -> PerLeaf<S>
    ensures { result ≡ values_in S.Scale.ops values.now leaves }
{
    PerLeaf {
        first: value_of(values, leaves.first),
        second: value_of(values, leaves.second),
        third: value_of(values, leaves.third),
        fourth: value_of(values, leaves.fourth),
    }
}
