// The formulas of a book on one board, forty values each.
ghost use Rattle.std.specs.Prelude.{◌≡◌, ℕ, ◌+◌, ◌*◌, ◌^◌, ◌<◌, ◌≤◌, length, drop, MatchOption, nat_le, vec_items, vec_len};
ghost use Rattle.ftpl.specs.Paths.{holds as holds_at};
ghost use Rattle.ftpl.specs.Formulas.{seen};
ghost use Rattle.monitor.specs.Monitor.{begin as begun, step, step_with};
ghost use Rattle.monitor.specs.Layout.{viewed};
ghost use Rattle.monitor.specs.Boards.{room, part, values_in, Stepped, Tidy};

use crate::steps::Held;
use crate::working::{clear, fill, values_of};
use ftpl::books::Book;
use ftpl::formulas::{Event, Formula};
use host::Host;
use scale::Scale;

/// Whether so many values are enough for so many formulas: 40 for each, and 64.
pub fn has_room(formulas: usize, values: usize) -> bool
    ensures { result ≡ nat_le (room formulas) values }
{
    board_length(formulas).is_some_and(|needed| needed <= values)
}

/// The values that a board needs for so many formulas; none where no board can be that long.
pub fn board_length(formulas: usize) -> Option<usize>
    ensures { MatchOption result (2 ^ 64 ≤ room formulas) (λ n. n ≡ room formulas) }
{
    formulas.checked_mul(40)?.checked_add(64)
}

fn follow_at<S: Scale>(f: &Formula, event: Option<Event>, working: &[S], cells: &mut [S])
    requires { 40 ≤ length cells.old }
    ensures { viewed S.Scale.ops cells.new ≡ step_with S.Scale.ops f.now (values_in S.Scale.ops working.now f.now.leaves) (λ e. holds_at e event) (viewed S.Scale.ops cells.old) }
{
    Held::load(cells)
        .advance(f, values_of(working, f.leaves), event)
        .store(cells);
}

/// Goes on with each formula by one position, from the working values.
fn follow<S: Scale>(formulas: &[Formula], event: Option<Event>, working: &[S], parts: &mut [S])
    requires { 40 * length formulas.now ≤ length parts.old }
    ensures { Stepped S.Scale.ops formulas.now (λ f. step_with S.Scale.ops f (values_in S.Scale.ops working.now f.leaves) (λ e. holds_at e event)) parts.old parts.new }
{
    // Stays: each part by where it begins, as in `start_all`.
    for (i, f) in formulas.iter().enumerate() {
        follow_at(f, event, working, &mut parts[40 * i..40 * i + 40]);
    }
}

/// Before the first position, for so many formulas.
pub(crate) fn start_all<S: Scale>(formulas: usize, board: &mut [S])
    requires { room formulas ≤ length board.old }
    ensures started { (i : ℕ) → i < formulas → viewed S.Scale.ops (part i board.new) ≡ begun S.Scale.ops }
    ensures beyond { drop (40 * formulas) board.new ≡ drop (40 * formulas) board.old }
{
    // Stays: what `chunks_exact_mut` lends leaves nothing known of the board, so that each part is begun would stay open.
    for i in 0..formulas {
        Held::begin().store(&mut board[40 * i..40 * i + 40]);
    }
}

/// Goes on with each formula by one position: the host's table, and what happened.
pub(crate) fn advance_all<H: Host, S: Scale>(
    host: &H,
    book: &Book,
    event: Option<Event>,
    board: &mut [S],
)
    requires { room (vec_len book.now.formulas) ≤ length board.old }
    ensures stepped { Stepped S.Scale.ops (vec_items book.now.formulas) (λ f. step S.Scale.ops f (seen S.Scale.ops (vec_items book.now.properties) (record { rows = H.Host.rows host.now; event = event }))) board.old board.new }
    ensures tidy { Tidy S.Scale.ops (vec_len book.now.formulas) board.old board.new }
{
    let formulas = book.formulas.as_slice();
    let (parts, rest) = board.split_at_mut(40 * formulas.len());
    let (working, _) = rest.split_at_mut(64);
    fill(host, book, working);
    follow(formulas, event, working, parts);
    clear(working);
}
