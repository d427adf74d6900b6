// The monitor's calls: begin at position 0, record one position more, read a formula's value.
ghost use Rattle.std.specs.Prelude.{◌≡◌, ℕ, ◌+◌, ◌<◌, ◌≤◌, List, [], ◌∷◌, ◌++◌, length, Some, None, vec_len, MatchResult};
ghost use Rattle.ftpl.specs.Paths.{Position};
ghost use Rattle.monitor.specs.Boards.{room, Watches, Outcome, Reading};

use crate::following::{advance_all, has_room, start_all};
use crate::steps::Held;
use ftpl::books::Book;
use ftpl::formulas::Event;
use ftpl::numbers::numbered;
use host::{Host, Refusal};
use scale::Scale;

/// Position 0 of a path: the host's table, without an event.
pub fn begin<H: Host, S: Scale>(host: &H, book: &Book, board: &mut [S]) -> Result<(), Refusal>
    ensures outcome { Outcome S.Scale.ops (vec_len book.now.formulas) board.old board.new result }
    ensures watches { room (vec_len book.now.formulas) ≤ length board.old → Watches S.Scale.ops book.now (record { rows = H.Host.rows host.now; event = None } ∷ []) board.new }
{
    check_room(book.formulas.len(), board.len())?;
    start_all(book.formulas.len(), board);
    advance_all(host, book, None, board);
    Ok(())
}

/// One position more: the host's table, and what happened.
pub fn record<H: Host, S: Scale>(
    host: &H,
    book: &Book,
    event: Event,
    board: &mut [S],
) -> Result<(), Refusal>
    ensures outcome { Outcome S.Scale.ops (vec_len book.now.formulas) board.old board.new result }
    ensures watches { room (vec_len book.now.formulas) ≤ length board.old → (path : List Position) → Watches S.Scale.ops book.now path board.old → Watches S.Scale.ops book.now (path ++ (record { rows = H.Host.rows host.now; event = Some event } ∷ [])) board.new }
{
    check_room(book.formulas.len(), board.len())?;
    advance_all(host, book, Some(event), board);
    Ok(())
}

/// Refuses a board that is too small for the book.
fn check_room(formulas: usize, values: usize) -> Result<(), Refusal>
    ensures { MatchResult result (λ _. room formulas ≤ values) (λ e. (values < room formulas) × (e ≡ Refusal.TooSmall)) }
{
    if has_room(formulas, values) {
        Ok(())
    } else {
        Err(Refusal::TooSmall)
    }
}

/// The value of the formula with this number, counted from 1, over the whole path that the board has watched.
pub fn read<S: Scale>(book: &Book, number: u8, board: &[S]) -> Result<S, Refusal>
    ensures { Reading S.Scale.ops book.now number board.now result }
{
    check_room(book.formulas.len(), board.len())?;
    let formulas = book.formulas.as_slice();
    let f = numbered(formulas, number).ok_or(Refusal::NoSuch)?;
    let at = 40 * (usize::from(number) - 1);
    Ok(Held::load(&board[at..at + 40]).show(f))
}
