ghost use Rattle.std.specs.Prelude.{◌≡◌, ◌+◌, ◌*◌, ◌≤◌, ◌++◌, ◌⊎◌, length, drop, Decides, IfOk};
ghost use Rattle.host.specs.Names.{name_bytes};
ghost use Rattle.arrayvec.specs.ArrayVec.{array_vec_len};
ghost use Rattle.table_text.specs.Lines.{kind_text, place_text, value_text, ended, line_text, row_text, text_of_table};
ghost use Rattle.table_text.specs.Puts.{Puts, Writes};

use crate::lines::{Key, Line, ORDER};
use arrayvec::ArrayVec;
use host::{
    COMPONENT, Host, NONE, PARAMETER, PROVIDED, REQUIRED, Refusal, Row, row_at, unpack_name,
};
use itoa::{Buffer, Integer};
use std::alloc::{AllocError, Global};

/// No line of a table text has more bytes: nine words, none with its end longer than 18.
pub const LINE_BYTES: usize = 162;

/// The text of a line.
type LineText = ArrayVec<u8, 162>;

// Appends bytes for which there is room.
fn push_bytes(text: &mut LineText, bytes: &[u8])
    requires { array_vec_len text.old + length bytes.now ≤ 162 }
    ensures { text.new.items ≡ text.old.items ++ bytes.now }
{
    text.try_extend_from_slice(bytes).unwrap();
}

// Stays: room is asked for here and below and kept by no type, since each value takes some of it.
fn push_decimal<I: Integer>(text: &mut LineText, n: I)
    requires few { I.MAX_STR_LEN ≤ 11 }
    requires room { array_vec_len text.old + 11 ≤ 162 }
    ensures text { text.new.items ≡ text.old.items ++ I.text n }
    ensures bound { array_vec_len text.new ≤ array_vec_len text.old + 11 }
{
    push_bytes(text, Buffer::new().format(n).as_bytes());
}

fn push_kind(text: &mut LineText, kind: u8)
    requires { array_vec_len text.old + 11 ≤ 162 }
    ensures text { text.new.items ≡ text.old.items ++ kind_text kind }
    ensures bound { array_vec_len text.new ≤ array_vec_len text.old + 11 }
{
    match kind {
        COMPONENT => push_bytes(text, b"comp"),
        PROVIDED => push_bytes(text, b"prov"),
        REQUIRED => push_bytes(text, b"req"),
        PARAMETER => push_bytes(text, b"par"),
        _ => push_decimal(text, kind),
    }
}

// An owner or a link.
fn push_place(text: &mut LineText, place: u8)
    requires { array_vec_len text.old + 11 ≤ 162 }
    ensures text { text.new.items ≡ text.old.items ++ place_text place }
    ensures bound { array_vec_len text.new ≤ array_vec_len text.old + 11 }
{
    match place {
        NONE => push_bytes(text, b"none"),
        _ => push_decimal(text, place),
    }
}

fn push_value(text: &mut LineText, line: Line, key: Key)
    requires { array_vec_len text.old + 11 ≤ 162 }
    ensures text { text.new.items ≡ text.old.items ++ value_text key line }
    ensures bound { array_vec_len text.new ≤ array_vec_len text.old + 11 }
{
    match key {
        Key::Place => push_decimal(text, line.place),
        Key::Kind => push_kind(text, line.row.kind),
        Key::Name => push_bytes(text, unpack_name(line.row.name).as_slice()),
        Key::Owner => push_place(text, line.row.owner),
        Key::Link => push_place(text, line.row.link),
        Key::Up => push_decimal(text, line.row.up),
        Key::Lo => push_decimal(text, line.row.lo),
        Key::Hi => push_decimal(text, line.row.hi),
        Key::Value => push_decimal(text, line.row.value),
    }
}

// Appends a word and what ends it.
#[tactic(auto, unfolding(crate::specs::Lines::word))]
fn push_word(text: &mut LineText, line: Line, key: Key)
    requires { array_vec_len text.old + 18 ≤ 162 }
    ensures text { text.new.items ≡ text.old.items ++ ended line key }
    ensures bound { array_vec_len text.new ≤ array_vec_len text.old + 18 }
{
    push_bytes(text, key.text());
    push_value(text, line, key);
    text.push(key.ending());
}

fn spell(line: Line) -> LineText
    ensures { result.items ≡ line_text line }
{
    let mut text = LineText::new();
    for key in ORDER {
        push_word(&mut text, line, key);
    }
    text
}

// The text of a row at its place: nothing if it is not filled.
fn spell_row(place: u8, row: Row) -> LineText
    ensures { result.items ≡ row_text place row }
{
    if row.is_filled() {
        spell(Line { place, row })
    } else {
        LineText::new()
    }
}

fn text_length<H: Host>(host: &H) -> usize
    ensures { result ≡ length (text_of_table (H.Host.rows host.now)) }
{
    let mut sum = 0;
    for place in 0..host.capacity() {
        sum += spell_row(place, row_at(host, place)).len();
    }
    sum
}

// Stays: a buffer that the caller lends, and how far it is filled, since the project writes without a heap.
fn put_bytes(buf: &mut [u8], at: usize, bytes: &[u8]) -> usize
    requires { at + length bytes.now ≤ length buf.old }
    ensures puts { Puts buf.old at bytes.now buf.new result }
    ensures rest { drop result buf.new ≡ drop result buf.old }
{
    let end = at + bytes.len();
    buf[at..end].copy_from_slice(bytes);
    end
}

// Whether the text of a host's rows fits so many bytes: where there is room for 162 bytes at each place, it fits unspelled.
fn fits<H: Host>(host: &H, room: usize) -> bool
    ensures { Decides result ((162 * length (H.Host.rows host.now) ≤ room) ⊎ (length (text_of_table (H.Host.rows host.now)) ≤ room)) }
{
    room >= LINE_BYTES * usize::from(host.capacity()) || text_length(host) <= room
}

/// Writes the rows of a host as table text into a buffer, and answers the text's length; bytes behind it stay.
/// A buffer that is too small is left as it was.
pub fn write_table<H: Host>(host: &H, buf: &mut [u8]) -> Result<usize, Refusal>
    ensures { Writes (text_of_table (H.Host.rows host.now)) buf.old result buf.new }
{
    if !fits(host, buf.len()) {
        return Err(Refusal::TooSmall);
    }
    let mut at = 0;
    for place in 0..host.capacity() {
        at = put_bytes(buf, at, &spell_row(place, row_at(host, place)));
    }
    Ok(at)
}

/// The rows of a host as table text, in memory of its own.
pub fn text_of_table<H: Host>(heap: Global, host: &H) -> Result<Vec<u8>, AllocError>
    ensures { IfOk result (λ text. text.items ≡ text_of_table (H.Host.rows host.now)) }
{
    let mut text = Vec::new(heap);
    for place in 0..host.capacity() {
        text.extend_from_slice(&spell_row(place, row_at(host, place)))?;
    }
    Ok(text)
}

#[cfg(test)]
mod tests {
    use super::*;
    use host::{EMPTY, Plain};
    use std::test::Fail;

    #[test]
    fn writes_into_memory_of_its_own(rt: HostRuntime) -> Result<(), Fail> {
        let mut host = Plain::new();
        let row = Row {
            kind: COMPONENT,
            name: 0x6100_0000_0000_0000,
            ..EMPTY
        };
        assert_eq!(rt; host.write(7, row), Ok(()));
        let text = text_of_table(rt.alloc(), &host)?;
        let line = b"place=7 kind=comp name=a owner=none link=none up=0 lo=0 hi=0 value=0\n";
        assert_eq!(rt; text.as_slice(), line.as_slice());
        Ok(())
    }
}
