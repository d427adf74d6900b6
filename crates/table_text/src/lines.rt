ghost use Rattle.std.specs.Prelude.{◌≡◌, ◌≤◌, length};
ghost use Rattle.table_text.specs.Lines.{key_text, ending};

use host::Row;

/// The nine keys of a line.
#[derive(Clone, Copy, Debug, PartialEq, Eq)]
pub enum Key {
    Place,
    Kind,
    Name,
    Owner,
    Link,
    Up,
    Lo,
    Hi,
    Value,
}

/// The order in which the keys stand.
pub(crate) const ORDER: [Key; 9] = [
    Key::Place,
    Key::Kind,
    Key::Name,
    Key::Owner,
    Key::Link,
    Key::Up,
    Key::Lo,
    Key::Hi,
    Key::Value,
];

impl Key {
    pub(crate) fn text(self) -> &'static [u8]
        ensures value { result.now ≡ key_text self }
        ensures bound { length result.now ≤ 6 }
    {
        match self {
            Key::Place => b"place=",
            Key::Kind => b"kind=",
            Key::Name => b"name=",
            Key::Owner => b"owner=",
            Key::Link => b"link=",
            Key::Up => b"up=",
            Key::Lo => b"lo=",
            Key::Hi => b"hi=",
            Key::Value => b"value=",
        }
    }

    pub(crate) fn ending(self) -> u8
        ensures { result ≡ ending self }
    {
        match self {
            Key::Value => b'\n',
            _ => b' ',
        }
    }
}

/// What one line says: a place and the row there.
#[derive(Clone, Copy, Debug, PartialEq, Eq)]
pub struct Line {
    pub place: u8,
    pub row: Row,
}
