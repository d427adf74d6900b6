ghost use Rattle.std.specs.Prelude.{◌≡◌, not, ◌==◌};

/// One row of a table. A host may hold any numbers here, so the kind stays a byte and the name 64 bits;
/// the table rules say which rows are lawful.
// Stays: kind, owner, link and up are numbers, since a host, as the packed image, may hold any number there.
#[derive(Clone, Copy, Debug, PartialEq, Eq)]
pub struct Row {
    /// 0 empty, 1 component, 2 provided interface, 3 required interface, 4 parameter
    pub kind: u8,
    /// 1 to 8 ASCII letters or digits, the first byte most significant, zero bytes behind
    pub name: u64,
    /// the place of the owner, or 255 for none
    pub owner: u8,
    /// of a provided interface: the place of the required interface it is bound to, or 255 for none
    pub link: u8,
    /// 1 for a started component
    pub up: u32,
    /// of a parameter: its least value, its greatest value and its value
    pub lo: i32,
    pub hi: i32,
    pub value: i32,
}

/// No place: what owner and link hold where there is none.
pub const NONE: u8 = 255;

pub const COMPONENT: u8 = 1;

pub const PROVIDED: u8 = 2;

pub const REQUIRED: u8 = 3;

pub const PARAMETER: u8 = 4;

/// The empty row: no owner, no link, zeros elsewhere.
pub const EMPTY: Row = Row {
    kind: 0,
    name: 0,
    owner: NONE,
    link: NONE,
    up: 0,
    lo: 0,
    hi: 0,
    value: 0,
};

impl Row {
    /// Whether something stands here: any kind but 0.
    pub fn is_filled(&self) -> bool
        ensures { result ≡ not (self.now.kind == 0) }
    {
        self.kind != 0
    }
}
