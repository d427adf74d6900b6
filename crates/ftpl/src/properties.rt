// What a property is.

/// How the values at the rows that a variable runs over are joined.
#[derive(Clone, Copy, PartialEq, Eq, Debug)]
pub enum Quantifier {
    /// `all`: by both, top where there is no row
    ForAll,
    /// `some`: by either, bottom where there is no row
    Exists,
}

/// The kind of the rows that a variable runs over; `as u8` is the number by which a row says its kind.
#[derive(Clone, Copy, PartialEq, Eq, Debug)]
pub enum VariableKind {
    /// `comp`
    Component = 1,
    /// `prov`
    Provided = 2,
    /// `req`
    Required = 3,
    /// `par`
    Parameter = 4,
}

/// A variable of a property; in a property with one quantifier the inner one stands for no row.
#[derive(Clone, Copy, PartialEq, Eq, Debug)]
pub enum Variable {
    /// `v`, which the first quantifier binds
    Outer,
    /// `w`, which the second quantifier binds
    Inner,
}

/// One test of the rows that the variables stand for.
#[derive(Clone, Copy, PartialEq, Eq, Debug)]
pub enum Test {
    /// `name v T`: v is named T
    Named { subject: Variable, name: u64 },
    /// `in v T`: v's owner is named T
    OwnerNamed { subject: Variable, name: u64 },
    /// `bound v w`: v's link is w
    Bound { from: Variable, to: Variable },
    /// `child v w`: v's owner is w
    Child { child: Variable, owner: Variable },
    /// `same v w`: one place
    Same { left: Variable, right: Variable },
    /// `up v`: v is started
    Up { subject: Variable },
    /// `atmost v N`: v's value is at most N, graded by the difference
    AtMostNumber { left: Variable, number: i32 },
    /// `atmost v w`: v's value is at most w's, graded by the difference
    AtMost { left: Variable, right: Variable },
}

/// Tests joined by `!`, `&` and `|`.
#[derive(PartialEq, Eq, Debug, Drop)]
pub enum Tests {
    Single(Test),
    Not(Box<Tests>),
    Both(Box<Tests>, Box<Tests>),
    Either(Box<Tests>, Box<Tests>),
}

/// A quantifier with the kind of the rows that its variable runs over.
#[derive(Clone, Copy, PartialEq, Eq, Debug)]
pub struct Binder {
    pub quantifier: Quantifier,
    pub kind: VariableKind,
}

/// A property of a table: one or two quantified variables, then tests.
#[derive(PartialEq, Eq, Debug, Drop)]
pub struct Property {
    /// binds v
    pub outer: Binder,
    /// binds w
    pub inner: Option<Binder>,
    pub tests: Tests,
}
