// What a line of a book text says, and what the lines before it have listed.
use ftpl::formulas::Formula;
use ftpl::properties::Property;

/// How many properties, standing conditions and formulas are listed, and the property of the last condition, 0 without one.
// Stays: 0 lies below every number of a property, so the next condition is tested against one bound and not by two cases.
#[derive(Clone, Copy, PartialEq, Eq, Debug)]
pub(crate) struct Listed {
    pub properties: u8,
    pub conditions: u8,
    pub last: u8,
    pub formulas: u8,
}

/// What the first word of a line announces.
#[derive(Clone, Copy, PartialEq, Eq, Debug)]
pub(crate) enum Head {
    /// the next property
    Property,
    /// this property as a standing condition
    Condition(u8),
    /// the next formula
    Formula,
}

/// What a line says.
#[derive(Drop)]
pub(crate) enum Entry {
    Property(Property),
    Condition(u8),
    Formula(Formula),
}
