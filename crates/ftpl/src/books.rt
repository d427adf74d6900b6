// What a book is.
use crate::formulas::Formula;
use crate::properties::Property;

/// Properties, numbered from 1; the standing conditions, which are numbers of properties; formulas, numbered from 1.
#[derive(PartialEq, Eq, Debug, Drop)]
pub struct Book {
    pub properties: Vec<Property>,
    pub conditions: Vec<u8>,
    pub formulas: Vec<Formula>,
}
