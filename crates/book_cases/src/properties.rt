// The rule of a property as text, with a parenthesis around every pair of tests that is joined.
use ftpl::properties::{Binder, Property, Quantifier, Test, Tests, Variable, VariableKind};
use host::unpack_name;
use std::fmt;
use std::fmt::Write;

/// A property, to be written as its rule.
#[derive(Clone, Copy)]
pub struct PropertyText<'a>(pub &'a Property);

/// A part of a property, to be written as in its rule.
#[derive(Clone, Copy)]
struct Part<T>(T);

impl fmt::Display for Part<Quantifier> {
    fn fmt<W: fmt::Write>(&self, f: &mut fmt::Formatter<W>) -> fmt::Result {
        f.write_str(match self.0 {
            Quantifier::ForAll => "all",
            Quantifier::Exists => "some",
        })
    }
}

impl fmt::Display for Part<VariableKind> {
    fn fmt<W: fmt::Write>(&self, f: &mut fmt::Formatter<W>) -> fmt::Result {
        f.write_str(match self.0 {
            VariableKind::Component => "comp",
            VariableKind::Provided => "prov",
            VariableKind::Required => "req",
            VariableKind::Parameter => "par",
        })
    }
}

impl fmt::Display for Part<Variable> {
    fn fmt<W: fmt::Write>(&self, f: &mut fmt::Formatter<W>) -> fmt::Result {
        f.write_str(match self.0 {
            Variable::Outer => "v",
            Variable::Inner => "w",
        })
    }
}

/// A name in 64 bits.
#[derive(Clone, Copy)]
struct Name(u64);

impl fmt::Display for Name {
    fn fmt<W: fmt::Write>(&self, f: &mut fmt::Formatter<W>) -> fmt::Result {
        for b in unpack_name(self.0).as_slice() {
            f.write_char(*b as char)?;
        }
        Ok(())
    }
}

impl fmt::Display for Part<Test> {
    fn fmt<W: fmt::Write>(&self, f: &mut fmt::Formatter<W>) -> fmt::Result {
        match self.0 {
            Test::Named { subject, name } => write!(f, "name {} {}", Part(subject), Name(name)),
            Test::OwnerNamed { subject, name } => write!(f, "in {} {}", Part(subject), Name(name)),
            Test::Bound { from, to } => write!(f, "bound {} {}", Part(from), Part(to)),
            Test::Child { child, owner } => write!(f, "child {} {}", Part(child), Part(owner)),
            Test::Same { left, right } => write!(f, "same {} {}", Part(left), Part(right)),
            Test::Up { subject } => write!(f, "up {}", Part(subject)),
            Test::AtMostNumber { left, number } => write!(f, "atmost {} {number}", Part(left)),
            Test::AtMost { left, right } => write!(f, "atmost {} {}", Part(left), Part(right)),
        }
    }
}

/// A binder of a variable.
#[derive(Clone, Copy)]
struct Bound(Binder, Variable);

impl fmt::Display for Bound {
    fn fmt<W: fmt::Write>(&self, f: &mut fmt::Formatter<W>) -> fmt::Result {
        let Bound(Binder { quantifier, kind }, variable) = *self;
        write!(f, "{} {}:{} ", Part(quantifier), Part(variable), Part(kind))
    }
}

// Stays: a function and no `Display`, since it calls itself, and through `write!` such a call has no proof that it ends.
fn write_tests<W: fmt::Write>(f: &mut fmt::Formatter<W>, tests: &Tests) -> fmt::Result {
    match tests {
        Tests::Single(test) => write!(f, "{}", Part(*test)),
        Tests::Not(part) => {
            f.write_str("!")?;
            write_tests(f, part)
        }
        Tests::Both(left, right) | Tests::Either(left, right) => {
            let sign = if matches!(tests, Tests::Both(..)) {
                '&'
            } else {
                '|'
            };
            f.write_str("(")?;
            write_tests(f, left)?;
            write!(f, " {sign} ")?;
            write_tests(f, right)?;
            f.write_str(")")
        }
    }
}

impl fmt::Display for PropertyText<'_> {
    fn fmt<W: fmt::Write>(&self, f: &mut fmt::Formatter<W>) -> fmt::Result {
        let property = self.0;
        write!(f, "{}", Bound(property.outer, Variable::Outer))?;
        if let Some(binder) = property.inner {
            write!(f, "{}", Bound(binder, Variable::Inner))?;
        }
        f.write_str(": ")?;
        write_tests(f, &property.tests)
    }
}
