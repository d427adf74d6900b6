// The rule of a formula as text, with a parenthesis around every pair of traces that is joined.
use ftpl::formulas::{Core, EventList, Formula, Leaf, Leaves, Trace};
use std::fmt;
use std::fmt::Write;

/// A formula, to be written as its rule.
#[derive(Clone, Copy)]
pub struct FormulaText<'a>(pub &'a Formula);

fn called_word(list: EventList, bit: u64) -> Option<&'static str> {
    (list.called & bit != 0).then_some("called")
}

/// How an operation ended that is on a list; both ends have one word.
fn ended_word(list: EventList, bit: u64) -> Option<&'static str> {
    match (list.normal & bit != 0, list.exceptional & bit != 0) {
        (true, true) => Some("terminates"),
        (true, false) => Some("normal"),
        (false, true) => Some("exceptional"),
        (false, false) => None,
    }
}

/// A list of events, to be written as in a rule.
#[derive(Clone, Copy)]
struct Events(EventList);

impl fmt::Display for Events {
    fn fmt<W: fmt::Write>(&self, f: &mut fmt::Formatter<W>) -> fmt::Result {
        f.write_str("[")?;
        // Stays: a flag, since of a `&str` that a loop changes it would have to be proved that it is text.
        let mut first = true;
        for operation in 0..64u32 {
            let bit = 1u64 << operation;
            let words = [called_word(self.0, bit), ended_word(self.0, bit)];
            for word in words.into_iter().flatten() {
                let between = if first { "" } else { ", " };
                write!(f, "{between}{operation} {word}")?;
                first = false;
            }
        }
        f.write_str("]")
    }
}

fn write_leaf<W: fmt::Write>(f: &mut fmt::Formatter<W>, leaf: Leaf) -> fmt::Result {
    match leaf {
        Leaf::Always(property) => write!(f, "always {property}"),
        Leaf::Eventually(property) => write!(f, "eventually {property}"),
        Leaf::Never(property) => write!(f, "never {property}"),
    }
}

// Stays: a function and no `Display`, since it calls itself, and through `write!` such a call has no proof that it ends.
fn write_trace<W: fmt::Write>(
    f: &mut fmt::Formatter<W>,
    leaves: Leaves,
    trace: &Trace,
) -> fmt::Result {
    match trace {
        Trace::At(slot) => write_leaf(f, leaves.at(*slot)),
        Trace::Both(left, right) | Trace::Either(left, right) => {
            let sign = if matches!(trace, Trace::Both(..)) {
                '&'
            } else {
                '|'
            };
            f.write_str("(")?;
            write_trace(f, leaves, left)?;
            write!(f, " {sign} ")?;
            write_trace(f, leaves, right)?;
            f.write_str(")")
        }
    }
}

/// A trace with its leaves, to be written as in a rule.
#[derive(Clone, Copy)]
struct Traced<'a>(&'a Trace, Leaves);

impl fmt::Display for Traced<'_> {
    fn fmt<W: fmt::Write>(&self, f: &mut fmt::Formatter<W>) -> fmt::Result {
        write_trace(f, self.1, self.0)
    }
}

impl fmt::Display for FormulaText<'_> {
    fn fmt<W: fmt::Write>(&self, f: &mut fmt::Formatter<W>) -> fmt::Result {
        let formula = self.0;
        for list in [formula.first, formula.second, formula.third]
            .into_iter()
            .flatten()
        {
            write!(f, "after {} ", Events(list))?;
        }
        let leaves = formula.leaves;
        match &formula.core {
            Core::Plain(trace) => write!(f, "{}", Traced(trace, leaves)),
            Core::Before(list, trace) => write!(
                f,
                "before {} {}",
                Events(*list),
                Traced(trace, leaves)
            ),
            Core::Until(trace, list) => write!(
                f,
                "{} until {}",
                Traced(trace, leaves),
                Events(*list)
            ),
        }
    }
}
