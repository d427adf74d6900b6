// A book of formulas with every core and 0 to 3 `after`s, watched over a small path on both scales side by side. What it writes is compared
// with `stdout`, which `expected.py` works out from the definitions alone.
#![tactic(auto)]

use ftpl::books::Book;
use ftpl::formulas::{Core, Event, EventKind, EventList, Formula, Leaf, Leaves, Slot, Trace};
use ftpl::properties::{Binder, Property, Quantifier, Test, Tests, Variable, VariableKind};
use host::{COMPONENT, EMPTY, Host, PARAMETER, Plain, Row};
use monitor::{begin, read, record};
use scale::{Beside, Distance};
use std::alloc::{AllocError, Global};
use std::io;

/// One position of the path: the parameter's value, whether the component is up, and what happened.
#[derive(Clone, Copy)]
struct Moment {
    value: i32,
    up: u32,
    event: Event,
}

fn at_moment(value: i32, up: u32, operation: u8, kind: EventKind) -> Moment {
    Moment {
        value,
        up,
        event: Event { operation, kind },
    }
}

fn property(quantifier: Quantifier, kind: VariableKind, test: Test) -> Property {
    Property {
        outer: Binder { quantifier, kind },
        inner: None,
        tests: Tests::Single(test),
    }
}

// 1: all v:par : atmost v 10; 2: some v:comp : up v; 3: all v:par : atmost v 4
fn properties(heap: Global) -> Result<Vec<Property>, AllocError> {
    let mut all = Vec::new(heap);
    let left = Variable::Outer;
    all.push(property(
        Quantifier::ForAll,
        VariableKind::Parameter,
        Test::AtMostNumber { left, number: 10 },
    ))?;
    all.push(property(
        Quantifier::Exists,
        VariableKind::Component,
        Test::Up { subject: left },
    ))?;
    all.push(property(
        Quantifier::ForAll,
        VariableKind::Parameter,
        Test::AtMostNumber { left, number: 4 },
    ))?;
    Ok(all)
}

// (always 1 | eventually 2) & (never 3 | eventually 1)
fn trace(heap: Global) -> Result<Trace, AllocError> {
    let left = Trace::Either(
        Box::new(heap, Trace::At(Slot::First))?,
        Box::new(heap, Trace::At(Slot::Second))?,
    );
    let right = Trace::Either(
        Box::new(heap, Trace::At(Slot::Third))?,
        Box::new(heap, Trace::At(Slot::Fourth))?,
    );
    Ok(Trace::Both(Box::new(heap, left)?, Box::new(heap, right)?))
}

// [5 called]
const CALLED_5: EventList = EventList {
    called: 32,
    normal: 0,
    exceptional: 0,
};
// [5 terminates]
const ENDED_5: EventList = EventList {
    called: 0,
    normal: 32,
    exceptional: 32,
};
// [5 called, 6 normal]
const MIXED: EventList = EventList {
    called: 32,
    normal: 64,
    exceptional: 0,
};

const LEAVES: Leaves = Leaves {
    first: Leaf::Always(1),
    second: Leaf::Eventually(2),
    third: Leaf::Never(3),
    fourth: Leaf::Eventually(1),
};

// T; before [5 called] T; T until [5 called]
fn cores(heap: Global) -> Result<[Core; 3], AllocError> {
    Ok([
        Core::Plain(trace(heap)?),
        Core::Before(CALLED_5, trace(heap)?),
        Core::Until(trace(heap)?, CALLED_5),
    ])
}

// the last none, one, two and three of: after [5 called] after [5 terminates] after [5 called, 6 normal]
const AFTERS: [[Option<EventList>; 3]; 4] = [
    [None, None, None],
    [None, None, Some(MIXED)],
    [None, Some(ENDED_5), Some(MIXED)],
    [Some(CALLED_5), Some(ENDED_5), Some(MIXED)],
];

fn book(heap: Global) -> Result<Book, AllocError> {
    let mut formulas = Vec::new(heap);
    for [first, second, third] in AFTERS {
        for core in cores(heap)? {
            formulas.push(Formula {
                first,
                second,
                third,
                core,
                leaves: LEAVES,
            })?;
        }
    }
    Ok(Book {
        properties: properties(heap)?,
        conditions: Vec::new(heap),
        formulas,
    })
}

// a component at 0 and its parameter at 1
fn set(host: &mut Plain, now: Moment) {
    let component = Row {
        kind: COMPONENT,
        name: 99 << 56,
        up: now.up,
        ..EMPTY
    };
    let parameter = Row {
        kind: PARAMETER,
        name: 97 << 56,
        owner: 0,
        hi: 100,
        value: now.value,
        ..EMPTY
    };
    let _ = host.write(0, component);
    let _ = host.write(1, parameter);
}

fn show(
    rt: &HostRuntime,
    book: &Book,
    position: usize,
    board: &[Beside<bool, Distance>],
) -> io::Result<()> {
    for number in 1..=12u8 {
        match read(book, number, board) {
            Ok(value) => {
                let yes = value.first;
                let far = value.second.value();
                println!(rt; "position {position} formula {number}: {yes} {far}")?;
            }
            Err(_) => println!(rt; "position {position} formula {number}: refused")?,
        }
    }
    Ok(())
}

fn main(rt: HostRuntime) -> io::Result<()> {
    let watched = book(rt.alloc())?;
    let path = [
        at_moment(5, 0, 0, EventKind::Called),
        at_moment(7, 0, 5, EventKind::Called),
        at_moment(12, 0, 5, EventKind::Normal),
        at_moment(3, 0, 6, EventKind::Normal),
        at_moment(9, 1, 5, EventKind::Called),
        at_moment(2, 1, 5, EventKind::Exceptional),
        at_moment(11, 0, 5, EventKind::Called),
        at_moment(14, 0, 5, EventKind::Normal),
        at_moment(4, 0, 5, EventKind::Called),
        at_moment(6, 1, 6, EventKind::Normal),
    ];
    let mut board = [Beside {
        first: false,
        second: Distance::new(1),
    }; 544];
    let mut host = Plain::new();
    for (position, now) in path.iter().enumerate() {
        set(&mut host, *now);
        let outcome = if position == 0 {
            begin(&host, &watched, &mut board)
        } else {
            record(&host, &watched, now.event, &mut board)
        };
        if outcome.is_err() {
            println!(rt; "refused")?;
        }
        show(&rt, &watched, position, &board)?;
    }
    Ok(())
}
