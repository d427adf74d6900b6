// Records a path on both scales side by side and shows what its formulas are worth: 1,000 positions, or with an argument 1,000,000 with the
// positions a second for each tenth of the path.
#![tactic(auto)]

use ftpl::books::Book;
use ftpl::formulas::{Core, Event, EventKind, EventList, Formula, Leaf, Leaves, Slot, Trace};
use ftpl::properties::{Binder, Property, Quantifier, Test, Tests, Variable, VariableKind};
use host::{COMPONENT, EMPTY, Host, PARAMETER, Plain, Row};
use monitor::{begin, read, record};
use scale::{Beside, Distance};
use std::alloc::{AllocError, Global};
use std::time::Instant;
use std::{env, io};

// the names sweep, rec, len and buf
const SWEEP: u64 = 0x7377_6565_7000_0000;

const REC: u64 = 0x7265_6300_0000_0000;

const LEN: u64 = 0x6c65_6e00_0000_0000;

const BUF: u64 = 0x6275_6600_0000_0000;

// Stays: rows made up as in the tests of `ftpl`, with other numbers; a library of them would only serve tests.
fn component(name: u64) -> Row {
    Row {
        kind: COMPONENT,
        name,
        ..EMPTY
    }
}

fn parameter(name: u64, owner: u8, value: i32) -> Row {
    Row {
        kind: PARAMETER,
        name,
        owner,
        hi: 4096,
        value,
        ..EMPTY
    }
}

fn table() -> Plain {
    let mut host = Plain::new();
    let _ = host.write(0, component(SWEEP));
    let _ = host.write(1, component(REC));
    let _ = host.write(2, parameter(LEN, 0, 512));
    let _ = host.write(3, parameter(BUF, 1, 1000));
    host
}

// all v:par all w:par : !name v len | !name w buf | atmost v w
fn property(heap: Global) -> Result<Property, AllocError> {
    let v = Variable::Outer;
    let w = Variable::Inner;
    let no_len = Tests::Not(Box::new(
        heap,
        Tests::Single(Test::Named {
            subject: v,
            name: LEN,
        }),
    )?);
    let no_buf = Tests::Not(Box::new(
        heap,
        Tests::Single(Test::Named {
            subject: w,
            name: BUF,
        }),
    )?);
    let fits = Tests::Single(Test::AtMost { left: v, right: w });
    let either = Tests::Either(Box::new(heap, no_len)?, Box::new(heap, no_buf)?);
    let tests = Tests::Either(Box::new(heap, either)?, Box::new(heap, fits)?);
    let binder = Binder {
        quantifier: Quantifier::ForAll,
        kind: VariableKind::Parameter,
    };
    Ok(Property {
        outer: binder,
        inner: Some(binder),
        tests,
    })
}

const NORMAL_5: EventList = EventList {
    called: 0,
    normal: 32,
    exceptional: 0,
};

const CALLED_5: EventList = EventList {
    called: 32,
    normal: 0,
    exceptional: 0,
};

fn formula(first: Option<EventList>, second: Option<EventList>, core: Core) -> Formula {
    let always = Leaf::Always(1);
    let leaves = Leaves {
        first: always,
        second: Leaf::Eventually(1),
        third: always,
        fourth: always,
    };
    Formula {
        first,
        second,
        third: None,
        core,
        leaves,
    }
}

// always 1; after [5 normal] always 1; after [5 called] (always 1 | eventually 1) until [5 normal]; before [5 called] always 1
fn book(heap: Global) -> Result<Book, AllocError> {
    let mut properties = Vec::new(heap);
    properties.push(property(heap)?)?;
    let one = Trace::Either(
        Box::new(heap, Trace::At(Slot::First))?,
        Box::new(heap, Trace::At(Slot::Second))?,
    );
    let mut formulas = Vec::new(heap);
    formulas.push(formula(None, None, Core::Plain(Trace::At(Slot::First))))?;
    formulas.push(formula(Some(NORMAL_5), None, Core::Plain(Trace::At(Slot::First))))?;
    formulas.push(formula(Some(CALLED_5), None, Core::Until(one, NORMAL_5)))?;
    formulas.push(formula(None, None, Core::Before(CALLED_5, Trace::At(Slot::First))))?;
    Ok(Book {
        properties,
        conditions: Vec::new(heap),
        formulas,
    })
}

const OPENED: Event = Event {
    operation: 5,
    kind: EventKind::Called,
};

const ENDED: Event = Event {
    operation: 5,
    kind: EventKind::Normal,
};

// an operation opened and ended, over and over, with another length each time
fn go_on(host: &mut Plain, book: &Book, rounds: u32, board: &mut [Beside<bool, Distance>]) {
    for k in 0..rounds {
        let _ = record(host, book, OPENED, board);
        let _ = host.write(2, parameter(LEN, 0, (k % 997) as i32));
        let _ = record(host, book, ENDED, board);
    }
}

fn main(rt: HostRuntime) -> io::Result<()> {
    let timed = env::args(&rt)?.count() > 1;
    let rounds = if timed { 50_000 } else { 50 };
    let watched = book(rt.alloc())?;
    let mut host = table();
    let mut board = [Beside {
        first: false,
        second: Distance::new(1),
    }; 224];
    let _ = begin(&host, &watched, &mut board);
    for tenth in 1..=10u32 {
        let start = Instant::now(&rt)?;
        go_on(&mut host, &watched, rounds, &mut board);
        if timed {
            let micros = start.elapsed(&rt)?.as_micros().max(1);
            let rate = 100_000_000_000u128 / micros;
            println!(rt; "tenth {tenth}: {rate} positions a second")?;
        }
    }
    for number in 1..=4u8 {
        if let Ok(value) = read(&watched, number, &board) {
            let yes = value.first;
            let far = value.second.value();
            println!(rt; "formula {number}: {yes} {far}")?;
        }
    }
    Ok(())
}
