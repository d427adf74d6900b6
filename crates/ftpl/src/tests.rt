// Properties on small tables, in both scales.
use crate::events::holds;
use crate::formulas::{Event, EventKind, EventList};
use crate::properties::{Binder, Property, Quantifier, Test, Tests, Variable, VariableKind};
use crate::values::property_value;
use host::{COMPONENT, EMPTY, Host, PARAMETER, Plain, Row};
use scale::Distance;
use std::alloc::{AllocError, Global};
use std::test::Fail;

// the letter as a name
fn letter(byte: u8) -> u64 {
    (byte as u64) << 56
}

fn parameter(name: u64, value: i32) -> Row {
    Row {
        kind: PARAMETER,
        name,
        owner: 0,
        hi: 4096,
        value,
        ..EMPTY
    }
}

// component c at 0, which owns the parameters a of 5 and b of 7
fn table() -> Plain {
    let mut host = Plain::new();
    let component = Row {
        kind: COMPONENT,
        name: letter(b'c'),
        up: 1,
        ..EMPTY
    };
    let _ = host.write(0, component);
    let _ = host.write(1, parameter(letter(b'a'), 5));
    let _ = host.write(2, parameter(letter(b'b'), 7));
    host
}

fn one(quantifier: Quantifier, kind: VariableKind, test: Test) -> Property {
    Property {
        outer: Binder { quantifier, kind },
        inner: None,
        tests: Tests::Single(test),
    }
}

fn compared(heap: Global, turned: bool) -> Result<Property, AllocError> {
    let test = Tests::Single(Test::AtMost {
        left: Variable::Outer,
        right: Variable::Inner,
    });
    let tests = if turned {
        Tests::Not(Box::new(heap, test)?)
    } else {
        test
    };
    let binder = Binder {
        quantifier: Quantifier::ForAll,
        kind: VariableKind::Parameter,
    };
    Ok(Property {
        outer: binder,
        inner: Some(binder),
        tests,
    })
}

fn distance(host: &Plain, property: &Property) -> i32 {
    property_value::<_, Distance>(host, property).value()
}

#[test]
fn all_of_no_rows_is_top(rt: HostRuntime) {
    let all = one(
        Quantifier::ForAll,
        VariableKind::Parameter,
        Test::Up {
            subject: Variable::Outer,
        },
    );
    let some = one(
        Quantifier::Exists,
        VariableKind::Parameter,
        Test::Up {
            subject: Variable::Outer,
        },
    );
    let host = Plain::new();
    assert_eq!(rt; distance(&host, &all), 8_000_001);
    assert_eq!(rt; distance(&host, &some), -8_000_001);
}

#[test]
fn comparisons_are_graded(rt: HostRuntime) -> Result<(), Fail> {
    let host = table();
    let plain = compared(rt.alloc(), false)?;
    let turned = compared(rt.alloc(), true)?;
    assert_eq!(rt; distance(&host, &plain), -3);
    assert_eq!(rt; distance(&host, &turned), -5);
    assert!(rt; !property_value::<_, bool>(&host, &plain));
    let mut single = Plain::new();
    let _ = single.write(3, parameter(letter(b'a'), 5));
    assert_eq!(rt; distance(&single, &plain), 1);
    assert_eq!(rt; distance(&single, &turned), -1);
    Ok(())
}

#[test]
fn rows_are_looked_at(rt: HostRuntime) {
    let host = table();
    let inside = one(
        Quantifier::ForAll,
        VariableKind::Parameter,
        Test::OwnerNamed {
            subject: Variable::Outer,
            name: letter(b'c'),
        },
    );
    let named = one(
        Quantifier::Exists,
        VariableKind::Parameter,
        Test::Named {
            subject: Variable::Outer,
            name: letter(b'c'),
        },
    );
    let up = one(
        Quantifier::Exists,
        VariableKind::Component,
        Test::Up {
            subject: Variable::Outer,
        },
    );
    let least = one(
        Quantifier::ForAll,
        VariableKind::Parameter,
        Test::AtMostNumber {
            left: Variable::Outer,
            number: 7,
        },
    );
    assert!(rt; property_value::<_, bool>(&host, &inside));
    assert!(rt; !property_value::<_, bool>(&host, &named));
    assert!(rt; property_value::<_, bool>(&host, &up));
    assert_eq!(rt; distance(&host, &least), 1);
}

#[test]
fn event_lists_hold(rt: HostRuntime) {
    let list = EventList {
        called: 64,
        normal: 33,
        exceptional: 0,
    };
    assert!(rt;
        holds(
            list,
            Some(Event {
                operation: 5,
                kind: EventKind::Normal,
            }),
        )
    );
    assert!(rt;
        holds(
            list,
            Some(Event {
                operation: 6,
                kind: EventKind::Called,
            }),
        )
    );
    assert!(rt;
        !holds(
            list,
            Some(Event {
                operation: 6,
                kind: EventKind::Normal,
            }),
        )
    );
    assert!(rt;
        !holds(
            list,
            Some(Event {
                operation: 0,
                kind: EventKind::Normal,
            }),
        )
    );
    assert!(rt; !holds(list, None));
}
