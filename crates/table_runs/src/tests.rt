use host::{COMPONENT, EMPTY, Host, NONE, PARAMETER, PROVIDED, Plain, REQUIRED, Refusal, Row};
use table::{Breach, Step, try_step};

// names of one or three letters
const T: u64 = 0x5400_0000_0000_0000;

const A: u64 = 0x4100_0000_0000_0000;

const B: u64 = 0x4200_0000_0000_0000;

const C: u64 = 0x4300_0000_0000_0000;

const P: u64 = 0x5000_0000_0000_0000;

const Q: u64 = 0x5100_0000_0000_0000;

const R: u64 = 0x5200_0000_0000_0000;

const LEN: u64 = 0x6c65_6e00_0000_0000;

const BUF: u64 = 0x6275_6600_0000_0000;
/// no name
const BLANK: u64 = 0x2000_0000_0000_0000;

/// A step, and the number of its refusal, or 0 where it is accepted.
// Stays: a number for a refusal, since it is the number that these tests hold fast.
#[derive(Clone, Copy)]
struct Run(Step, u8);

fn number(answer: Result<(), Refusal>) -> u8 {
    answer.err().map_or(0, Refusal::number)
}

/// One after another on one table: a component T (0) with the components A (1) and B (2), a provided interface P of A (3),
/// a required interface R of B (4) and a parameter len of A (5).
static RUNS: [Run; 138] = [
    // new: a component, and 2, 3, 10, 11 in their order
    Run(Step::New { at: 0, name: T }, 0),
    Run(
        Step::New {
            at: 255,
            name: BLANK,
        },
        2,
    ),
    Run(Step::New { at: 0, name: BLANK }, 3),
    Run(Step::New { at: 1, name: BLANK }, 10),
    Run(Step::New { at: 1, name: T }, 11),
    Run(Step::New { at: 1, name: A }, 0),
    Run(Step::New { at: 2, name: B }, 0),
    // add: 2, 3, 13, 12, 15, 11; a stopped component without owner or parameters to itself is 15
    Run(Step::Add { at: 255, owner: 0 }, 2),
    Run(Step::Add { at: 1, owner: 255 }, 2),
    Run(Step::Add { at: 1, owner: 9 }, 3),
    Run(Step::Add { at: 9, owner: 1 }, 3),
    Run(Step::Add { at: 1, owner: 1 }, 15),
    Run(Step::Add { at: 1, owner: 0 }, 0),
    Run(Step::Add { at: 1, owner: 2 }, 13),
    Run(Step::Add { at: 0, owner: 1 }, 15),
    Run(Step::Start { at: 0 }, 0),
    Run(Step::Add { at: 2, owner: 0 }, 12),
    Run(Step::Add { at: 0, owner: 0 }, 12),
    Run(Step::Stop { at: 0 }, 0),
    Run(Step::Add { at: 2, owner: 0 }, 0),
    Run(Step::New { at: 9, name: A }, 0),
    Run(Step::Add { at: 9, owner: 0 }, 11),
    Run(Step::Delete { at: 9 }, 0),
    // prov and req: interfaces of A and B, and 2, 3, 10, 12, 11
    Run(
        Step::Provide {
            at: 3,
            owner: 1,
            name: P,
        },
        0,
    ),
    Run(
        Step::Require {
            at: 4,
            owner: 2,
            name: R,
        },
        0,
    ),
    Run(
        Step::Provide {
            at: 255,
            owner: 1,
            name: P,
        },
        2,
    ),
    Run(
        Step::Provide {
            at: 9,
            owner: 255,
            name: P,
        },
        2,
    ),
    Run(
        Step::Provide {
            at: 3,
            owner: 1,
            name: BLANK,
        },
        3,
    ),
    Run(
        Step::Provide {
            at: 9,
            owner: 4,
            name: P,
        },
        3,
    ),
    Run(
        Step::Provide {
            at: 9,
            owner: 1,
            name: BLANK,
        },
        10,
    ),
    Run(
        Step::Provide {
            at: 9,
            owner: 1,
            name: P,
        },
        11,
    ),
    Run(
        Step::Require {
            at: 255,
            owner: 2,
            name: R,
        },
        2,
    ),
    Run(
        Step::Require {
            at: 9,
            owner: 255,
            name: R,
        },
        2,
    ),
    Run(
        Step::Require {
            at: 4,
            owner: 2,
            name: BLANK,
        },
        3,
    ),
    Run(
        Step::Require {
            at: 9,
            owner: 3,
            name: R,
        },
        3,
    ),
    Run(
        Step::Require {
            at: 9,
            owner: 2,
            name: BLANK,
        },
        10,
    ),
    Run(
        Step::Require {
            at: 9,
            owner: 2,
            name: R,
        },
        11,
    ),
    Run(Step::Start { at: 1 }, 0),
    Run(
        Step::Provide {
            at: 9,
            owner: 1,
            name: P,
        },
        12,
    ),
    Run(
        Step::Require {
            at: 9,
            owner: 1,
            name: R,
        },
        12,
    ),
    Run(
        Step::Provide {
            at: 9,
            owner: 1,
            name: BLANK,
        },
        10,
    ),
    Run(Step::Stop { at: 1 }, 0),
    // par: a parameter of A, and 2, 3, 10, 13, 12, 11
    Run(
        Step::Parameter {
            at: 5,
            owner: 1,
            name: LEN,
            lo: 0,
            hi: 4096,
            value: 512,
        },
        0,
    ),
    Run(
        Step::Parameter {
            at: 255,
            owner: 1,
            name: LEN,
            lo: 0,
            hi: 4096,
            value: 512,
        },
        2,
    ),
    Run(
        Step::Parameter {
            at: 9,
            owner: 255,
            name: LEN,
            lo: 0,
            hi: 4096,
            value: 512,
        },
        2,
    ),
    Run(
        Step::Parameter {
            at: 5,
            owner: 1,
            name: BLANK,
            lo: 0,
            hi: 4096,
            value: 512,
        },
        3,
    ),
    Run(
        Step::Parameter {
            at: 9,
            owner: 5,
            name: LEN,
            lo: 0,
            hi: 4096,
            value: 512,
        },
        3,
    ),
    Run(
        Step::Parameter {
            at: 9,
            owner: 1,
            name: BLANK,
            lo: 0,
            hi: 4096,
            value: 512,
        },
        10,
    ),
    Run(
        Step::Parameter {
            at: 9,
            owner: 0,
            name: LEN,
            lo: 0,
            hi: 9,
            value: 10,
        },
        10,
    ),
    Run(
        Step::Parameter {
            at: 9,
            owner: 1,
            name: LEN,
            lo: -1000001,
            hi: 9,
            value: 9,
        },
        10,
    ),
    Run(
        Step::Parameter {
            at: 9,
            owner: 1,
            name: LEN,
            lo: 0,
            hi: 1000001,
            value: 9,
        },
        10,
    ),
    Run(
        Step::Parameter {
            at: 9,
            owner: 1,
            name: LEN,
            lo: 1,
            hi: 9,
            value: 0,
        },
        10,
    ),
    Run(
        Step::Parameter {
            at: 9,
            owner: 0,
            name: BUF,
            lo: 0,
            hi: 4096,
            value: 512,
        },
        13,
    ),
    Run(
        Step::Parameter {
            at: 9,
            owner: 1,
            name: LEN,
            lo: 0,
            hi: 4096,
            value: 512,
        },
        11,
    ),
    Run(Step::Start { at: 0 }, 0),
    Run(
        Step::Parameter {
            at: 9,
            owner: 0,
            name: BUF,
            lo: 0,
            hi: 4096,
            value: 512,
        },
        13,
    ),
    Run(Step::Stop { at: 0 }, 0),
    Run(Step::Start { at: 1 }, 0),
    Run(
        Step::Parameter {
            at: 9,
            owner: 1,
            name: LEN,
            lo: 0,
            hi: 4096,
            value: 512,
        },
        12,
    ),
    Run(Step::Stop { at: 1 }, 0),
    Run(
        Step::Parameter {
            at: 9,
            owner: 1,
            name: BUF,
            lo: -1000000,
            hi: 1000000,
            value: 0,
        },
        0,
    ),
    Run(Step::Delete { at: 9 }, 0),
    // set: up to hi, and 2, 3, 10
    Run(Step::Set { at: 5, value: 4096 }, 0),
    Run(Step::Set { at: 5, value: 4097 }, 10),
    Run(Step::Set { at: 5, value: 0 }, 0),
    Run(Step::Set { at: 5, value: -1 }, 10),
    Run(Step::Set { at: 255, value: 1 }, 2),
    Run(Step::Set { at: 1, value: -1 }, 3),
    // add where the owner has a parameter, or a name is taken: 13 before 15, 12 and 11
    Run(Step::Add { at: 0, owner: 1 }, 13),
    Run(Step::New { at: 9, name: C }, 0),
    Run(Step::Add { at: 9, owner: 1 }, 13),
    Run(Step::Start { at: 1 }, 0),
    Run(Step::Add { at: 9, owner: 1 }, 13),
    Run(Step::Stop { at: 1 }, 0),
    Run(Step::Delete { at: 9 }, 0),
    // bind: P to R, and 2, 3, 13, 12
    Run(Step::Bind { at: 255, to: 4 }, 2),
    Run(Step::Bind { at: 3, to: 255 }, 2),
    Run(Step::Bind { at: 4, to: 3 }, 3),
    Run(Step::Bind { at: 3, to: 5 }, 3),
    Run(
        Step::Require {
            at: 9,
            owner: 1,
            name: Q,
        },
        0,
    ),
    Run(Step::Bind { at: 3, to: 9 }, 13),
    Run(Step::Delete { at: 9 }, 0),
    Run(Step::Start { at: 2 }, 0),
    Run(Step::Bind { at: 3, to: 4 }, 12),
    Run(Step::Stop { at: 2 }, 0),
    Run(Step::Start { at: 1 }, 0),
    Run(Step::Bind { at: 3, to: 4 }, 0),
    Run(Step::Stop { at: 1 }, 0),
    Run(Step::Bind { at: 3, to: 4 }, 13),
    // unbind: 2, 3, 13, 12, and del and rem of what is linked: 14
    Run(Step::Unbind { at: 255 }, 2),
    Run(Step::Unbind { at: 4 }, 3),
    Run(Step::Start { at: 2 }, 0),
    Run(Step::Unbind { at: 3 }, 12),
    Run(Step::Stop { at: 2 }, 0),
    Run(Step::Delete { at: 3 }, 14),
    Run(Step::Delete { at: 4 }, 14),
    Run(Step::Remove { at: 1 }, 14),
    Run(Step::Remove { at: 2 }, 14),
    Run(Step::New { at: 9, name: A }, 0),
    Run(Step::Remove { at: 1 }, 14),
    Run(Step::Delete { at: 9 }, 0),
    Run(Step::Start { at: 0 }, 0),
    Run(Step::Remove { at: 1 }, 12),
    Run(Step::Stop { at: 0 }, 0),
    Run(Step::Unbind { at: 3 }, 0),
    Run(Step::Unbind { at: 3 }, 13),
    // rem: 2, 3, 13, 12, 11
    Run(Step::Remove { at: 255 }, 2),
    Run(Step::Remove { at: 3 }, 3),
    Run(Step::Remove { at: 0 }, 13),
    Run(Step::Start { at: 0 }, 0),
    Run(Step::Remove { at: 1 }, 12),
    Run(Step::Stop { at: 0 }, 0),
    Run(Step::New { at: 9, name: A }, 0),
    Run(Step::Remove { at: 1 }, 11),
    Run(Step::Delete { at: 9 }, 0),
    Run(Step::Remove { at: 1 }, 0),
    Run(Step::Bind { at: 3, to: 4 }, 13),
    Run(Step::Add { at: 1, owner: 0 }, 0),
    // del: 2, 3, 12, 14
    Run(Step::Delete { at: 255 }, 2),
    Run(Step::Delete { at: 9 }, 3),
    Run(Step::Delete { at: 1 }, 14),
    Run(Step::Delete { at: 0 }, 14),
    Run(Step::Start { at: 1 }, 0),
    Run(Step::Delete { at: 1 }, 12),
    Run(Step::Delete { at: 3 }, 12),
    Run(Step::Stop { at: 1 }, 0),
    Run(Step::Delete { at: 3 }, 0),
    Run(Step::Delete { at: 5 }, 0),
    Run(Step::Delete { at: 1 }, 14),
    Run(Step::Remove { at: 1 }, 0),
    Run(Step::Delete { at: 1 }, 0),
    // start and stop: 2, 3
    Run(Step::Start { at: 255 }, 2),
    Run(Step::Start { at: 4 }, 3),
    Run(Step::Stop { at: 255 }, 2),
    Run(Step::Stop { at: 4 }, 3),
    Run(Step::Start { at: 0 }, 0),
    Run(Step::Start { at: 0 }, 0),
    Run(Step::Stop { at: 0 }, 0),
];

#[test]
fn steps_run(rt: HostRuntime) {
    let mut host = Plain::new();
    for &Run(step, refusal) in &RUNS {
        assert_eq!(rt; number(try_step(&mut host, step)), refusal);
        assert!(rt; table::check(&host).is_ok());
    }
}

fn component(name: u64, owner: u8) -> Row {
    Row {
        kind: COMPONENT,
        name,
        owner,
        ..EMPTY
    }
}

/// A lawful table but for one row: the component T (0) with A (1) and B (2), P of A (3) bound to R of B (4), len of A (5).
fn with(place: u8, row: Row) -> Plain {
    let mut host = Plain::new();
    let _ = host.write(0, component(T, NONE));
    let _ = host.write(1, component(A, 0));
    let _ = host.write(2, component(B, 0));
    let _ = host.write(
        3,
        Row {
            kind: PROVIDED,
            name: P,
            owner: 1,
            link: 4,
            ..EMPTY
        },
    );
    let _ = host.write(
        4,
        Row {
            kind: REQUIRED,
            name: R,
            owner: 2,
            ..EMPTY
        },
    );
    let _ = host.write(
        5,
        Row {
            kind: PARAMETER,
            name: LEN,
            owner: 1,
            hi: 9,
            value: 9,
            ..EMPTY
        },
    );
    let _ = host.write(place, row);
    host
}

/// The place and the number of the rule that `check` finds broken, or 255 and 0.
// Stays: numbers, since it is the place's and the rule's number that these tests hold fast.
fn found(host: &Plain) -> (u8, u8) {
    match table::check(host) {
        Ok(()) => (NONE, 0),
        Err(Breach { place, rule }) => (place, rule.number()),
    }
}

/// One row in the place of another or beside them, and what is found.
#[derive(Clone, Copy)]
struct Case(u8, Row, u8, u8);

#[test]
fn breaches_found(rt: HostRuntime) {
    let cases = [
        Case(9, EMPTY, NONE, 0),
        Case(9, Row { kind: 5, ..EMPTY }, 9, 1),
        Case(9, Row { up: 1, ..EMPTY }, 9, 1),
        Case(
            4,
            Row {
                kind: REQUIRED,
                name: R,
                owner: 2,
                link: 3,
                ..EMPTY
            },
            4,
            2,
        ),
        Case(9, component(BLANK, 9), 9, 3),
        Case(9, component(C, 200), 9, 4),
        Case(9, component(C, 1), 5, 5),
        Case(
            5,
            Row {
                kind: PARAMETER,
                name: LEN,
                owner: 1,
                hi: 9,
                value: 10,
                ..EMPTY
            },
            5,
            6,
        ),
        Case(4, EMPTY, 3, 7),
        Case(
            4,
            Row {
                kind: REQUIRED,
                name: R,
                owner: 1,
                ..EMPTY
            },
            3,
            8,
        ),
        Case(0, component(T, 2), 0, 9),
        Case(9, component(B, 0), 9, 10),
    ];
    for Case(place, row, broken, rule) in cases {
        let host = with(place, row);
        assert_eq!(rt; found(&host), (broken, rule));
    }
}

/// Owners that go in a circle: a step that has to climb from owner to owner still ends.
#[test]
fn circles_end(rt: HostRuntime) {
    let mut host = with(0, component(T, 2));
    let _ = host.write(9, component(C, NONE));
    assert_eq!(rt;
        number(try_step(&mut host, Step::Add { at: 9, owner: 2 })),
        0
    );
    assert_eq!(rt;
        number(try_step(&mut host, Step::Add { at: 9, owner: 2 })),
        13
    );
}
