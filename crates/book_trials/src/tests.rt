use book_text::{ReadError, read_rule_text};
use std::alloc::Global;

// The offset and the length of the wrong word; none of a good text, and none for want of memory.
fn wrong(heap: Global, text: &[u8]) -> Option<(usize, usize)> {
    match read_rule_text(heap, text) {
        Ok(_) => None,
        Err(ReadError::Wrong(token)) => Some((token.at, token.word.len())),
        Err(ReadError::Memory) => None,
    }
}

#[test]
fn good_rules(rt: HostRuntime) {
    let heap = rt.alloc();
    assert_eq!(rt;
        wrong(
            heap,
            b"rule=all v:par all w:par : !name v len | !name w buf | atmost v w\n",
        ),
        None
    );
    assert_eq!(rt; wrong(heap, b"rule=all v : comp : ( up v ) \n"), None);
    assert_eq!(rt;
        wrong(
            heap,
            b"rule=some v:prov all w:req:bound v w&!(child v w|same w v)\n",
        ),
        None
    );
    assert_eq!(rt;
        wrong(heap, b"rule=all v:comp : ((((((((up v))))))))\n"),
        None
    );
    assert_eq!(rt;
        wrong(
            heap,
            b"rule=all v:par : atmost v -1000000 | atmost v 1000000\n",
        ),
        None
    );
}

#[test]
fn wrong_words(rt: HostRuntime) {
    let heap = rt.alloc();
    assert_eq!(rt; wrong(heap, b"rule=alll v:comp : up v\n"), Some((0, 9)));
    assert_eq!(rt; wrong(heap, b"rule=all v:par : up v\n"), Some((17, 2)));
    assert_eq!(rt; wrong(heap, b"rule=all v:comp : !!up v\n"), Some((19, 1)));
    assert_eq!(rt;
        wrong(heap, b"rule=all v:comp : (((((((((up v)))))))))\n"),
        Some((26, 1))
    );
    assert_eq!(rt;
        wrong(heap, b"rule=all v:par : atmost v 007\n"),
        Some((26, 3))
    );
    assert_eq!(rt;
        wrong(heap, b"rule=all v:par : atmost v 1000001\n"),
        Some((26, 7))
    );
    assert_eq!(rt; wrong(heap, b"rule=all v:comp : same v w\n"), Some((25, 1)));
    assert_eq!(rt; wrong(heap, b"rule=all v:comp : up v)\n"), Some((22, 1)));
}

#[test]
fn lacking_words(rt: HostRuntime) {
    let heap = rt.alloc();
    assert_eq!(rt; wrong(heap, b""), Some((0, 0)));
    assert_eq!(rt; wrong(heap, b" rule=all v:comp : up v\n"), Some((0, 0)));
    assert_eq!(rt; wrong(heap, b"rule=all  v:comp : up v\n"), Some((9, 0)));
    assert_eq!(rt; wrong(heap, b"rule=all v:comp : up v \n"), Some((23, 0)));
    assert_eq!(rt; wrong(heap, b"rule=all v:comp : up\n"), Some((20, 0)));
    assert_eq!(rt; wrong(heap, b"rule=all v:comp : up v"), Some((22, 0)));
    assert_eq!(rt; wrong(heap, b"rule=all v:comp : up v\n "), Some((23, 0)));
    assert_eq!(rt; wrong(heap, b"rule=all v:comp : up v\nx"), Some((23, 1)));
}

#[test]
fn sixteen_tests(rt: HostRuntime) {
    let heap = rt.alloc();
    assert_eq!(rt;
        wrong(
            heap,
            b"rule=all v:comp:up v&up v&up v&up v&up v&up v&up v&up v&up v&up v&up v&up v&up v&up v&up v&up v\n",
        ),
        None
    );
    assert_eq!(rt;
        wrong(
            heap,
            b"rule=all v:comp:up v&up v&up v&up v&up v&up v&up v&up v&up v&up v&up v&up v&up v&up v&up v&up v|up v\n",
        ),
        Some((95, 1))
    );
}
