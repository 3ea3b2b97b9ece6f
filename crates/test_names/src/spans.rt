// A name longer than a record's are.
use search::{Names, Span};
use text::filled;

#[test]
fn a_long_name(rt: HostRuntime) {
    let first: [u8; 600] = filled(b'a');
    let span = Span {
        start: 0,
        size: 600,
    };
    assert!(rt; span.of(&first, b"graph") == first.as_slice());
    let spans = [
        span,
        Span {
            start: 600,
            size: 5,
        },
    ];
    let names = Names {
        first: &first,
        second: b"graph",
        spans: &spans,
    };
    assert!(rt; names.name(0) == first.as_slice());
    assert!(rt; names.name(1) == b"graph".as_slice());
}
