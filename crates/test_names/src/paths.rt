// Paths between two names: by spans of which the first is longer than a record's, and by short ones.
ghost use Rattle.std.specs.Prelude.{◌≡◌, length};

use model::{Fault, Kind};
use path_bytes::find_path;
use search::{Graph, Names, NodeNames, Search, ShortNames, ShortSpan, Span, Step};
use text::filled;

// The path over the one step of a graph, a translation from its first node to its second.
fn find_step<N: NodeNames>(names: N, out: &mut [u8]) -> Result<bool, Fault>
    requires { length (N.names names).spans.now ≡ 2 }
{
    let steps = [Step::new(0, Kind::Translation, 1)];
    let mut starts = [0; 3];
    let mut queue = [Step::start(0); 2];
    let mut places = [None; 2];
    let graph = Graph::new(&steps, &mut starts);
    let search = Search {
        queue: &mut queue,
        places: &mut places,
    };
    find_path(names, graph, 0, 1, search, out)
}

#[test]
fn a_long_name(rt: HostRuntime) {
    let first: [u8; 600] = filled(b'a');
    let spans = [
        Span {
            start: 0,
            size: 600,
        },
        Span {
            start: 600,
            size: 5,
        },
    ];
    let names = Names {
        first: &first,
        second: b"graph",
        spans: &spans,
    };
    let mut out: [u8; 616] = filled(b'.');
    assert_eq!(rt; find_step(names, &mut out[..614]), Err(Fault::OutputShort));
    assert_eq!(rt; find_step(names, &mut out), Ok(true));
    // Two names; 600 bytes and a translation, 5 bytes and no step; the names; and nothing more.
    assert!(rt; out[..10] == [2, 0, 88, 2, 1, 0, 5, 0, 2, 0]);
    assert!(rt; &out[10..610] == first.as_slice());
    assert!(rt; &out[610..] == b"graph.".as_slice());
}

#[test]
fn short_names(rt: HostRuntime) {
    let spans = [
        ShortSpan { start: 1, size: 2 },
        ShortSpan { start: 4, size: 1 },
    ];
    let names = ShortNames {
        first: b"xyz",
        second: b"uvw",
        spans: &spans,
    };
    let mut out = [b'.'; 14];
    assert_eq!(rt; find_step(names, &mut out), Ok(true));
    assert!(rt; out == *b"\x02\0\x02\0\x01\0\x01\0\x02\0yzv.");
}
