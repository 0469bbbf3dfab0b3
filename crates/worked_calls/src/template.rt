//! Templates: how they are read, refused and filled.

use crate::expecting::expect;
use ta_search::{TemplateFault, fill, read_template};

/// Refused texts, each with its first error.
const REFUSED: &[(&str, TemplateFault)] = &[
    ("", TemplateFault::Line(1)),
    ("begin", TemplateFault::Line(1)),
    ("hole c 0 2\n", TemplateFault::Line(2)),
    ("hole c 00 2\nbegin\n", TemplateFault::Line(1)),
    ("hole rule 0 2\nbegin\n", TemplateFault::Line(1)),
    ("hole c 0 2 \nbegin\n", TemplateFault::Line(1)),
    (
        "hole c 0 2\nhole c 2 1\nbegin\n",
        TemplateFault::Repeated(2),
    ),
    ("hole c 2 1\nbegin\n", TemplateFault::Range(1)),
    ("hole c 9999999999 1\nbegin\n", TemplateFault::Range(1)),
    ("hole c 0 1000000001\nbegin\n", TemplateFault::Range(1)),
    ("hole c 0 10000\nbegin\n", TemplateFault::TooMany(1)),
    (
        "hole a 0 0\nhole b 0 0\nhole c 0 0\nhole d 0 0\nhole e 0 0\nbegin\n",
        TemplateFault::TooMany(5),
    ),
    (
        "hole c 0 9999\nbegin\n$c $cx",
        TemplateFault::UnknownHole(23),
    ),
];

#[test]
fn refuses_templates(rt: HostRuntime) {
    for (text, fault) in REFUSED {
        assert!(rt; text.len() <= 1_048_576);
        let refused = read_template(rt.alloc(), text.as_bytes()).err();
        expect(&rt, refused == Some(*fault), text);
    }
}

#[test]
fn fills_templates(rt: HostRuntime) {
    let text = b"hole c 0 2\nhole d2 7 7\nbegin\nn >= $c*t+$d2; # $d2-$c.\n";
    let template = read_template(rt.alloc(), text.as_slice()).expect(&rt, "a template");
    let values = [1u32, 7];
    assert!(rt; template.holes.as_slice().len() == values.len());
    let filled = fill(rt.alloc(), &template, values.as_slice());
    let filled = filled.expect(&rt, "memory");
    let same = filled.as_slice() == b"n >= 1*t+7; # 7-1.\n".as_slice();
    expect(&rt, same, "the filled text");
}
