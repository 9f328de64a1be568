//! Texts that are read, and texts that are refused.

use crate::{XmlFault, marks, unescaped};
use std::alloc::Global;
use std::rt::HostRuntime;

const GOOD: &str =
    "<?xml version=\"1.0\"?>\n<!-- a <b> comment -->\n<Project xmlns=\"http://x\">\n <Task><Name>Foundations &amp; slab</Name><Milestone/></Task>\n</Project>\n";

/// The name and the text of the mark at a place, and its line, are these.
fn has(alloc: Global, text: &str, place: usize, name: &str, words: &str, line: u64) -> bool {
    let Ok(found) = marks(alloc, text) else {
        return false;
    };
    match found.get(place) {
        Some(mark) => mark.name == name && mark.text.trim() == words && mark.line == line,
        None => false,
    }
}

/// How a text is refused, and at which line: 1 to 8 in the order of the faults, 0 if it is read.
fn fault(alloc: Global, text: &str) -> (u32, u64) {
    match marks(alloc, text) {
        Ok(_) => (0, 0),
        Err(XmlFault::Unread(line)) => (1, line),
        Err(XmlFault::Mark(line)) => (2, line),
        Err(XmlFault::Closed(line)) => (3, line),
        Err(XmlFault::Open(line)) => (4, line),
        Err(XmlFault::Comment(line)) => (5, line),
        Err(XmlFault::Outside(line)) => (6, line),
        Err(XmlFault::Nothing) => (7, 0),
        Err(XmlFault::Deep(line)) => (8, line),
        Err(XmlFault::Memory) => (9, 0),
    }
}

/// A text, and how it is refused.
struct Case {
    text: &'static str,
    kind: u32,
    line: u64,
}

const CASES: &[Case] = &[
    Case {
        text: "<!DOCTYPE x [<!ENTITY a \"b\">]><a/>",
        kind: 1,
        line: 1,
    },
    Case {
        text: "<a>\n<![CDATA[x]]></a>",
        kind: 1,
        line: 2,
    },
    Case {
        text: "<a\n b=\"x>y\" c='>'/>",
        kind: 0,
        line: 0,
    },
    Case {
        text: "\u{feff}<a></a >",
        kind: 0,
        line: 0,
    },
    Case {
        text: "<a\n b=\"x<y\"/>",
        kind: 2,
        line: 1,
    },
    Case {
        text: "\n<a",
        kind: 2,
        line: 2,
    },
    Case {
        text: "<1/>",
        kind: 2,
        line: 1,
    },
    Case {
        text: "< a/>",
        kind: 2,
        line: 1,
    },
    Case {
        text: "<a><?b\n",
        kind: 2,
        line: 1,
    },
    Case {
        text: "<a>\n<b>\n</a></b>",
        kind: 3,
        line: 3,
    },
    Case {
        text: "</a>",
        kind: 3,
        line: 1,
    },
    Case {
        text: "<a/>\n</a>",
        kind: 3,
        line: 2,
    },
    Case {
        text: "<a>\n<b>\n<c>\n</c>\n",
        kind: 4,
        line: 2,
    },
    Case {
        text: "<a>\n<!-- <b>\n",
        kind: 5,
        line: 2,
    },
    Case {
        text: "<a><!--></a>",
        kind: 5,
        line: 1,
    },
    Case {
        text: "<a>\n</a>x",
        kind: 6,
        line: 2,
    },
    Case {
        text: "x<a/>",
        kind: 6,
        line: 1,
    },
    Case {
        text: "<a/>\n<b/>",
        kind: 6,
        line: 2,
    },
    Case {
        text: "<!-- <a> -->x",
        kind: 6,
        line: 1,
    },
    Case {
        text: "",
        kind: 7,
        line: 0,
    },
    Case {
        text: "<?xml?><!-- <a/> -->",
        kind: 7,
        line: 0,
    },
    Case {
        text: "<a><!-- </a> \n<b> --></a>",
        kind: 0,
        line: 0,
    },
];

/// Whether a text is refused so.
fn is_so(alloc: Global, case: &Case) -> bool {
    fault(alloc, case.text) == (case.kind, case.line)
}

/// Whether a text with entities is this one.
fn is_unescaped(alloc: Global, text: &str, as_text: &str) -> bool {
    match unescaped(alloc, text) {
        Ok(Some(found)) => found.as_str() == as_text,
        _ => false,
    }
}

/// Whether a text has an entity that is not known.
fn is_unknown(alloc: Global, text: &str) -> bool {
    matches!(unescaped(alloc, text), Ok(None))
}

#[test]
fn marks_are_read(rt: HostRuntime) {
    let alloc = rt.alloc();
    assert!(rt; has(alloc, GOOD, 2, "Project", "", 3));
    assert!(rt; has(alloc, GOOD, 4, "Name", "Foundations &amp; slab", 4));
    assert!(rt; has(alloc, GOOD, 6, "Milestone", "", 4));
    assert!(rt; has(alloc, GOOD, 8, "Project", "", 5));
}

#[test]
fn texts_are_refused(rt: HostRuntime) {
    let alloc = rt.alloc();
    let mut right = true;
    for case in CASES {
        right &= is_so(alloc, case);
    }
    assert!(rt; right);
}

#[test]
fn entities_are_read(rt: HostRuntime) {
    let alloc = rt.alloc();
    assert!(rt;
        is_unescaped(
            alloc,
            "a &lt;&#228;&#xE4;&amp;lt; b",
            "a <\u{e4}\u{e4}&lt; b"
        )
    );
    assert!(rt; is_unknown(alloc, "&nbsp;"));
    assert!(rt; is_unknown(alloc, "a & b"));
    assert!(rt; is_unknown(alloc, "&#xD800;"));
    assert!(rt; is_unknown(alloc, "&#+65;"));
}
