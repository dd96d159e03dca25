//! Texts, and what they become.
use mk_record_mend::mend;
use std::alloc::Global;

// A text, and what it becomes.
const TEXTS: [(&[u8], &[u8]); 17] = [
    // no line is whole
    (b"", b""),
    (b"ask [0]", b"ask [0]"),
    (b"\n", b"\n"),
    // the last whole line is an entry
    (b"ask [0]\n", b"ask [0]\nend 1\n"),
    (b"got\n", b"got\nend 1\n"),
    (
        b"sim [0]\ngot [0]\nask [0]\ngot [1",
        b"sim [0]\ngot [0]\nask [0]\nend 2\n",
    ),
    (b"ask [0]\n\0\0\0\0", b"ask [0]\nend 1\n"),
    (b"ask [0]\nend 1", b"ask [0]\nend 1\n"),
    (
        b"ask [0]\nsim [0]\ngot [0]\nsim",
        b"ask [0]\nsim [0]\ngot [0]\nend 2\n",
    ),
    (
        b"got 0\ngot 1\ngot 2\ngot 3\ngot 4\ngot 5\ngot 6\ngot 7\ngot 8\ngot 9\n",
        b"got 0\ngot 1\ngot 2\ngot 3\ngot 4\ngot 5\ngot 6\ngot 7\ngot 8\ngot 9\nend 10\n",
    ),
    // it is another one
    (b"ask [0]\nend 1\n", b"ask [0]\nend 1\n"),
    (b"ask [0]\nend 1\nask", b"ask [0]\nend 1\nask"),
    (b"ask [0]\nsim [0]\n", b"ask [0]\nsim [0]\n"),
    (b"sim [0]\nask [0]", b"sim [0]\nask [0]"),
    (b"ask [0]\n\n", b"ask [0]\n\n"),
    (b"asked [0]\n", b"asked [0]\n"),
    (b" ask [0]\n", b" ask [0]\n"),
];

fn does_become(alloc: Global, text: &[u8], wanted: &[u8]) -> bool {
    let mut bytes = Vec::new(alloc);
    bytes.extend_from_slice(text).is_ok() && mend(&mut bytes).is_ok() && bytes.as_slice() == wanted
}

// How many of the texts, from the first one on, become what they are to become.
fn count_right(alloc: Global) -> usize {
    for (place, (text, wanted)) in TEXTS.iter().enumerate() {
        if !does_become(alloc, text, wanted) {
            return place;
        }
    }
    TEXTS.len()
}

#[test]
fn a_text_gets_the_end_that_it_lacks(rt: HostRuntime) {
    assert_eq!(rt; count_right(rt.alloc()), TEXTS.len());
}
