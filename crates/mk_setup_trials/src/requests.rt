//! Which requests are made in which order, and replies that nothing asked for.

use crate::connections::{CONNECTED, PLAN, SAID};
use crate::handshake::{Said, transcript};
use mk_base::Mem;
use std::alloc::Global;

const ONE: &str = "until = 3
sim = [{name = 'A', command = 'a', params = {step = 1}}]
entities = [{id = 'c', sim = 'A-0', model = 'Count', params = {start = 0}}]
";

const META: &str =
    r#"[1,0,{"api_version": "3.0.13", "models": {"Count": {"public": true, "params": ["start"], "attrs": ["out"]}}}]"#;

const CREATED: &str = r#"[1,1,[{"eid": "0", "type": "Count"}]]"#;

const OF_ONE: &[Said] = &[(0, META), (0, CREATED), (0, "[1,2,null]")];

const HANDSHAKE_OF_ONE: &str = r#"0: [0,0,["init",["A-0"],{"step":1,"time_resolution":1}]]
wait
0: [0,1,["create",[1,"Count"],{"start":0}]]
wait
0: [0,2,["setup_done",[],{}]]
wait
mosaikrun 2
run [3,100,2000000]
sim ["A-0","time-based",3,0,[]]
model [0,"Count",["out"],false]
entity [0,"0",[]]
end 0
"#;

// Simulator B has no group, and comes after A.
const TWO: &str = "until = 3
sim = [{name = 'A', command = 'a'}, {name = 'B', connect = '127.0.0.1:9'}]
entities = [{id = 'c', sim = 'A-0', model = 'Count'}]
";

const OF_TWO: &[Said] = &[
    (0, META),
    (
        1,
        r#"[1,0,{"api_version":"3","type":"event-based","models":{"M":{"public":true,"params":[],"attrs":[]}}}]"#,
    ),
    (0, CREATED),
    (0, "[1,2,7]"),
    (1, "[1,1,[]]"),
];

const HANDSHAKE_OF_TWO: &str = r#"0: [0,0,["init",["A-0"],{"time_resolution":1}]]
wait
1: [0,0,["init",["B-0"],{"time_resolution":1}]]
wait
0: [0,1,["create",[1,"Count"],{}]]
wait
0: [0,2,["setup_done",[],{}]]
wait
1: [0,1,["setup_done",[],{}]]
wait
mosaikrun 2
run [3,100,2000000]
sim ["A-0","time-based",3,0,[]]
sim ["B-0","event-based",2,1,[]]
model [0,"Count",["out"],false]
model [1,"M",[],false]
entity [0,"0",[]]
end 0
"#;

// A scenario, what is said, and the handshake or how it ends: a fault stays.
const ROWS: [(&str, &[Said], &str); 7] = [
    (ONE, OF_ONE, HANDSHAKE_OF_ONE),
    (TWO, OF_TWO, HANDSHAKE_OF_TWO),
    (CONNECTED, SAID, PLAN),
    (
        ONE,
        &[(0, META), (0, "[1,5,[]]")],
        "\nwait\nunasked 0\nunasked 0\n",
    ),
    (TWO, &[(1, META)], "\nwait\nunasked 1\nunasked 1\n"),
    (
        TWO,
        &[(0, r#"[0,0,["get_data",[{}],{}]]"#)],
        "\nwait\nunasked 0\nunasked 0\n",
    ),
    (
        TWO,
        &[(0, META), (1, r#"[2,1,"no"]"#)],
        "\nwait\nunasked 1\nunasked 1\n",
    ),
];

// Whether a text is this one; where this begins with the end of a line, whether it ends so.
fn is_text(text: &[u8], wanted: &str) -> bool {
    if wanted.starts_with("\n") {
        text.ends_with(wanted.as_bytes())
    } else {
        text == wanted.as_bytes()
    }
}

fn is_made(alloc: Global, file: &str, said: &[Said], wanted: &str) -> Result<bool, Mem> {
    let text = transcript(alloc, file, said)?;
    Ok(is_text(text.as_slice(), wanted))
}

// The first handshake that goes otherwise.
fn first_other(alloc: Global) -> Result<Option<usize>, Mem> {
    for (place, (file, said, wanted)) in ROWS.iter().enumerate() {
        if !is_made(alloc, file, said, wanted)? {
            return Ok(Some(place));
        }
    }
    Ok(None)
}

#[test]
fn replies_make_a_plan(rt: HostRuntime) {
    assert_eq!(rt; first_other(rt.alloc()), Ok(None));
}
