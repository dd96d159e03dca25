//! Two counters over links, of which one is still behind while the other has caught up and goes on.

use crate::going::told;
use mk_base::{List, Mem};
use mk_fakes::Chunk;
use mosaikrun_samples::{Outcome, When, is_both, length_of, push_reply, willing};
use std::alloc::Global;
use std::sync::Wait;

const COUNTERS: &str = r#"until = 3
[[sim]]
name = "A"
command = "a %(addr)s"
[[sim]]
name = "B"
command = "b %(addr)s"
[[entities]]
id = "a"
sim = "A-0"
model = "Count"
[[entities]]
id = "b"
sim = "B-0"
model = "Count"
"#;

// What is said on each link, but for the stop; the ids have one length.
const REQUESTS: [&str; 6] = [
    r#"[0,0,["init",["A-0"],{"time_resolution":1}]]"#,
    r#"[0,1,["create",[1,"Count"],{}]]"#,
    r#"[0,2,["setup_done",[],{}]]"#,
    r#"[0,3,["step",[0,{},3],{}]]"#,
    r#"[0,4,["step",[1,{},3],{}]]"#,
    r#"[0,5,["step",[2,{},3],{}]]"#,
];

const REPLIES: [&str; 6] = [
    r#"[1,0,{"api_version": "3.0", "models": {"Count": {"public": true, "params": [], "attrs": ["out"]}}}]"#,
    r#"[1,1,[{"eid": "0", "type": "Count"}]]"#,
    "[1,2,null]",
    "[1,3,1]",
    "[1,4,2]",
    "[1,5,3]",
];

// The record of a run in which each has replied to its first step.
const CUT: &str = r#"mosaikrun 1
run [3,100,2000000]
sim ["A-0","time-based",3,0,[]]
sim ["B-0","time-based",3,1,[]]
model [0,"Count",["out"],false]
model [1,"Count",["out"],false]
entity [0,"0",[]]
entity [1,"0",[]]
got [0,[1,3,1]]
got [1,[1,3,1]]
end 2
"#;

const REPORT: &str =
    "0 sim A-0\nstep 0:0 {}\nstep 1:0 {}\nstep 2:0 {}\nsim B-0\nstep 0:0 {}\nstep 1:0 {}\nstep 2:0 {}\nend 6\n";

// All new messages of A-0 come before those of B-0.
const WHOLE: &str = r#"mosaikrun 2
run [3,100,2000000]
sim ["A-0","time-based",3,0,[]]
sim ["B-0","time-based",3,1,[]]
model [0,"Count",["out"],false]
model [1,"Count",["out"],false]
entity [0,"0",[]]
entity [1,"0",[]]
ask [0,0,0,3]
ask [1,0,0,3]
got [0,[1,3,1]]
ask [0,1,0,3]
got [1,[1,3,1]]
ask [1,1,0,3]
got [0,[1,4,2]]
ask [0,2,0,3]
got [0,[1,5,3]]
got [1,[1,4,2]]
ask [1,2,0,3]
got [1,[1,5,3]]
end 12
"#;

// When the reply of this place comes on the link: once its request was said there; but the first message that B-0 has
// to send again only once all was said to A-0.
fn when(link: u32, place: usize) -> When {
    if link == 1 && place == 3 {
        return When {
            link,
            on: 0,
            after: length_of(&REQUESTS),
        };
    }
    When {
        link,
        on: link,
        after: length_of(&REQUESTS[..=place.min(5)]),
    }
}

fn push_replies(alloc: Global, chunks: &mut List<Chunk>, link: u32) -> Result<(), Mem> {
    for (place, reply) in REPLIES.iter().enumerate() {
        push_reply(alloc, chunks, when(link, place), reply, 1000)?;
    }
    Ok(())
}

fn replies(alloc: Global) -> Result<List<Chunk>, Mem> {
    let mut chunks = List::new(alloc);
    push_replies(alloc, &mut chunks, 0)?;
    push_replies(alloc, &mut chunks, 1)?;
    Ok(chunks)
}

fn come_to<R: Wait>(rt: &R, alloc: Global) -> Result<Outcome, Mem> {
    let chunks = replies(alloc)?;
    let mut fleet = willing(alloc, chunks)?;
    told(rt, alloc, COUNTERS, CUT, &mut fleet)
}

fn is_whole<R: Wait>(rt: &R, alloc: Global) -> Result<bool, Mem> {
    let outcome = come_to(rt, alloc)?;
    Ok(is_both(&outcome, REPORT, WHOLE))
}

#[test]
fn one_goes_on_while_another_is_behind(rt: HostRuntime) {
    assert_eq!(rt; is_whole(&rt, rt.alloc()), Ok(true));
}
