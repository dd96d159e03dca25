//! A counter over a link, stepped three times: its scenario, what is said on its link, and what its run comes to.

use crate::scripts::{Exchange, push_frame, requests_of};
use mk_base::Mem;
use std::alloc::Global;

/// One simulator, begun by a command.
pub const COUNTER: &str = r#"until = 3
[[sim]]
name = "A"
command = "a %(addr)s"
params = { step = 1 }
[[entities]]
id = "a"
sim = "A-0"
model = "Count"
params = { start = 0 }
"#;

const INIT: Exchange = (
    r#"[0,0,["init",["A-0"],{"step":1,"time_resolution":1}]]"#,
    r#"[1,0,{"api_version": "3.0.13", "models": {"Count": {"public": true, "params": ["start"], "attrs": ["out"]}}}]"#,
);

const CREATE: Exchange = (
    r#"[0,1,["create",[1,"Count"],{"start":0}]]"#,
    r#"[1,1,[{"eid": "0", "type": "Count"}]]"#,
);

const SETUP_DONE: Exchange = (r#"[0,2,["setup_done",[],{}]]"#, "[1,2,null]");

/// What is said on its link but for the stop.
pub const TALK: [Exchange; 6] = [
    INIT,
    CREATE,
    SETUP_DONE,
    (r#"[0,3,["step",[0,{},3],{}]]"#, "[1,3,1]"),
    (r#"[0,4,["step",[1,{},3],{}]]"#, "[1,4,2]"),
    (r#"[0,5,["step",[2,{},3],{}]]"#, "[1,5,3]"),
];

/// The stop behind it.
pub const STOP: &str = r#"[0,6,["stop",[],{}]]"#;

/// The status and the text of its run.
pub const TEXT: &str = "0 sim A-0\nstep 0:0 {}\nstep 1:0 {}\nstep 2:0 {}\nend 3\n";

/// The record of its run.
pub const RECORD: &str = r#"mosaikrun 2
run [3,100,2000000]
sim ["A-0","time-based",3,0,[]]
model [0,"Count",["out"],false]
entity [0,"0",[]]
ask [0,0,0,3]
got [0,[1,3,1]]
ask [0,1,0,3]
got [0,[1,4,2]]
ask [0,2,0,3]
got [0,[1,5,3]]
end 6
"#;

/// What is said on its link, with the stop or without it.
pub fn counter_requests(alloc: Global, stopped: bool) -> Result<Vec<u8>, Mem> {
    let mut said = requests_of(alloc, &TALK)?;
    if stopped {
        push_frame(&mut said, STOP.as_bytes())?;
    }
    Ok(said)
}
