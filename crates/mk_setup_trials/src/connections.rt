//! Each kind of connection in a plan.

use crate::handshake::Said;

/// A time-based simulator T, an event-based one E and a hybrid one H, with an entity or two created of each, and each
/// kind of connection.
pub const CONNECTED: &str = "until = 9
sim = [{name = 'T', local = 't', initial_events = [4]}, {name = 'E', local = 'e'}, {name = 'H', local = 'h'}]
entities = [{id = 't', sim = 'T-0', model = 'M', num = 2, params = {p = 1}}, {id = 'e', sim = 'E-0', model = 'M'}, {id = 'h', sim = 'H-0', model = 'M', num = 2}]
[[connect]]
from = 't'
to = 'h'
attrs = [['out', 'in']]
[[connect]]
from = 't[1]'
to = 'h'
attrs = [['in', 'on']]
[[connect]]
from = 'h'
to = 'e'
attrs = [['now', 'x'], ['out', 'y']]
[[connect]]
from = 'T-0.c'
to = 'H-0.1'
attrs = [['out', 'far'], ['in', 'near']]
[[connect]]
from = 'e'
to = 'h[1]'
attrs = [['out', 'on']]
weak = true
initial_data = { out = [1, true] }
[[connect]]
from = 'h[0]'
to = 't[1]'
attrs = [['out', 'in']]
weak = true
[[connect]]
from = 'h'
to = 't'
attrs = [['out', 'in']]
time_shifted = 2
initial_data = { out = 'x' }
[[connect]]
from = 'h[1]'
to = 't[0]'
attrs = [['now', 'in']]
time_shifted = true
[[connect]]
from = 't'
to = 'h'
[[connect]]
from = 'T-0.c'
to = 'e'
async_requests = true
[[connect]]
from = 't[1]'
to = 'e'
async_requests = true
";

const META_OF_T: &str =
    r#"[1,0,{"api_version":"3.0","models":{"N":{"public":false,"params":[],"attrs":["in","out"]},"M":{"public":true,"params":["p"],"attrs":["in","out"]}}}]"#;

const META_OF_E: &str =
    r#"[1,0,{"api_version":"3.0","type":"event-based","models":{"M":{"public":true,"params":[],"attrs":["out"],"any_inputs":true}}}]"#;

const META_OF_H: &str =
    r#"[1,0,{"api_version":"3.0","type":"hybrid","models":{"M":{"public":true,"params":[],"attrs":["in","on","out","now"],"any_inputs":true,"trigger":["on","far"],"non-persistent":["now"]}}}]"#;

// Their entities are numbered 0, its child 1, 2; 3; 4, 5.
const CREATED_OF_T: &str =
    r#"[1,1,[{"eid":"a","type":"M","children":[{"eid":"c","type":"N"}]},{"eid":"b","type":"M","rel":["a"]}]]"#;

const CREATED_OF_E: &str = r#"[1,1,[{"eid":"0","type":"M"}]]"#;

const CREATED_OF_H: &str = r#"[1,1,[{"eid":"0","type":"M"},{"eid":"1","type":"M"}]]"#;

/// What they say.
pub const SAID: &[Said] = &[
    (0, META_OF_T),
    (1, META_OF_E),
    (2, META_OF_H),
    (0, CREATED_OF_T),
    (1, CREATED_OF_E),
    (2, CREATED_OF_H),
    (0, "[1,2,null]"),
    (1, "[1,2,null]"),
    (2, "[1,2,null]"),
];

/// How the handshake ends.
pub const PLAN: &str = r#"
wait
mosaikrun 2
run [9,100,2000000]
sim ["T-0","time-based",3,0,[4]]
sim ["E-0","event-based",3,2,[]]
sim ["H-0","hybrid",3,1,[]]
model [0,"M",["in","out"],false]
model [0,"N",["in","out"],false]
model [1,"M",["out"],true]
model [2,"M",["in","on","out","now"],true]
entity [0,"a",[1,2,4,5]]
entity [1,"c",[0,3,5]]
entity [0,"b",[0,3,4,5]]
entity [2,"0",[1,2,4,5]]
entity [3,"0",[0,2,3]]
entity [3,"1",[0,1,2,3]]
conn [0,"out",4,"in","plain",true,false,[]]
conn [2,"out",5,"in","plain",true,false,[]]
conn [2,"in",4,"on","plain",true,true,[]]
conn [2,"in",5,"on","plain",true,true,[]]
conn [4,"now",3,"x","plain",false,true,[]]
conn [4,"out",3,"y","plain",true,true,[]]
conn [5,"now",3,"x","plain",false,true,[]]
conn [5,"out",3,"y","plain",true,true,[]]
conn [1,"out",5,"far","plain",true,true,[]]
conn [1,"in",5,"near","plain",true,false,[]]
conn [3,"out",5,"on","weak",false,true,[[1,true]]]
conn [4,"out",2,"in","weak",true,false,[]]
conn [4,"out",0,"in",["shift",2],true,false,["x"]]
conn [5,"out",2,"in",["shift",2],true,false,["x"]]
conn [5,"now",0,"in",["shift",1],false,false,[]]
async [0,1]
end 0
"#;
