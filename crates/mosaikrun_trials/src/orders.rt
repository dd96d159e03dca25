//! The household study over links whose simulators answer in different orders, beside the same run within the program.

use crate::runs::told;
use crate::talks::{Hold, Part, Talk, replies_in, talks_of};
use crate::within::journal_within;
use mk_base::{List, Mem};
use mk_local::Registry;
use mosaikrun_samples::{Outcome, willing};
use std::alloc::Global;
use std::sync::Wait;

// The household study: forty households and a photovoltaic plant at a grid, a battery and its controller, and a
// collector.
const STUDY: [Part; 6] = [
    Part {
        table: "[[sim]]\nname = \"House\"\n",
        kind: "counter",
        setup: [
            r#"[0,0,["init",["House-0"],{"time_resolution":1}]]"#,
            r#"[0,1,["create",[40,"Count"],{"start":1}]]"#,
            r#"[0,2,["setup_done",[],{}]]"#,
        ],
    },
    Part {
        table: "[[sim]]\nname = \"Pv\"\nparams = { step = 4 }\n",
        kind: "constant",
        setup: [
            r#"[0,0,["init",["Pv-0"],{"step":4,"time_resolution":1}]]"#,
            r#"[0,1,["create",[1,"Source"],{"value":7}]]"#,
            r#"[0,2,["setup_done",[],{}]]"#,
        ],
    },
    Part {
        table: "[[sim]]\nname = \"Grid\"\n",
        kind: "sum",
        setup: [
            r#"[0,0,["init",["Grid-0"],{"time_resolution":1}]]"#,
            r#"[0,1,["create",[1,"Sum"],{}]]"#,
            r#"[0,2,["setup_done",[],{}]]"#,
        ],
    },
    Part {
        table: "[[sim]]\nname = \"Bat\"\n",
        kind: "battery",
        setup: [
            r#"[0,0,["init",["Bat-0"],{"time_resolution":1}]]"#,
            r#"[0,1,["create",[1,"Battery"],{}]]"#,
            r#"[0,2,["setup_done",[],{}]]"#,
        ],
    },
    Part {
        table: "[[sim]]\nname = \"Ctl\"\n",
        kind: "controller",
        setup: [
            r#"[0,0,["init",["Ctl-0"],{"time_resolution":1}]]"#,
            r#"[0,1,["create",[1,"Control"],{"goal":3}]]"#,
            r#"[0,2,["setup_done",[],{}]]"#,
        ],
    },
    Part {
        table: "[[sim]]\nname = \"Log\"\n",
        kind: "sum",
        setup: [
            r#"[0,0,["init",["Log-0"],{"time_resolution":1}]]"#,
            r#"[0,1,["create",[1,"Sum"],{}]]"#,
            r#"[0,2,["setup_done",[],{}]]"#,
        ],
    },
];

const STUDY_REST: &str = r#"[[entities]]
id = "houses"
sim = "House-0"
model = "Count"
num = 40
params = { start = 1 }
[[entities]]
id = "pv"
sim = "Pv-0"
model = "Source"
params = { value = 7 }
[[entities]]
id = "grid"
sim = "Grid-0"
model = "Sum"
[[entities]]
id = "bat"
sim = "Bat-0"
model = "Battery"
[[entities]]
id = "ctl"
sim = "Ctl-0"
model = "Control"
params = { goal = 3 }
[[entities]]
id = "log"
sim = "Log-0"
model = "Sum"
[[connect]]
from = "houses"
to = "grid"
attrs = [["out", "in"]]
[[connect]]
from = "pv"
to = "grid"
attrs = [["out", "in"]]
[[connect]]
from = "grid"
to = "log"
attrs = [["out", "in"]]
[[connect]]
from = "bat"
to = "ctl"
attrs = ["soc"]
[[connect]]
from = "ctl"
to = "bat"
attrs = ["set"]
weak = true
[[connect]]
from = "bat"
to = "log"
attrs = [["soc", "in"]]
"#;

// How the report of the study ends.
const STUDY_END: &str = "\nstep 95:0 {\"0\":{\"in\":{\"Grid-0.0\":3847}}}\nend 320\n";

// All as soon as they are asked; the households after the whole of the plant; the plant and the battery after the
// households.
const STUDY_ORDERS: [&[Hold]; 3] = [
    &[],
    &[Hold {
        link: 0,
        reply: 3,
        on: 1,
        request: 50,
    }],
    &[
        Hold {
            link: 1,
            reply: 3,
            on: 0,
            request: 194,
        },
        Hold {
            link: 3,
            reply: 3,
            on: 0,
            request: 194,
        },
    ],
];

// The table of a simulator that is begun so.
fn push_part(text: &mut String, part: &Part, begin: &str) -> Result<(), Mem> {
    text.push_str(part.table)?;
    text.push_str(begin)?;
    text.push_str(" = \"")?;
    text.push_str(part.kind)?;
    text.push_str("\"\n")?;
    Ok(())
}

// The scenario with each simulator begun so, as `local` or as `command`.
fn scenario(alloc: Global, begin: &str) -> Result<String, Mem> {
    let mut text = String::from_str(alloc, "until = 96\n")?;
    for part in &STUDY {
        push_part(&mut text, part, begin)?;
    }
    text.push_str(STUDY_REST)?;
    Ok(text)
}

// What is said on the links of a run by children of the kinds, as the run within the program shows it.
fn talks_in<R: Wait>(rt: &R, alloc: Global, kinds: &Registry) -> Result<Vec<Talk>, Mem> {
    let text = scenario(alloc, "local")?;
    match journal_within(alloc, kinds, text.as_str()) {
        Some(journal) => talks_of(rt, alloc, kinds, &STUDY, &journal),
        None => Ok(Vec::new(alloc)),
    }
}

// What the run within the program comes to, by the command, over a fleet on which nothing comes.
fn told_within<R: Wait>(rt: &R, alloc: Global, kinds: &Registry) -> Result<Outcome, Mem> {
    let text = scenario(alloc, "local")?;
    let mut fleet = willing(alloc, List::new(alloc))?;
    told(rt, alloc, kinds, text.as_str(), &mut fleet)
}

// What the run over links comes to on which replies are held back so.
fn told_over<R: Wait>(
    rt: &R,
    alloc: Global,
    kinds: &Registry,
    talks: &[Talk],
    holds: &[Hold],
) -> Result<Outcome, Mem> {
    let text = scenario(alloc, "command")?;
    let chunks = replies_in(alloc, talks, holds)?;
    let mut fleet = willing(alloc, chunks)?;
    told(rt, alloc, kinds, text.as_str(), &mut fleet)
}

// What the runs over links come to, one in each order.
fn told_in_orders<R: Wait>(
    rt: &R,
    alloc: Global,
    kinds: &Registry,
    talks: &[Talk],
) -> Result<Vec<Outcome>, Mem> {
    let mut runs = Vec::new(alloc);
    for holds in &STUDY_ORDERS {
        runs.push(told_over(rt, alloc, kinds, talks, holds)?)?;
    }
    Ok(runs)
}

// There are three runs, each has this text, and no two had their messages in one order.
fn are_all(runs: &[Outcome], text: &[u8]) -> bool {
    for i in 0..runs.len() {
        if runs[i].text.as_slice() != text {
            return false;
        }
        for j in 0..i {
            if runs[i].record.as_slice() == runs[j].record.as_slice() {
                return false;
            }
        }
    }
    runs.len() == 3
}

// Whether the run over links has this text in each order.
fn is_text_over_links<R: Wait>(
    rt: &R,
    alloc: Global,
    kinds: &Registry,
    text: &[u8],
) -> Result<bool, Mem> {
    let talks = talks_in(rt, alloc, kinds)?;
    let runs = told_in_orders(rt, alloc, kinds, talks.as_slice())?;
    Ok(are_all(runs.as_slice(), text))
}

/// Whether the household study has one text in each order of its replies, that of the run within the program.
pub fn is_study_one<R: Wait>(rt: &R, alloc: Global, kinds: &Registry) -> Result<bool, Mem> {
    let within = told_within(rt, alloc, kinds)?;
    let text = within.text.as_slice();
    if !text.starts_with(b"0 ") || !text.ends_with(STUDY_END.as_bytes()) {
        return Ok(false);
    }
    is_text_over_links(rt, alloc, kinds, text)
}
