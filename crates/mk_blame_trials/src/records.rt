//! Two records each, and what is said of them: texts as they are printed.

use crate::said::is_said;
use mk_base::Mem;
use std::alloc::Global;
use std::test::Fail;

// A counter's plan up to 3.
const COUNTER: &str =
    "mosaikrun 1\nrun [3,100,2000000]\nsim [\"A-0\",\"time-based\",3,0,[]]\nmodel [0,\"Count\",[\"out\"],false]\nentity [0,\"0\",[]]\n";

// The same with another limit of entries.
const LIMITED: &str =
    "mosaikrun 1\nrun [3,100,6]\nsim [\"A-0\",\"time-based\",3,0,[]]\nmodel [0,\"Count\",[\"out\"],false]\nentity [0,\"0\",[]]\n";

// And up to 2.
const SHORTER: &str =
    "mosaikrun 1\nrun [2,100,2000000]\nsim [\"A-0\",\"time-based\",3,0,[]]\nmodel [0,\"Count\",[\"out\"],false]\nentity [0,\"0\",[]]\n";

const COUNTED: &str = "got [0,[1,3,1]]\ngot [0,[1,4,2]]\n";

const LAST_COUNTED: &str = "got [0,[1,5,3]]\n";

// A counter with step 1 whose output goes to a sum with step 3, up to 7.
const CHAIN: &str =
    "mosaikrun 1\nrun [7,100,2000000]\nsim [\"A-0\",\"time-based\",3,0,[]]\nsim [\"B-0\",\"time-based\",3,1,[]]\nmodel [0,\"M\",[\"out\"],false]\nmodel [1,\"M\",[\"in\"],false]\nentity [0,\"0\",[]]\nentity [1,\"0\",[]]\nconn [0,\"out\",1,\"in\",\"plain\",true,false,[]]\n";

// The counter's first messages, with this first value or that one.
const ZERO: &str = "got [0,[1,3,1]]\ngot [0,[1,4,{\"0\":{\"out\":0}}]]\n";

const HUNDRED: &str = "got [0,[1,3,1]]\ngot [0,[1,4,{\"0\":{\"out\":100}}]]\n";

// Its second messages, with this value or that one, and all others.
const ONE: &str = "got [0,[1,5,2]]\ngot [0,[1,6,{\"0\":{\"out\":1}}]]\n";

const NINE: &str = "got [0,[1,5,2]]\ngot [0,[1,6,{\"0\":{\"out\":9}}]]\n";

const MORE: &str =
    "got [0,[1,7,3]]\ngot [0,[1,8,{\"0\":{\"out\":2}}]]\ngot [0,[1,9,4]]\ngot [0,[1,10,{\"0\":{\"out\":3}}]]\ngot [0,[1,11,5]]\ngot [0,[1,12,{\"0\":{\"out\":4}}]]\ngot [0,[1,13,6]]\ngot [0,[1,14,{\"0\":{\"out\":5}}]]\ngot [0,[1,15,7]]\ngot [0,[1,16,{\"0\":{\"out\":6}}]]\n";

// The sum's messages: its first, and its others; and all of a sum that steps at each fourth time.
const THREE: &str = "got [1,[1,3,3]]\n";

const SIX_NINE: &str = "got [1,[1,4,6]]\ngot [1,[1,5,9]]\n";

const FOUR_EIGHT: &str = "got [1,[1,3,4]]\ngot [1,[1,4,8]]\n";

// A record in pieces.
type Pieces = &'static [&'static str];

const COUNTER_RECORD: Pieces = &[COUNTER, COUNTED, LAST_COUNTED, "end 3\n"];

const CHAIN_RECORD: Pieces = &[CHAIN, ZERO, ONE, MORE, THREE, SIX_NINE, "end 17\n"];

const OPEN_RECORD: Pieces = &[COUNTER, COUNTED, "end 2\n"];

const SHORTER_RECORD: Pieces = &[SHORTER, COUNTED, "end 2\n"];

const FAULTY_RECORD: Pieces = &[COUNTER, COUNTED, "end 3\n"];

// Two records, and what is said of them.
const PAIRS: [(Pieces, Pieces, &str); 10] = [
    // a counter jumps
    (
        COUNTER_RECORD,
        &[COUNTER, "got [0,[1,3,1]]\n", "got [0,[1,4,3]]\n", "end 2\n"],
        "A-0 message 1 step 1:0\nfirst [1,4,2]\nsecond [1,4,3]\nblamed 1\n",
    ),
    // the sum only got another input
    (
        CHAIN_RECORD,
        &[CHAIN, HUNDRED, ONE, MORE, THREE, SIX_NINE, "end 17\n"],
        "A-0 message 1 step 0:0\nfirst [1,4,{\"0\":{\"out\":0}}]\nsecond [1,4,{\"0\":{\"out\":100}}]\nblamed 1\n",
    ),
    // both answer otherwise
    (
        CHAIN_RECORD,
        &[CHAIN, ZERO, NINE, MORE, FOUR_EIGHT, "end 16\n"],
        "A-0 message 3 step 1:0\nfirst [1,6,{\"0\":{\"out\":1}}]\nsecond [1,6,{\"0\":{\"out\":9}}]\nB-0 message 0 step 0:0\nfirst [1,3,3]\nsecond [1,3,4]\nblamed 2\n",
    ),
    // two requests that have other arguments, and the same answer
    (
        &[
            COUNTER,
            "got [0,[0,7,[\"more\",[1],{}]]]\n",
            "got [0,[1,3,3]]\n",
            "end 2\n",
        ],
        &[
            COUNTER,
            "got [0,[0,7,[\"more\",[2],{}]]]\n",
            "got [0,[1,3,3]]\n",
            "end 2\n",
        ],
        "A-0 message 0 step 0:0\nfirst [0,7,[\"more\",[1],{}]]\nsecond [0,7,[\"more\",[2],{}]]\nblamed 1\n",
    ),
    // two orders of arrival
    (
        CHAIN_RECORD,
        &[CHAIN, ZERO, THREE, ONE, MORE, SIX_NINE, "end 17\n"],
        "equal\n",
    ),
    // two limits of entries
    (
        COUNTER_RECORD,
        &[LIMITED, COUNTED, LAST_COUNTED, "end 3\n"],
        "equal\n",
    ),
    // the fault of a record's text comes before an open request, in either place, and this before another plan
    (
        FAULTY_RECORD,
        OPEN_RECORD,
        "mosaikrun: record: line 8 fault 4\n",
    ),
    (
        OPEN_RECORD,
        FAULTY_RECORD,
        "mosaikrun: record: line 8 fault 4\n",
    ),
    (
        OPEN_RECORD,
        SHORTER_RECORD,
        "mosaikrun: run 8: record ends with 1 outstanding\n",
    ),
    (
        SHORTER_RECORD,
        OPEN_RECORD,
        "mosaikrun: run 8: record ends with 1 outstanding\n",
    ),
];

fn text_of(alloc: Global, pieces: &[&str]) -> Result<Vec<u8>, Mem> {
    let mut text = Vec::new(alloc);
    for piece in pieces {
        text.extend_from_slice(piece.as_bytes())?;
    }
    Ok(text)
}

fn pair_is_said(alloc: Global, first: &[&str], second: &[&str], wanted: &str) -> Result<bool, Mem> {
    let one = text_of(alloc, first)?;
    let other = text_of(alloc, second)?;
    is_said(alloc, one.as_slice(), other.as_slice(), wanted)
}

#[test]
fn pairs_of_records_have_these_texts(rt: HostRuntime) -> Result<(), Fail> {
    for (first, second, wanted) in &PAIRS {
        assert!(rt; pair_is_said(rt.alloc(), first, second, wanted)?);
    }
    Ok(())
}
