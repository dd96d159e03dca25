//! The files that the program is called on, and what it prints and saves of them.

/// A counter by itself, as a kind within the program.
pub const WITHIN: &str =
    "until = 3\n[[sim]]\nname = \"A\"\nlocal = \"counter\"\n[[entities]]\nid = \"a\"\nsim = \"A-0\"\nmodel = \"Count\"\n";

/// A record of its run, without its steps.
pub const RECORD: &str =
    "mosaikrun 1\nrun [3,100,2000000]\nsim [\"A-0\",\"time-based\",3,0,[]]\nmodel [0,\"Count\",[\"out\"],false]\nentity [0,\"0\",[]]\ngot [0,[1,3,1]]\ngot [0,[1,4,2]]\ngot [0,[1,5,3]]\nend 3\n";

/// What its run saves.
pub const SAVED: &str =
    "mosaikrun 2\nrun [3,100,2000000]\nsim [\"A-0\",\"time-based\",3,0,[]]\nmodel [0,\"Count\",[\"out\"],false]\nentity [0,\"0\",[]]\nask [0,0,0,3]\ngot [0,[1,3,1]]\nask [0,1,0,3]\ngot [0,[1,4,2]]\nask [0,2,0,3]\ngot [0,[1,5,3]]\nend 6\n";

/// What its run saves by a clock, where its first step is too late.
pub const LATE: &str =
    "mosaikrun 2\nrun [3,100,2000000]\nsim [\"A-0\",\"time-based\",3,0,[]]\nmodel [0,\"Count\",[\"out\"],false]\nentity [0,\"0\",[]]\nask [0,0,0,3]\nend 1\n";

/// The report of its run, and of the replay of either record.
pub const THREE_STEPS: &str = "sim A-0\nstep 0:0 {}\nstep 1:0 {}\nstep 2:0 {}\nend 3\n";

/// A record of a counter that feeds a sum, which steps at each third time.
pub const SUM_RECORD: &str =
    "mosaikrun 1\nrun [7,100,2000000]\nsim [\"A-0\",\"time-based\",3,0,[]]\nsim [\"B-0\",\"time-based\",3,1,[]]\nmodel [0,\"M\",[\"out\"],false]\nmodel [1,\"M\",[\"in\"],false]\nentity [0,\"0\",[]]\nentity [1,\"0\",[]]\nconn [0,\"out\",1,\"in\",\"plain\",true,false,[]]\ngot [0,[1,3,1]]\ngot [0,[1,4,{\"0\":{\"out\":0}}]]\ngot [1,[1,3,3]]\ngot [0,[1,5,2]]\ngot [0,[1,6,{\"0\":{\"out\":1}}]]\ngot [0,[1,7,3]]\ngot [0,[1,8,{\"0\":{\"out\":2}}]]\ngot [0,[1,9,4]]\ngot [0,[1,10,{\"0\":{\"out\":3}}]]\ngot [1,[1,4,6]]\ngot [0,[1,11,5]]\ngot [0,[1,12,{\"0\":{\"out\":4}}]]\ngot [0,[1,13,6]]\ngot [0,[1,14,{\"0\":{\"out\":5}}]]\ngot [0,[1,15,7]]\ngot [0,[1,16,{\"0\":{\"out\":6}}]]\ngot [1,[1,5,9]]\nend 17\n";

/// The report of its replay.
pub const SUM_STEPS: &str =
    "sim A-0\nstep 0:0 {}\nstep 1:0 {}\nstep 2:0 {}\nstep 3:0 {}\nstep 4:0 {}\nstep 5:0 {}\nstep 6:0 {}\nsim B-0\nstep 0:0 {\"0\":{\"in\":{\"A-0.0\":0}}}\nstep 3:0 {\"0\":{\"in\":{\"A-0.0\":3}}}\nstep 6:0 {\"0\":{\"in\":{\"A-0.0\":6}}}\nend 10\n";
