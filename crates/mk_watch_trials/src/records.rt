//! Records that are watched.

/// Which record.
#[derive(Clone, Copy)]
pub enum Recorded {
    /// A battery and its controller, in a loop within one time.
    Battery,
    /// Two sources and what they are summed by, three steps each. Among their values are the greatest signed number of
    /// 64 bits, one more, and a text.
    Numbers,
    /// A counter's, without its last message.
    Short,
    /// A counter's, whose last line counts one message too many.
    Broken,
}

/// Its text.
pub fn text_of(recorded: Recorded) -> &'static str {
    match recorded {
        Recorded::Battery => BATTERY,
        Recorded::Numbers => NUMBERS,
        Recorded::Short => SHORT,
        Recorded::Broken => BROKEN,
    }
}

const BATTERY: &str =
    "mosaikrun 1\nrun [1,100,2000000]\nsim [\"Bat-0\",\"hybrid\",3,0,[]]\nsim [\"Ctl-0\",\"hybrid\",3,1,[]]\nmodel [0,\"Battery\",[\"set\",\"soc\"],false]\nmodel [1,\"Control\",[\"set\",\"soc\"],false]\nentity [0,\"0\",[]]\nentity [1,\"0\",[]]\nconn [0,\"soc\",1,\"soc\",\"plain\",true,true,[]]\nconn [1,\"set\",0,\"set\",\"weak\",false,true,[]]\ngot [0,[1,3,null]]\ngot [0,[1,4,{\"0\":{\"soc\":0}}]]\ngot [1,[1,3,null]]\ngot [1,[1,4,{\"0\":{\"set\":3}}]]\ngot [0,[1,5,null]]\ngot [0,[1,6,{\"0\":{\"soc\":1}}]]\ngot [1,[1,5,null]]\ngot [1,[1,6,{\"0\":{\"set\":3}}]]\ngot [0,[1,7,null]]\ngot [0,[1,8,{\"0\":{\"soc\":2}}]]\ngot [1,[1,7,null]]\ngot [1,[1,8,{\"0\":{\"set\":3}}]]\ngot [0,[1,9,null]]\ngot [0,[1,10,{\"0\":{\"soc\":3}}]]\ngot [1,[1,9,null]]\ngot [1,[1,10,{}]]\nend 16\n";

const NUMBERS: &str =
    "mosaikrun 1\nrun [3,100,2000000]\nsim [\"A-0\",\"time-based\",3,0,[]]\nsim [\"B-0\",\"time-based\",3,1,[]]\nmodel [0,\"Source\",[\"out\"],false]\nmodel [1,\"Sum\",[\"in\"],false]\nentity [0,\"0\",[]]\nentity [0,\"1\",[]]\nentity [1,\"0\",[]]\nconn [0,\"out\",2,\"in\",\"plain\",true,false,[]]\nconn [1,\"out\",2,\"in\",\"plain\",true,false,[]]\ngot [0,[1,3,1]]\ngot [0,[1,4,{\"0\":{\"out\":5},\"1\":{\"out\":-7}}]]\ngot [1,[1,3,1]]\ngot [0,[1,5,2]]\ngot [0,[1,6,{\"0\":{\"out\":9223372036854775807},\"1\":{\"out\":1}}]]\ngot [1,[1,4,2]]\ngot [0,[1,7,3]]\ngot [0,[1,8,{\"0\":{\"out\":9223372036854775808},\"1\":{\"out\":\"x\"}}]]\ngot [1,[1,5,3]]\nend 9\n";

const SHORT: &str =
    "mosaikrun 1\nrun [3,100,2000000]\nsim [\"A-0\",\"time-based\",3,0,[]]\nmodel [0,\"Count\",[\"out\"],false]\nentity [0,\"0\",[]]\ngot [0,[1,3,1]]\ngot [0,[1,4,2]]\nend 2\n";

const BROKEN: &str =
    "mosaikrun 1\nrun [3,100,2000000]\nsim [\"A-0\",\"time-based\",3,0,[]]\nmodel [0,\"Count\",[\"out\"],false]\nentity [0,\"0\",[]]\ngot [0,[1,3,1]]\nend 2\n";
