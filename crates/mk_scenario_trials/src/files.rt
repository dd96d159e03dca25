//! Scenario files that several trials read.

// The file of the demo scenario of size 1.
pub const DEMO: &str = "until = 96
[[sim]]
name = \"House\"
local = \"counter\"
[[sim]]
name = \"Pv\"
local = \"constant\"
params = { step = 4 }
[[sim]]
name = \"Grid\"
local = \"sum\"
[[sim]]
name = \"Bat\"
local = \"battery\"
[[sim]]
name = \"Ctl\"
local = \"controller\"
[[sim]]
name = \"Log\"
local = \"sum\"
[[entities]]
id = \"houses\"
sim = \"House-0\"
model = \"Count\"
num = 40
params = { start = 1 }
[[entities]]
id = \"pv\"
sim = \"Pv-0\"
model = \"Source\"
params = { value = 7 }
[[entities]]
id = \"grid\"
sim = \"Grid-0\"
model = \"Sum\"
[[entities]]
id = \"bat\"
sim = \"Bat-0\"
model = \"Battery\"
[[entities]]
id = \"ctl\"
sim = \"Ctl-0\"
model = \"Control\"
params = { goal = 3 }
[[entities]]
id = \"log\"
sim = \"Log-0\"
model = \"Sum\"
[[connect]]
from = \"houses\"
to = \"grid\"
attrs = [[\"out\", \"in\"]]
[[connect]]
from = \"pv\"
to = \"grid\"
attrs = [[\"out\", \"in\"]]
[[connect]]
from = \"grid\"
to = \"log\"
attrs = [[\"out\", \"in\"]]
[[connect]]
from = \"bat\"
to = \"ctl\"
attrs = [\"soc\"]
[[connect]]
from = \"ctl\"
to = \"bat\"
attrs = [\"set\"]
weak = true
[[connect]]
from = \"bat\"
to = \"log\"
attrs = [[\"soc\", \"in\"]]
";
