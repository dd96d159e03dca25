//! Tables, with their exact texts.

use crate::records::Recorded;
use crate::said::Row;

/// The rows.
pub const TABLES: &[Row] = &[
    (
        Recorded::Battery,
        "[[watch]]\nentity = \"Ctl-0.0\"\nattr = \"soc\"\nrule = \"greatest\"\n[[watch]]\nentity = \"Bat-0.0\"\nattr = \"set\"\nrule = \"sum\"\n",
        "watch Ctl-0.0 soc greatest\n0:0 0\n0:1 1\n0:2 2\n0:3 3\nrows 4 total 3\nwatch Bat-0.0 set sum\n0:1 3\n0:2 3\n0:3 3\nrows 3 total 9\n",
    ),
    (
        Recorded::Battery,
        "[[watch]]\nentity = \"Ctl-0.0\"\nattr = \"none\"\nrule = \"sum\"\n",
        "watch Ctl-0.0 none sum\nrows 0\n",
    ),
    (
        Recorded::Numbers,
        "[[watch]]\nentity = \"B-0.0\"\nattr = \"in\"\nrule = \"sum\"\n",
        "watch B-0.0 in sum\n0:0 -2\n1:0 9223372036854775807\n2:0 0\nrows 3 total 9223372036854775805\n",
    ),
    (
        Recorded::Numbers,
        "[[watch]]\nentity = \"B-0.0\"\nattr = \"in\"\nrule = \"least\"\n",
        "watch B-0.0 in least\n0:0 -7\n1:0 1\n2:0 0\nrows 3 total -7\n",
    ),
    (
        Recorded::Numbers,
        "[[watch]]\nentity = \"B-0.0\"\nattr = \"in\"\nrule = \"greatest\"\n",
        "watch B-0.0 in greatest\n0:0 5\n1:0 9223372036854775807\n2:0 0\nrows 3 total 9223372036854775807\n",
    ),
    (
        Recorded::Numbers,
        "[[watch]]\nentity = \"B-0.0\"\nattr = \"in\"\nrule = \"last\"\n[[watch]]\nentity = \"A-0.1\"\nattr = \"out\"\nrule = \"last\"\n",
        "watch B-0.0 in last\n0:0 -7\n1:0 1\n2:0 0\nrows 3 total 0\nwatch A-0.1 out last\nrows 0\n",
    ),
];
