//! Why there are no tables, with the exact lines.

use crate::records::Recorded;
use crate::said::Row;

/// The rows.
pub const ENDINGS: &[Row] = &[
    (
        Recorded::Battery,
        "watch = [",
        "mosaikrun: watch 1: not TOML\n",
    ),
    (Recorded::Battery, "", "mosaikrun: watch 2: missing watch\n"),
    (
        Recorded::Battery,
        "[[watch]]\nentity = \"Ctl-0.0\"\nrule = \"sum\"\n",
        "mosaikrun: watch 2: missing watch[0].attr\n",
    ),
    (
        Recorded::Battery,
        "watch = 1\n",
        "mosaikrun: watch 3: wrong kind watch\n",
    ),
    (
        Recorded::Battery,
        "watch = [1]\n",
        "mosaikrun: watch 3: wrong kind watch[0]\n",
    ),
    (
        Recorded::Battery,
        "[[watch]]\nentity = 1\nattr = \"soc\"\n",
        "mosaikrun: watch 3: wrong kind watch[0].entity\n",
    ),
    (
        Recorded::Battery,
        "watcher = 1\nwatch = 1\n",
        "mosaikrun: watch 4: unknown key watcher\n",
    ),
    (
        Recorded::Battery,
        "[[watch]]\nattr = 1\nto = 1\n",
        "mosaikrun: watch 4: unknown key watch[0].to\n",
    ),
    (
        Recorded::Battery,
        "watch = []\n",
        "mosaikrun: watch 5: out of range watch 0\n",
    ),
    (
        Recorded::Battery,
        "[[watch]]\nentity = \"none\"\nattr = \"soc\"\nrule = \"mean\"\n",
        "mosaikrun: watch 6: no rule mean at watch[0].rule\n",
    ),
    (
        Recorded::Battery,
        "[[watch]]\nentity = \"Ctl-0.1\"\nattr = \"soc\"\nrule = \"sum\"\n",
        "mosaikrun: watch 7: no entity Ctl-0.1 at watch[0].entity\n",
    ),
    (
        Recorded::Battery,
        "[[watch]]\nentity = \"Ctl-0.0\"\nattr = \"soc\"\nrule = \"sum\"\n[[watch]]\nentity = \"0\"\nattr = \"soc\"\nrule = \"last\"\n",
        "mosaikrun: watch 7: no entity 0 at watch[1].entity\n",
    ),
    // The record comes before the file of watches, and this one before the replay.
    (
        Recorded::Broken,
        "watch = [",
        "mosaikrun: record: line 7 fault 4\n",
    ),
    (
        Recorded::Short,
        "watch = [",
        "mosaikrun: watch 1: not TOML\n",
    ),
    (
        Recorded::Short,
        "[[watch]]\nentity = \"A-0.0\"\nattr = \"out\"\nrule = \"sum\"\n",
        "mosaikrun: run 8: record ends with 1 outstanding\n",
    ),
];
