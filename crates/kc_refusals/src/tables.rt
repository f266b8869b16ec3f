//! The calls on texts, each with what it comes to.

use crate::text_calls::TextCall;
use crate::texts::{
    CONFIG, CONFIG_TEXT, DRIVERS_PATH, LINES, LOOP_NODES, OTHER_DRIVERS, OTHER_LINES, PAIRS,
};

/// A path that no file has. It is K08 in line 0 of the top file that is missing.
const MISSING: (&str, &str) = ("other", "8 other:0 other");

/// The top files before the first addition.
const BEFORE_NEW: [(&str, &str); 2] = [("Kconfig", LINES), MISSING];

/// The top files before the second.
const BEFORE_REPLACED: [(&str, &str); 1] = [("Kconfig", LINES)];

/// A file of a new path, and one in the place of another.
pub(crate) const ADDITIONS: [(TextCall, &str); 2] = [
    (
        TextCall::Add("other", "config X\n", &BEFORE_NEW),
        "other:1 config X\nother:2 end\n",
    ),
    (
        TextCall::Add(DRIVERS_PATH, OTHER_DRIVERS, &BEFORE_REPLACED),
        OTHER_LINES,
    ),
];

/// Pairs with a fault in the second.
const BAD_PAIRS: [(&str, &str); 3] = [("A", "a"), ("BAD", "a\nb"), ("C", "\n")];

/// The variables of the Kconfig, and a text with a line feed, which is K02.
pub(crate) const PAIR_READINGS: [(TextCall, &str); 2] = [
    (TextCall::FromPairs(&PAIRS), LINES),
    (TextCall::FromPairs(&BAD_PAIRS), "2 BAD:0 -"),
];

/// The Kconfig, and a file that sources itself, which is K09.
pub(crate) const LINE_READINGS: [(TextCall, &str); 2] = [
    (TextCall::LogicalLines("Kconfig"), LINES),
    (TextCall::LogicalLines("ring"), "9 ring:2 -"),
];

/// The Kconfig, a file that sources itself, which is K09, and one that sources a file that is missing, which is K08.
pub(crate) const ASKED_READINGS: [(TextCall, &str); 3] = [
    (TextCall::LinesFrom("Kconfig"), LINES),
    (TextCall::LinesFrom("ring"), "9 ring:2 -"),
    (TextCall::LinesFrom("hole"), "8 hole:3 hole/Bus"),
];

/// The Kconfig, a file that sources one that is missing, which is K08, and a loop, which is K19.
pub(crate) const OPENINGS: [(TextCall, &str); 3] = [
    (TextCall::Open("Kconfig", CONFIG), CONFIG_TEXT),
    (TextCall::Open("hole", ""), "8 hole:3 hole/Bus"),
    (TextCall::Open("loop", ""), LOOP_NODES),
];
