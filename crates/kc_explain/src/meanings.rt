//! What the numbers of faults, warnings and refusals mean, in a few words each. docs/ERRORS.md has the same words of the
//! first two, which `tools/check_explanations.py` compares. They are this project's own.

/// The words of a fault, by its number, as 3 in `K03`.
static FAULTS: [(u8, &str); 20] = [
    (
        1,
        "a limit is passed, of bytes, files, depth, references or symbols",
    ),
    (2, "a character that is not allowed here"),
    (3, "a quote that its line does not close"),
    (4, "a line that begins with no known word"),
    (5, "a line that does not have the form of its statement"),
    (
        6,
        "an attribute that the nearest statement does not take, or without a statement",
    ),
    (7, "a block closed wrongly, or not closed in its file"),
    (8, "a file that is missing"),
    (9, "a file that sources itself, directly or through others"),
    (
        10,
        "a dollar that begins no reference to a variable, or a function: docs/TREES.md says what to do",
    ),
    (11, "a variable that its own expansion needs"),
    (12, "a symbol without a type"),
    (13, "a symbol with two types"),
    (14, "two prompts in one definition"),
    (15, "a default or a range that does not fit the type"),
    (
        16,
        "a select or an imply in, or of, a string, an int or a hex",
    ),
    (17, "a choice, or a member of one, at fault"),
    (18, "MODULES that is no bool, or modules in another symbol"),
    (
        19,
        "a dependency loop, in which each of these uses the next and the last the first",
    ),
    (20, "a word or a form of Kconfig that is unsupported"),
];

/// The words of a warning of a `.config`, by its number.
static WARNINGS: [(u8, &str); 5] = [
    (1, "no symbol has this name"),
    (2, "not a value of the symbol's type"),
    (
        3,
        "a string that is not in quotes, or whose quotes are not closed",
    ),
    (4, "not a line of a .config"),
    (5, "the symbol had a usable line before; this one counts"),
];

/// The words of a refusal of a session, by its number: those of docs/COMMANDS.md, in short.
static REFUSALS: [(u8, &str); 7] = [
    (
        1,
        "not UTF-8, no such command, or an argument missing or too many",
    ),
    (
        2,
        "no symbol has this name, which is written without the prefix, as in the Kconfig",
    ),
    (3, "not a value of the symbol's type"),
    (4, "a member of a choice takes `y` alone"),
    (
        5,
        "the count is not one to seven digits, or the input ended before so many lines",
    ),
    (
        6,
        "the command line, or the lines of the load, are too long",
    ),
    (7, "out of memory"),
];

/// The words of a fault by its number, as 3 of K03. There are none of another number than those from 1 to 20.
pub fn fault_meaning(number: u8) -> Option<&'static str> {
    words_of(FAULTS.as_slice(), number)
}

/// The words of a warning of a `.config` by its number. There are none of another number than those from 1 to 5.
pub fn warning_meaning(number: u8) -> Option<&'static str> {
    words_of(WARNINGS.as_slice(), number)
}

/// The words of a refusal of a session by its number. There are none of another number than those from 1 to 7.
pub fn refusal_meaning(number: u8) -> Option<&'static str> {
    words_of(REFUSALS.as_slice(), number)
}

/// The words of a number in a table.
fn words_of(table: &'static [(u8, &'static str)], number: u8) -> Option<&'static str> {
    let row = table.iter().find(|row| row.0 == number)?;
    Some(row.1)
}
