//! The checks by their words, and what the program writes of them.

use crate::finding::{Call, Stop};
use crate::sessions::{SessionCall, Word, check_session};
use crate::tables::{ADDITIONS, ASKED_READINGS, LINE_READINGS, OPENINGS, PAIR_READINGS};
use crate::text_calls::{TextCall, Texts, check_texts};
use crate::tree_calls::{TreeCall, check_new, check_parse, check_tree};
use std::alloc::Global;
use std::io::{self, Write};

/// A check.
#[derive(Clone, Copy)]
enum Check {
    /// Of calls on texts, each with what it comes to.
    Texts(&'static [(TextCall, &'static str)]),
    /// Of `Tree::parse`.
    Parse,
    /// Of `Session::new`.
    NewSession,
    Tree(TreeCall),
    Session(SessionCall),
}

/// All checks by their words, in the order of the layers that the calls belong to.
const CHECKS: [(&str, Check); 25] = [
    ("add", Check::Texts(&ADDITIONS)),
    ("from_pairs", Check::Texts(&PAIR_READINGS)),
    ("logical_lines", Check::Texts(&LINE_READINGS)),
    ("lines_from", Check::Texts(&ASKED_READINGS)),
    ("parse", Check::Parse),
    ("empty", Check::Tree(TreeCall::Empty)),
    ("node", Check::Tree(TreeCall::Node)),
    ("read_config", Check::Tree(TreeCall::ReadConfig)),
    ("read_config_lines", Check::Tree(TreeCall::ReadConfigLines)),
    ("new_session", Check::NewSession),
    ("open", Check::Texts(&OPENINGS)),
    ("set", Check::Session(SessionCall::Apply(Word::Set))),
    ("load", Check::Session(SessionCall::Apply(Word::Load))),
    ("merge", Check::Session(SessionCall::Apply(Word::Merge))),
    ("list", Check::Session(SessionCall::Apply(Word::List))),
    ("choices", Check::Session(SessionCall::Apply(Word::Choices))),
    ("config", Check::Session(SessionCall::Apply(Word::Config))),
    ("header", Check::Session(SessionCall::Apply(Word::Header))),
    (
        "defconfig",
        Check::Session(SessionCall::Apply(Word::Defconfig)),
    ),
    ("new", Check::Session(SessionCall::Apply(Word::New))),
    ("run", Check::Session(SessionCall::Run)),
    ("fill", Check::Session(SessionCall::Fill)),
    ("merged", Check::Session(SessionCall::Merged)),
    ("set_after_list", Check::Session(SessionCall::SetAfterList)),
    (
        "set_after_nodes",
        Check::Session(SessionCall::SetAfterNodes),
    ),
];

/// How a run of the program ends.
#[derive(Clone, Copy)]
pub(crate) enum Ending {
    /// All is as it should be, and no call was refused.
    Answered,
    /// Something is not as it should be.
    Wrong,
    /// A word is no check.
    Usage,
    /// A check was refused memory of its own, and says nothing.
    Unprepared,
    /// All is as it should be, and a call was refused.
    Refused,
}

impl Ending {
    /// The exit status.
    pub(crate) fn status(self) -> u8 {
        match self {
            Ending::Answered => 0,
            Ending::Wrong => 1,
            Ending::Usage => 2,
            Ending::Unprepared => 3,
            Ending::Refused => 4,
        }
    }

    /// The ending of two checks: that something is wrong counts before all else.
    fn and(self, other: Ending) -> Ending {
        match (self, other) {
            (Ending::Wrong, _) | (_, Ending::Wrong) => Ending::Wrong,
            (Ending::Answered, other) => other,
            (other, _) => other,
        }
    }
}

/// Runs a check.
fn run_check(alloc: Global, check: Check) -> Result<Call, Stop> {
    let mut texts = Texts::new(alloc)?;
    match check {
        Check::Texts(calls) => check_texts(&mut texts, calls),
        Check::Parse => check_parse(&texts),
        Check::NewSession => check_new(&texts),
        Check::Tree(call) => check_tree(&texts, call),
        Check::Session(call) => check_session(&texts, call),
    }
}

/// Runs the check of a word and writes what it finds. A check that was refused memory of its own finds nothing.
fn run_word<W: Write>(alloc: Global, word: &str, check: Check, out: &mut W) -> io::Result<Ending> {
    let (text, ending) = match run_check(alloc, check) {
        Ok(Call::Answered) => ("as it should be", Ending::Answered),
        Ok(Call::Refused) => ("as it should be", Ending::Refused),
        Err(Stop::Refused | Stop::Unprepared) => return Ok(Ending::Unprepared),
        Err(Stop::Wrong(wrong)) => (wrong.text(), Ending::Wrong),
    };
    out.write_all(word.as_bytes())?;
    out.write_all(b": ")?;
    out.write_all(text.as_bytes())?;
    out.write_all(b"\n")?;
    Ok(ending)
}

/// Runs the checks of words, all where there are none.
pub(crate) fn run_words<W: Write>(
    alloc: Global,
    words: &[String],
    out: &mut W,
) -> io::Result<Ending> {
    if !words.iter().all(|word| is_check(word.as_str())) {
        return Ok(Ending::Usage);
    }
    let mut ending = Ending::Answered;
    for (known, check) in CHECKS {
        if words.is_empty() || words.iter().any(|word| word.as_str() == known) {
            ending = ending.and(run_word(alloc, known, check, out)?);
        }
    }
    Ok(ending)
}

/// Whether there is a check of a word.
fn is_check(word: &str) -> bool {
    CHECKS.iter().any(|(known, _)| *known == word)
}
