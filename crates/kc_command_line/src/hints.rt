//! What is said of a word of the command line, after the mistake of usage: of one that is no variable, and of one that is a
//! target of other tools.

ghost use Rattle.std.specs.Prelude.{◌≡◌};
ghost use Rattle.kc_command_line.specs.Hints.{hint_of};

use crate::targets::{Operands, Subcommand};
use std::fmt;

/// What is wrong with a word after the files.
#[derive(Clone, Copy, PartialEq, Eq)]
pub enum HintKind {
    /// The target takes no CONFIG, and the word has no `=`, so it may be one.
    TakesNoConfig,
    /// The word has no `=`.
    NoEqualsSign,
    /// What is before the `=` is no name.
    NoName,
}

/// A line that says what is wrong with a word, or what to write in its place.
#[derive(Clone, Copy, Drop)]
pub enum Hint<'a> {
    /// A word after the files is no variable.
    Word {
        /// The name of the target.
        target: &'static str,
        word: &'a str,
        kind: HintKind,
    },
    /// The target is one of other tools, for which kconf has this.
    OtherTarget(&'static str),
}

impl<'a> Hint<'a> {
    /// What is wrong with a word after the files of a subcommand, which is no variable and one too many.
    pub fn of(row: &Subcommand, word: &'a str) -> Hint<'a> {
        Hint::Word {
            target: row.name,
            word,
            kind: kind_of(word, row.operands != Operands::Nothing),
        }
    }

    /// What kconf has for a target of other tools, if the name is known.
    pub fn of_target(name: &str) -> Option<Hint<'a>> {
        let row = OTHER_TARGETS.iter().find(|row| row.0 == name)?;
        Some(Hint::OtherTarget(row.1))
    }
}

/// What kconf has for `menuconfig` and its like.
const FRONT_END: &str =
    "the script menuconfig.py shows the menus; it is in clients, and in share/kconf once kconf is installed";

/// What kconf has for targets that ask for the value of each new symbol.
const ASKS_NOTHING: &str =
    "kconf listnewconfig shows the new symbols, and kconf olddefconfig gives them their defaults";

/// What kconf has for targets that write the files of a build.
const BUILD_FILES: &str =
    "kconf genheader writes the C header, and kconf genmake the values for make";

/// What kconf has for targets that change the values of a `.config` by what a system or a rule asks for.
const NO_SUCH_TARGET: &str = "kconf has no target like it; kconf merge adds fragments to a .config";

/// The targets of other tools, and what kconf has for each. They are this project's own words.
static OTHER_TARGETS: [(&str, &str); 20] = [
    ("defconfig", "write kconf olddefconfig KCONFIG DEFCONFIG"),
    ("alldefconfig", "write kconf olddefconfig KCONFIG -"),
    ("oldnoconfig", "write kconf olddefconfig KCONFIG CONFIG"),
    ("config", ASKS_NOTHING),
    ("oldconfig", ASKS_NOTHING),
    ("menuconfig", FRONT_END),
    ("nconfig", FRONT_END),
    ("xconfig", FRONT_END),
    ("gconfig", FRONT_END),
    ("guiconfig", FRONT_END),
    ("syncconfig", BUILD_FILES),
    ("silentoldconfig", BUILD_FILES),
    ("genconfig", BUILD_FILES),
    (
        "helpnewconfig",
        "kconf listnewconfig lists the new symbols, and kconf menu has the help texts",
    ),
    ("randconfig", "no target of kconf gives random values"),
    (
        "allmodconfig",
        "no target of kconf gives m wherever it can; kconf allyesconfig gives y",
    ),
    ("localmodconfig", NO_SUCH_TARGET),
    ("localyesconfig", NO_SUCH_TARGET),
    ("mod2yesconfig", NO_SUCH_TARGET),
    ("yes2modconfig", NO_SUCH_TARGET),
];

impl fmt::Display for Hint<'_> {
    fn fmt<W: fmt::Write>(&self, f: &mut fmt::Formatter<W>) -> fmt::Result {
        match self {
            Hint::Word { target, word, kind } => match kind {
                HintKind::TakesNoConfig => writeln!(
                    f,
                    "tip: {target} takes no CONFIG: leave out '{word}'"
                ),
                HintKind::NoEqualsSign => writeln!(f, "tip: '{word}' has no '='"),
                HintKind::NoName => writeln!(f, "tip: what '{word}' has before its '=' is no NAME"),
            },
            Hint::OtherTarget(words) => writeln!(f, "tip: {words}"),
        }
    }
}

/// What is wrong with a word that is no variable, after the files of a target that takes a CONFIG or takes none.
fn kind_of(word: &str, takes_config: bool) -> HintKind
    ensures { result ≡ hint_of takes_config word.now }
{
    if word.as_bytes().contains(&b'=') {
        HintKind::NoName
    } else if takes_config {
        HintKind::NoEqualsSign
    } else {
        HintKind::TakesNoConfig
    }
}
