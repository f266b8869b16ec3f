//! The targets of the program: what each subcommand is named, reads and writes.
ghost use Rattle.std.specs.Prelude.{◌≡◌};
ghost use Rattle.kc_command_line.specs.Targets.{begins_with_config, edit_of, is_explained, query_of, word_counts};

use kc_session::Command;

/// What a subcommand writes to standard output.
#[derive(Clone, Copy, PartialEq, Eq)]
pub enum Target {
    /// The `.config` text.
    Olddefconfig,
    /// The default file.
    Savedefconfig,
    /// The list of new symbols.
    Listnewconfig,
    /// The C header.
    Genheader,
    /// The values as make reads them.
    Genmake,
    /// The `.config` text with n for each symbol that can have it.
    Allnoconfig,
    /// The `.config` text with y for each symbol that can have it.
    Allyesconfig,
    /// The paths of the files of the Kconfig.
    Files,
    /// Why symbols have their values.
    Why,
    /// What is doubtful in the Kconfig and in CONFIG.
    Check,
    /// The `.config` text of CONFIG and fragments.
    Merge,
    /// The lines that give symbols wanted values.
    How,
    /// The menu tree.
    Menu,
    /// The replies to the commands of standard input.
    Session,
}

/// Which words a subcommand takes after KCONFIG, beside `NAME=VALUE`.
#[derive(Clone, Copy, Debug, PartialEq, Eq)]
pub enum Operands {
    /// None.
    Nothing,
    /// CONFIG.
    Config,
    /// CONFIG, which may be left out.
    PerhapsConfig,
    /// CONFIG, and the names of symbols.
    ConfigAndSymbols,
    /// CONFIG, and the paths of fragments.
    ConfigAndFragments,
    /// CONFIG, and wanted values: lines of a `.config`, and the paths of fragments.
    ConfigAndWanted,
}

impl Operands {
    /// Whether the first word after KCONFIG is CONFIG, whatever its form is.
    pub fn begin_with_config(self) -> bool
        ensures { result ≡ begins_with_config self }
    {
        match self {
            Operands::Nothing | Operands::PerhapsConfig => false,
            Operands::Config | Operands::ConfigAndSymbols => true,
            Operands::ConfigAndFragments | Operands::ConfigAndWanted => true,
        }
    }

    /// Which numbers of words that are no `NAME=VALUE` may come after these: the fewest and the most.
    pub fn word_counts(self) -> (usize, usize)
        ensures { result ≡ word_counts self }
    {
        match self {
            Operands::Nothing | Operands::Config => (0, 0),
            Operands::PerhapsConfig => (0, 1),
            Operands::ConfigAndSymbols | Operands::ConfigAndFragments => (1, usize::MAX),
            // A wanted value counts as a word that is `NAME=VALUE`.
            Operands::ConfigAndWanted => (0, usize::MAX),
        }
    }
}

/// A subcommand, as its help describes it.
#[derive(Clone, Copy)]
pub struct Subcommand {
    pub name: &'static str,
    pub target: Target,
    /// Which words come after KCONFIG.
    pub operands: Operands,
    /// What it does, in a line.
    pub about: &'static str,
    /// Where its output goes, with an example.
    pub notes: &'static str,
}

/// All subcommands, in the order of the help.
pub static SUBCOMMANDS: [Subcommand; 14] = [
    Subcommand {
        name: "olddefconfig",
        target: Target::Olddefconfig,
        operands: Operands::Config,
        about: "Writes the whole .config: the values of CONFIG, and the defaults of all other symbols",
        notes: "Standard output is the text of the .config alone; CONFIG itself is not changed.
Warnings and errors go to standard error. The status is 0 (also with warnings), 1
after an error, 2 after a usage error.

Example:
  kconf olddefconfig Kconfig .config > new.config",
    },
    Subcommand {
        name: "savedefconfig",
        target: Target::Savedefconfig,
        operands: Operands::Config,
        about: "Writes the defconfig: only the values of CONFIG that differ from the defaults",
        notes: "Standard output is the lines of the defconfig alone. Warnings and errors go to
standard error. The status is 0 (also with warnings), 1 after an error, 2 after a
usage error.

Example:
  kconf savedefconfig Kconfig .config > defconfig",
    },
    Subcommand {
        name: "listnewconfig",
        target: Target::Listnewconfig,
        operands: Operands::Config,
        about: "Lists the symbols that can be set and that CONFIG does not set, with their values",
        notes: "Standard output is a line NAME=VALUE for each of these symbols. Warnings and
errors go to standard error. The status is 0 (also with warnings), 1 after an
error, 2 after a usage error.

Example:
  kconf listnewconfig Kconfig .config",
    },
    Subcommand {
        name: "genheader",
        target: Target::Genheader,
        operands: Operands::Config,
        about: "Writes the C header: a #define for each value of the .config",
        notes: "Standard output is the text of the header alone. Warnings and errors go to
standard error. The status is 0 (also with warnings), 1 after an error, 2 after a
usage error.

Example:
  kconf genheader Kconfig .config > autoconf.h",
    },
    Subcommand {
        name: "genmake",
        target: Target::Genmake,
        operands: Operands::Config,
        about: "Writes the values as make reads them: a line NAME=VALUE for each that is not n",
        notes: "Standard output is what a makefile includes, as the auto.conf of the Linux kernel:
strings are without quotes, and $ and # are written as $$ and \\#. Warnings and
errors go to standard error. The status is 0 (also with warnings), 1 after an
error, 2 after a usage error.

Example:
  kconf genmake Kconfig .config > auto.conf",
    },
    Subcommand {
        name: "allnoconfig",
        target: Target::Allnoconfig,
        operands: Operands::Nothing,
        about: "Writes a .config with n for each symbol that can be n",
        notes: "Standard output is the text of the .config alone. Errors go to standard error. The
status is 0, 1 after an error, 2 after a usage error.

Example:
  kconf allnoconfig Kconfig > tiny.config",
    },
    Subcommand {
        name: "allyesconfig",
        target: Target::Allyesconfig,
        operands: Operands::Nothing,
        about: "Writes a .config with y for each symbol that can be y",
        notes: "Standard output is the text of the .config alone. Errors go to standard error. The
status is 0, 1 after an error, 2 after a usage error.

Example:
  kconf allyesconfig Kconfig > full.config",
    },
    Subcommand {
        name: "files",
        target: Target::Files,
        operands: Operands::Nothing,
        about: "Lists the files that KCONFIG is read from: itself and all that it sources",
        notes: "Standard output is the paths, one on each line, each once, in the order in which
they are first read. Errors go to standard error. The status is 0, 1 after an
error, 2 after a usage error.

Example:
  kconf files Kconfig | sed 's/^/.config: /' > .config.d",
    },
    Subcommand {
        name: "why",
        target: Target::Why,
        operands: Operands::ConfigAndSymbols,
        about: "Says why symbols have their values: the line that gives each, and what bounds it",
        notes: "NAME is the name of a symbol, with the prefix or without it. A value is that of the
.config that 'olddefconfig' writes. Each condition is shown with its own value before
it, and with the values of the symbols in it. Of long lists the first are shown, and
all with --all.

Warnings and errors go to standard error. The status is 0 (also with warnings), 1
after an error, also where no symbol has a name, and 2 after a usage error.

Example:
  kconf why Kconfig .config NET USB_STORAGE",
    },
    Subcommand {
        name: "check",
        target: Target::Check,
        operands: Operands::PerhapsConfig,
        about: "Lists what is doubtful: lines without effect, undefined names, unmet dependencies",
        notes: "Standard output is a line PATH:LINE: NAME: WORDS for each finding, those of CONFIG
first, then those of the Kconfig, each in the order of their lines, and at the end
how many there are of each. An undefined name is listed where it is likely a mistake, and with
--undefined always.

Where the Kconfig has errors, all of them are reported on standard error, and nothing
else is checked. The status is 0, also with findings; with --strict it is 1 if CONFIG
has one, or the Kconfig where there is no CONFIG or --tree; 1 after an error, 2 after a
usage error.

Example:
  kconf check Kconfig .config",
    },
    Subcommand {
        name: "merge",
        target: Target::Merge,
        operands: Operands::ConfigAndFragments,
        about: "Writes the .config of CONFIG and fragments, and reports each line without effect",
        notes: "FRAGMENT is the path of a .config with some lines, which replace those of CONFIG and
of the fragments before it; write ./A=B for a path A=B. Standard output is the text of
the .config alone. Standard error has a line for each line of a fragment that another
one replaces, that cannot be used or that has no effect, with the reason; then one for
each line of CONFIG that the fragments cost; and counts.

The status is 0, also where lines have no effect, which --strict makes 1; 1 after an
error, 2 after a usage error.

Example:
  kconf merge Kconfig x86_64_defconfig net.config debug.config > .config",
    },
    Subcommand {
        name: "how",
        target: Target::How,
        operands: Operands::ConfigAndWanted,
        about: "Says what to set so that symbols have wanted values: a fragment for merge",
        notes: "WANTED is a line of a .config, with the prefix, as CONFIG_NET=y (CONFIG_NET=n for
'is not set'), or the path of a FRAGMENT, all of whose lines are wanted; write ./A=B
for a path A=B. Standard output is a fragment: merged into CONFIG, it gives each wanted
value, and none of its lines can be left out. Where all are there already, it is empty.
Standard error has a line for each line of CONFIG that the fragment costs, then one for
each line of the fragment, with what it is needed for, and counts. With --keep the
values of lines that are lost are wanted, too, as far as lines give them.

The status is 0, also where lines of CONFIG are lost, which --strict makes 1; 1 where
nothing is found, which is no proof that there is nothing, or after an error; 2 after a
usage error.

Example:
  kconf how Kconfig .config CONFIG_WIREGUARD=y > wireguard.config",
    },
    Subcommand {
        name: "menu",
        target: Target::Menu,
        operands: Operands::Config,
        about: "Writes the menu tree for front ends: a JSON object on each line",
        notes: "Standard output has an object for each menu, choice, comment and definition of a
symbol, in the order of the Kconfig: its prompt, help, place and conditions, and what
is shown and can be set with the values of CONFIG. docs/PROTOCOL.md describes the fields.

Warnings and errors go to standard error. The status is 0 (also with warnings), 1
after an error, 2 after a usage error.

Example:
  kconf menu Kconfig .config > menu.jsonl",
    },
    Subcommand {
        name: "session",
        target: Target::Session,
        operands: Operands::Config,
        about: "Answers commands that it reads from standard input, one on each line",
        notes: "Commands, with one space between the words. K is one to seven digits.
  set NAME VALUE  gives a symbol a user value; y chooses a member of a choice
  unset NAME      removes the user value
  reset           removes all user values
  load K          the next K lines are a .config that replaces all user values
  merge K         the same, but what the lines do not name is kept
  allno, allyes   n, or y, for each bool and tristate that is no member of a choice
  show NAME       the line of a symbol
  list            this line for each symbol
  choices         the line of each choice
  config, header, defconfig, new
                  the texts of olddefconfig, genheader, savedefconfig, listnewconfig

A reply is its text and then the line 'ok', or the line 'refused' with a number:
  1  no such command, an argument too few or too many, or not UTF-8
  2  no symbol has this name
  3  not a value of the symbol's type
  4  a member of a choice takes only y
  5  K is not one to seven digits, or the input ends before K lines
  6  the command is too long, or what is loaded
  7  out of memory

The line of a symbol is
  NAME type=TYPE value=VALUE vis=VISIBILITY can=LIST user=USER
VISIBILITY is n, m or y; it is n where no prompt of the symbol is shown. LIST is
the values that 'set' can give it with an effect, or - for none, and always for a
string, an int and a hex. USER is the user value, or - for none.

Warnings of CONFIG and errors go to standard error. The status is 0 when all
commands were answered (also with warnings and refusals), 1 after an error, 2
after a usage error.

Example:
  printf 'list\\nconfig\\n' | kconf session Kconfig .config",
    },
];

impl Target {
    /// The command that changes the user values before the output is written, if there is one.
    pub fn edit<'a>(self) -> Option<Command<'a>>
        ensures { result ≡ edit_of self }
    {
        match self {
            Target::Allnoconfig => Some(Command::AllNo),
            Target::Allyesconfig => Some(Command::AllYes),
            _ => None,
        }
    }

    /// The command whose text is the output, or from which the output is made. A list of files and a report need none, and
    /// a session serves those that it reads.
    pub fn query<'a>(self) -> Option<Command<'a>>
        ensures { result ≡ query_of self }
    {
        match self {
            Target::Olddefconfig | Target::Genmake | Target::Allnoconfig | Target::Allyesconfig =>
                Some(Command::Config),
            Target::Savedefconfig => Some(Command::Defconfig),
            Target::Listnewconfig => Some(Command::New),
            Target::Genheader => Some(Command::Header),
            Target::Why | Target::Check | Target::Merge | Target::How | Target::Menu => None,
            Target::Files | Target::Session => None,
        }
    }

    /// Whether warnings and errors are in words also without `--explain`. Of the others only the numbers are written.
    pub fn is_explained(self) -> bool
        ensures { result ≡ is_explained self }
    {
        match self {
            Target::Genmake | Target::Files | Target::Why | Target::Check => true,
            Target::Merge | Target::How | Target::Menu => true,
            Target::Olddefconfig | Target::Savedefconfig | Target::Listnewconfig => false,
            Target::Genheader | Target::Allnoconfig | Target::Allyesconfig => false,
            Target::Session => false,
        }
    }
}

/// The subcommand of a name.
pub fn subcommand_named(name: &str) -> Option<&'static Subcommand> {
    SUBCOMMANDS.iter().find(|row| row.name == name)
}
