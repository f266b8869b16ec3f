//! The command line: `kconf TARGET KCONFIG CONFIG [NAME=VALUE]...` with its options. `allnoconfig`, `allyesconfig` and
//! `files` take no CONFIG, `check` takes one or none, and `why`, `merge` and `how` take names, paths or wanted values besides.
//!
//! A word that begins with `-` is an option, but `-` alone is a value, and so is each word after `--`.

use crate::hints::Hint;
use crate::targets::{Operands, SUBCOMMANDS, Subcommand, Target, subcommand_named};
use crate::variables::Words;
use crate::version::VERSION;
use crate::wording::Wording;
use clap::error::ErrorKind;
use clap::{Arg, ArgAction, ArgMatches, Command, Error};
use kc_files::{Prefix, PrefixFault};
use std::alloc::{AllocError, Global};
use std::convert::AsStr;

/// The CONFIG that is none.
const NO_CONFIG: &str = "-";

/// What the words of a command line ask for.
#[derive(Drop)]
pub struct Arguments<'a> {
    /// What is written.
    pub target: Target,
    /// The path of the top file.
    pub kconfig: &'a str,
    /// The path of the `.config` that is loaded, if there is one.
    pub config: Option<&'a str>,
    /// What comes before the names of symbols in files.
    pub prefix: Prefix,
    /// How faults and warnings are worded.
    pub wording: Wording,
    /// The folder that relative paths are taken from, which is the working folder where this is empty.
    pub folder: &'a str,
    /// The path of a file with more variables, whose lines come before the words.
    pub variables_file: Option<&'a str>,
    /// The variables of the words, each as its name and its text, in their order.
    pub variables: Vec<(&'a str, &'a str)>,
    /// The names of symbols of `why`, or the paths of the fragments of `merge` and `how`, in their order.
    pub operands: Vec<&'a str>,
    /// The lines of a `.config` that are wanted of `how`, in their order.
    pub wanted: Vec<&'a str>,
    /// Whether all is shown, of lists that are shortened otherwise.
    pub is_all: bool,
    /// Whether a finding makes the status 1.
    pub is_strict: bool,
    /// Whether a finding of the tree does so also where there is a CONFIG.
    pub judges_tree: bool,
    /// Whether help texts are written.
    pub has_help: bool,
    /// Whether `how` keeps the values of CONFIG, as far as it can.
    pub keeps_values: bool,
    /// Whether `how` shows the definitions of the symbols that it sets.
    pub shows_definitions: bool,
}

/// Words that are no command line, or ask for help or the version.
#[derive(Drop)]
pub struct BadWords<'a> {
    /// What the user is shown.
    pub error: Error,
    /// The word that is at fault, where it is known.
    pub hint: Option<Hint<'a>>,
}

impl From<Error> for BadWords<'_> {
    fn from(error: Error) -> Self {
        BadWords { error, hint: None }
    }
}

impl From<AllocError> for BadWords<'_> {
    fn from(refused: AllocError) -> Self {
        BadWords::from(Error::from(refused))
    }
}

/// Why the words of a subcommand are no arguments.
enum WordFault<'a> {
    /// A value is not one of those that are taken, as these words say.
    BadValue(&'static str),
    /// A word is no variable.
    BadVariable(Hint<'a>),
    /// Memory was refused.
    NoMemory,
}

impl<'a> Arguments<'a> {
    /// The arguments in the words of a command line, of which the first is the program's name.
    ///
    /// # Errors
    ///
    /// Words that are no command line, a request for help or for the version, and `ErrorKind::OutOfMemory` where memory
    /// was refused. The text for the user is the error's `Display`, and after it the hint's.
    pub fn parse<S: AsStr>(alloc: Global, words: &'a [S]) -> Result<Arguments<'a>, BadWords<'a>> {
        let mut command = kconf_command(alloc)?;
        if let Some(fault) = other_target(alloc, &mut command, words)? {
            return Err(fault);
        }
        let matches = command.try_get_matches_from_mut(words)?;
        let Some((row, found)) = target_of(&matches) else {
            let error = command.error(ErrorKind::MissingSubcommand, MISSING_ARGUMENT)?;
            return Err(BadWords::from(error));
        };
        let (message, hint) = match read_matches(alloc, row, found) {
            Ok(arguments) => return Ok(arguments),
            Err(WordFault::BadValue(message)) => (message, None),
            Err(WordFault::BadVariable(hint)) => (BAD_VARIABLE, Some(hint)),
            Err(WordFault::NoMemory) => return Err(BadWords::from(AllocError)),
        };
        let error = usage_error(alloc, row, message)?;
        Err(BadWords { error, hint })
    }
}

/// What is said where the target, or what help is wanted of, is one of other tools, and none of kconf.
fn other_target<'a, S: AsStr>(
    alloc: Global,
    command: &mut Command<'_>,
    words: &[S],
) -> Result<Option<BadWords<'a>>, AllocError> {
    let Some(name) = named_target(words) else {
        return Ok(None);
    };
    let Some(hint) = Hint::of_target(name) else {
        return Ok(None);
    };
    let message = format!(in alloc; "no target is named '{name}'")?;
    let error = command.error(ErrorKind::InvalidSubcommand, message.as_str())?;
    Ok(Some(BadWords {
        error,
        hint: Some(hint),
    }))
}

/// The word that names a target: the first after the program's name, and after `help` the next one.
fn named_target<S: AsStr>(words: &[S]) -> Option<&str> {
    let first = words.get(1)?.as_str();
    match words.get(2) {
        Some(second) if first == "help" => Some(second.as_str()),
        _ => Some(first),
    }
}

impl From<AllocError> for WordFault<'_> {
    fn from(_refused: AllocError) -> Self {
        WordFault::NoMemory
    }
}

/// What is said of words that lack an argument.
const MISSING_ARGUMENT: &str = "an argument is missing";

/// What is said of words that lack the name of a symbol.
const MISSING_NAME: &str = "the name of a symbol is missing";

/// What is said of words that lack a fragment.
const MISSING_FRAGMENT: &str = "the path of a FRAGMENT is missing";

/// What is said of words that lack a wanted value.
const MISSING_WANTED: &str =
    "what is wanted is missing: a line of a .config, as CONFIG_NET=y, or the path of a FRAGMENT";

/// What is said of a malformed prefix.
const MALFORMED_PREFIX: &str =
    "the value of '--prefix <P>' has more than 64 bytes, or one that is no ASCII letter, digit or '_'";

/// What is said of a word that is no variable.
const BAD_VARIABLE: &str =
    "a word after the files is not NAME=VALUE, with ASCII letters, digits, '_' and '-' in NAME, and '-' not first";

/// The subcommand that was found in the words, and what was found of its arguments.
fn target_of<'m, 'a>(
    matches: &'m ArgMatches<'a>,
) -> Option<(&'static Subcommand, &'m ArgMatches<'a>)> {
    let (name, found) = matches.subcommand()?;
    Some((subcommand_named(name)?, found))
}

/// The arguments of a subcommand.
fn read_matches<'a>(
    alloc: Global,
    row: &Subcommand,
    found: &ArgMatches<'a>,
) -> Result<Arguments<'a>, WordFault<'a>> {
    let Some(kconfig) = found.get_str("KCONFIG") else {
        return Err(WordFault::BadValue(MISSING_ARGUMENT));
    };
    let prefix = read_prefix(alloc, found.get_str("prefix").unwrap_or("CONFIG_"))?;
    let words = found.get_strs("words").unwrap_or(&[]);
    let (wanted, words) = without_wanted(alloc, row, prefix.as_str(), words)?;
    let words = read_words(alloc, row, words.as_slice())?;
    if row.operands == Operands::ConfigAndWanted && wanted.is_empty() && words.others.is_empty() {
        return Err(WordFault::BadValue(MISSING_WANTED));
    }
    let config = match row.operands {
        Operands::PerhapsConfig => words.others.first().copied(),
        _ => found.get_str("CONFIG"),
    };
    Ok(Arguments {
        target: row.target,
        kconfig,
        config: config.filter(|path| *path != NO_CONFIG),
        prefix,
        wording: wording_of(row, found),
        folder: found.get_str("folder").unwrap_or(""),
        variables_file: found.get_str("variables"),
        variables: words.variables,
        operands: words.others,
        wanted,
        is_all: found.get_flag("all"),
        is_strict: found.get_flag("strict"),
        judges_tree: found.get_flag("tree"),
        has_help: !found.get_flag("no-help"),
        keeps_values: found.get_flag("keep"),
        shows_definitions: found.get_flag("explain"),
    })
}

/// How faults and warnings are worded.
fn wording_of(row: &Subcommand, found: &ArgMatches<'_>) -> Wording {
    if row.target.is_explained() || found.get_flag("explain") {
        Wording::Explained
    } else {
        Wording::Number
    }
}

fn read_prefix<'a>(alloc: Global, text: &str) -> Result<Prefix, WordFault<'a>> {
    match Prefix::new(alloc, text) {
        Ok(prefix) => Ok(prefix),
        Err(PrefixFault::NoMemory) => Err(WordFault::NoMemory),
        Err(PrefixFault::Malformed) => Err(WordFault::BadValue(MALFORMED_PREFIX)),
    }
}

/// The words that are wanted values, each a line of a `.config` with the prefix, and the others. Only `how` takes any.
fn without_wanted<'a>(
    alloc: Global,
    row: &Subcommand,
    prefix: &str,
    words: &[&'a str],
) -> Result<(Vec<&'a str>, Vec<&'a str>), AllocError> {
    let takes = row.operands == Operands::ConfigAndWanted;
    let mut wanted = Vec::new(alloc);
    let mut others = Vec::new(alloc);
    for word in words {
        if takes && is_wanted(prefix, word) {
            wanted.push(*word)?;
        } else {
            others.push(*word)?;
        }
    }
    Ok((wanted, others))
}

/// Whether a word is a line of a `.config`, by its beginning: the prefix, and `=` somewhere after it.
fn is_wanted(prefix: &str, word: &str) -> bool {
    match word.strip_prefix(prefix) {
        Some(rest) => rest.as_bytes().contains(&b'='),
        None => false,
    }
}

/// The words after the files of a subcommand, as many as it takes.
fn read_words<'a>(
    alloc: Global,
    row: &Subcommand,
    words: &[&'a str],
) -> Result<Words<'a>, WordFault<'a>> {
    let words = Words::of(alloc, words)?;
    let (fewest, most) = row.operands.word_counts();
    if let Some(word) = words.others.get(most) {
        return Err(WordFault::BadVariable(Hint::of(row, *word)));
    }
    if words.others.len() < fewest {
        return Err(WordFault::BadValue(missing_operand(row.operands)));
    }
    Ok(words)
}

/// What is said where all words after CONFIG are variables.
fn missing_operand(operands: Operands) -> &'static str {
    match operands {
        Operands::ConfigAndFragments => MISSING_FRAGMENT,
        _ => MISSING_NAME,
    }
}

/// A mistake of usage of a subcommand, with its usage: the value of a word is not one of those that are taken.
fn usage_error(alloc: Global, row: &Subcommand, message: &str) -> Result<Error, AllocError> {
    let name = format!(in alloc; "kconf {}", row.name)?;
    let mut command = target_command(alloc, row)?.bin_name(name.as_str())?;
    command.error(ErrorKind::ValueValidation, message)
}

/// What is below the help of the program.
const NOTES: &str =
    "Each target writes to standard output, and changes no file. 'kconf TARGET --help'
describes the arguments and options of a target.

Example:
  kconf olddefconfig Kconfig .config > new.config";

/// The command line, with a subcommand for each target.
fn kconf_command<'a>(alloc: Global) -> Result<Command<'a>, AllocError> {
    let mut command = Command::new(alloc, "kconf")
        .version(VERSION)
        .about(
            "Resolves a Kconfig: computes the value of each symbol from a .config and the defaults",
        )
        .after_help(NOTES)
        .subcommand_value_name("TARGET")
        .subcommand_help_heading("Targets")
        .subcommand_required(true);
    for row in SUBCOMMANDS.as_slice() {
        command = command.subcommand(target_command(alloc, row)?)?;
    }
    Ok(command)
}

/// The subcommand of a row of the table.
fn target_command<'a>(alloc: Global, row: &Subcommand) -> Result<Command<'a>, AllocError> {
    let command = Command::new(alloc, row.name)
        .about(row.about)
        .after_help(row.notes)
        .arg(kconfig_argument(alloc))?;
    let command = if row.operands.begin_with_config() {
        command.arg(config_argument(alloc))?
    } else {
        command
    };
    let command = with_own_options(alloc, command, row.target)?;
    command
        .arg(words_argument(alloc, row.operands))?
        .arg(variables_option(alloc))?
        .arg(folder_option(alloc))?
        .arg(prefix_option(alloc))?
        .arg(explain_option(alloc, row.target))
}

/// The options that are those of a target alone.
fn with_own_options<'a>(
    alloc: Global,
    command: Command<'a>,
    target: Target,
) -> Result<Command<'a>, AllocError> {
    match target {
        Target::Why => command.arg(all_option(alloc)),
        Target::Check => command
            .arg(undefined_option(alloc))?
            .arg(strict_option(
                alloc,
                "Makes the status 1 where there is a finding of CONFIG, or without CONFIG of the Kconfig",
            ))?
            .arg(tree_option(alloc)),
        Target::Merge => command.arg(strict_option(
            alloc,
            "Makes the status 1 where a line of a FRAGMENT has no effect",
        )),
        Target::How => command
            .arg(strict_option(alloc, "Makes the status 1 where a line of CONFIG is lost"))?
            .arg(keep_option(alloc)),
        Target::Menu => command.arg(no_help_option(alloc)),
        _ => Ok(command),
    }
}

fn all_option<'a>(alloc: Global) -> Arg<'a> {
    Arg::new(alloc, "all")
        .long("all")
        .action(ArgAction::SetTrue)
        .help("Shows the whole of each list")
}

fn undefined_option<'a>(alloc: Global) -> Arg<'a> {
    Arg::new(alloc, "all")
        .long("undefined")
        .action(ArgAction::SetTrue)
        .help(
            "Lists all undefined names, symbols that nothing sets, unused variables, and defaults of choices that are never visible",
        )
}

fn strict_option<'a>(alloc: Global, help: &'a str) -> Arg<'a> {
    Arg::new(alloc, "strict")
        .long("strict")
        .action(ArgAction::SetTrue)
        .help(help)
}

fn tree_option<'a>(alloc: Global) -> Arg<'a> {
    Arg::new(alloc, "tree")
        .long("tree")
        .action(ArgAction::SetTrue)
        .help("Makes --strict judge the findings of the Kconfig, too, not only those of CONFIG")
}

fn keep_option<'a>(alloc: Global) -> Arg<'a> {
    Arg::new(alloc, "keep")
        .long("keep")
        .action(ArgAction::SetTrue)
        .help(
            "Wants the values of the lines of CONFIG, too, that are lost otherwise, as far as there are lines that give them",
        )
}

fn no_help_option<'a>(alloc: Global) -> Arg<'a> {
    Arg::new(alloc, "no-help")
        .long("no-help")
        .action(ArgAction::SetTrue)
        .help("Writes no help texts")
}

fn kconfig_argument<'a>(alloc: Global) -> Arg<'a> {
    Arg::new(alloc, "KCONFIG")
        .required(true)
        .action(ArgAction::Set)
        .help(
            "The path of the top Kconfig file. It and the paths of 'source' lines are relative to the working folder",
        )
}

fn config_argument<'a>(alloc: Global) -> Arg<'a> {
    Arg::new(alloc, "CONFIG")
        .required(true)
        .action(ArgAction::Set)
        .help("The path of the .config whose values are loaded, or - for none")
}

/// The words after the files.
fn words_argument<'a>(alloc: Global, operands: Operands) -> Arg<'a> {
    let (name, help) = match operands {
        Operands::Nothing | Operands::Config => ("NAME=VALUE", VARIABLES_HELP),
        Operands::PerhapsConfig => ("CONFIG or NAME=VALUE", PERHAPS_CONFIG_HELP),
        Operands::ConfigAndSymbols => ("NAME or NAME=VALUE", SYMBOLS_HELP),
        Operands::ConfigAndFragments => ("FRAGMENT or NAME=VALUE", FRAGMENTS_HELP),
        Operands::ConfigAndWanted => ("WANTED or NAME=VALUE", WANTED_HELP),
    };
    Arg::new(alloc, "words")
        .value_name(name)
        .num_args(0..)
        .action(ArgAction::Append)
        .help(help)
}

const VARIABLES_HELP: &str =
    "Gives $(NAME) the text VALUE in the Kconfig. The environment is not read";

const PERHAPS_CONFIG_HELP: &str =
    "The path of the .config that is checked, if there is one, and variables of the Kconfig: NAME=VALUE gives $(NAME) the text VALUE";

const SYMBOLS_HELP: &str =
    "The names of symbols, and variables of the Kconfig: NAME=VALUE gives $(NAME) the text VALUE";

const FRAGMENTS_HELP: &str =
    "The paths of the fragments, and variables of the Kconfig: NAME=VALUE gives $(NAME) the text VALUE";

const WANTED_HELP: &str =
    "What is wanted, as CONFIG_NET=y or the path of a fragment, and variables of the Kconfig: NAME=VALUE gives $(NAME) the text VALUE";

fn variables_option<'a>(alloc: Global) -> Arg<'a> {
    Arg::new(alloc, "variables")
        .long("variables")
        .value_name("FILE")
        .action(ArgAction::Set)
        .help("Reads more NAME=VALUE from FILE, one on each line. The command line overrides them")
}

fn folder_option<'a>(alloc: Global) -> Arg<'a> {
    Arg::new(alloc, "folder")
        .short('C')
        .value_name("FOLDER")
        .action(ArgAction::Set)
        .help("Takes all relative paths from FOLDER instead of the working folder")
}

fn prefix_option<'a>(alloc: Global) -> Arg<'a> {
    Arg::new(alloc, "prefix")
        .long("prefix")
        .value_name("P")
        .action(ArgAction::Set)
        .default_value("CONFIG_")
        .help("What precedes the names of symbols in files: at most 64 ASCII letters, digits and _")
}

fn explain_option<'a>(alloc: Global, target: Target) -> Arg<'a> {
    let help = match target {
        Target::How =>
            "Shows the definitions of the symbols that are set, with the values of their conditions",
        _ if target.is_explained() => {
            "Changes nothing: this target always explains its warnings and errors"
        }
        _ => "Explains each warning and error, and shows the lines of the files that are at fault",
    };
    Arg::new(alloc, "explain")
        .long("explain")
        .action(ArgAction::SetTrue)
        .help(help)
}
