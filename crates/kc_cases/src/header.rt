//! The headers of sections.

/// What is cut off.
#[derive(Clone, Copy)]
pub(crate) enum Subject {
    /// The Kconfig.
    Kconfig,
    /// The `.config`.
    Config,
    /// The commands.
    Commands,
}

/// What a section has.
#[derive(Clone, Copy)]
pub(crate) enum Kind<'a> {
    /// Lines of the file of this path.
    File(&'a str),
    /// Variables that are passed in, a line `NAME=VALUE` each.
    Variables,
    /// Commands.
    Commands,
    /// The replies to the commands before them.
    Replies,
    /// The fault of the Kconfig.
    Fault,
    /// The names of the nodes of its loop, in any order.
    Loop,
    /// The names of the nodes of its loop, in their order from any of them on.
    LoopInOrder,
    /// Rows with a text, and with what each of its beginnings gives.
    Cut(Subject),
    /// The standard input of the runs after it.
    Input,
    /// The standard output of a run of the program with these words.
    Run(&'a str),
    /// The last lines of the standard output of the run before it.
    LastLines,
    /// The standard error of the run before it.
    Errors,
    /// The standard error of the run before it, with the word `--explain` after its words.
    Explained,
    /// The status of the run before it.
    Status(u8),
}

/// The header of a section.
#[derive(Clone, Copy)]
pub(crate) struct Header<'a> {
    pub(crate) kind: Kind<'a>,
    /// Whether its lines have escapes.
    pub(crate) is_escaped: bool,
    /// How often its lines are repeated.
    pub(crate) times: Option<usize>,
}

impl<'a> Header<'a> {
    /// The header that a text spells: a kind, then perhaps `escaped`, then perhaps `N times`.
    pub(crate) fn parse(text: &'a str) -> Option<Header<'a>> {
        let (text, times) = without_times(text)?;
        let (text, is_escaped) = without_escaped(text);
        let kind = kind_of(text)?;
        Some(Header {
            kind,
            is_escaped,
            times,
        })
    }
}

/// A header without `N times` at its end, and the number.
fn without_times(text: &str) -> Option<(&str, Option<usize>)> {
    let Some(text) = text.strip_suffix(" times") else {
        return Some((text, None));
    };
    let (text, number) = text.rsplit_once(' ')?;
    match number.parse::<usize>() {
        Ok(times) => Some((text, Some(times))),
        Err(_) => None,
    }
}

/// A header without `escaped` at its end, and whether it was there.
fn without_escaped(text: &str) -> (&str, bool) {
    match text.strip_suffix(" escaped") {
        Some(text) => (text, true),
        None => (text, false),
    }
}

fn kind_of(text: &str) -> Option<Kind<'_>> {
    match text {
        "Kconfig" => Some(Kind::File("Kconfig")),
        "variables" => Some(Kind::Variables),
        "commands" => Some(Kind::Commands),
        "replies" => Some(Kind::Replies),
        "fault" => Some(Kind::Fault),
        "loop" => Some(Kind::Loop),
        "loop in order" => Some(Kind::LoopInOrder),
        "cut Kconfig" => Some(Kind::Cut(Subject::Kconfig)),
        "cut .config" => Some(Kind::Cut(Subject::Config)),
        "cut commands" => Some(Kind::Cut(Subject::Commands)),
        "input" => Some(Kind::Input),
        "last lines" => Some(Kind::LastLines),
        "errors" => Some(Kind::Errors),
        "explained" => Some(Kind::Explained),
        _ => longer_kind(text),
    }
}

/// The kind of a header `file PATH`, `run WORDS` or `status N`. A path has no spaces.
fn longer_kind(text: &str) -> Option<Kind<'_>> {
    let (word, rest) = text.split_once(' ').unwrap_or((text, ""));
    match word {
        "file" if !rest.is_empty() && !rest.contains(' ') => Some(Kind::File(rest)),
        "run" => Some(Kind::Run(rest)),
        "status" => match rest.parse::<u8>() {
            Ok(status) => Some(Kind::Status(status)),
            Err(_) => None,
        },
        _ => None,
    }
}
