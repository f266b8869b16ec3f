//! The logical lines of a file, with those of the files that its `source` lines name in their place.

ghost use Rattle.std.specs.Prelude.{◌≡◌, ◌∷◌, [], IfOk, OnOk, ◌≤◌, length, false, true, IfSome, MatchOption, None, Some, Ok, IfErr, List};
ghost use Rattle.kc_text.specs.declared.line.LineKind.TheVariants.{Statement};
ghost use Rattle.kc_text.specs.LineContent.{help_of, kind_of, tokens_of};
ghost use Rattle.kc_text.specs.Reading.{end_of_file, nothing_read, statement, with_lines, at_place, file_read, item_read, logical_lines_of, source_path, with_names};
ghost use Rattle.kc_text.specs.Scanning.{place_of, state_of, item_of, joined_text, names_of, outside_of, placing};
ghost use Rattle.kc_text.specs.Faults.{GivesAfter, GivesBy, IsFaultAt};
ghost use Rattle.kc_text.specs.declared.fault.TextProblem.TheVariants.{MissingSource};
ghost use Rattle.kc_text.specs.Libraries.{StaysGiven, known_files};
ghost use Rattle.kc_text.specs.MoreFiles.{Extends, GivesOver, GivesOverBy};
ghost use Rattle.kc_text.specs.Definitions.{defined};
ghost use Rattle.kc_text.specs.Expansion.{is_among, then_on};
ghost use Rattle.kc_text.specs.Help.{is_help};
ghost use Rattle.kc_text.specs.Items.{ends_in_backslash};
ghost use Rattle.kc_text.specs.declared.items.Start.TheVariants.{Silent};
ghost use Rattle.kc_text.specs.Tokens.{ahead, line_tokens};
ghost use Rattle.kc_text.specs.Entries.{AreLines, HasOneReading, IsTextFault};
ghost use Rattle.kc_text.specs.FileList.{File};
ghost use Rattle.kc_text.specs.LinesFaults.{IsLinesFault};
ghost use Rattle.kc_text.specs.Names.{texts_in};
ghost use Rattle.kc_text.specs.ValueLaw.{ValueLaw};

use crate::expansion::Scope;
use crate::fault::{LinesFault, TextFault, TextProblem};
use crate::files::{Folder, MAX_BYTES, NoFolder, Sources, Texts};
use crate::help::{HelpText, HelpTokens};
use crate::items::{Front, Item, Joined, Start, ends_in_backslash, first_item};
use crate::lexer::{Begun, KeptTexts, begin, tokens};
use crate::line::{Content, HelpLine, Line, LineTokens, PlacedFile, Token};
use crate::place::Place;
use crate::text::TextRef;
use crate::variables::{Definition, Variables, Vars, define, definition_of};
use bumpalo::Bump;
use std::alloc::{AllocError, Global};

/// The smallest number of bytes for each logical line in most files.
const USUAL_LINE_BYTES: usize = 64;

/// The lines that were read so far, and the variables that they define.
#[derive(Drop)]
pub(crate) struct State<'a> {
    pub(crate) lines: Vec<Line<'a>>,
    pub(crate) variables: Variables,
    /// The texts of tokens, which the arena keeps.
    pub(crate) texts: KeptTexts<'a>,
    /// The tokens of a line, until the arena keeps them.
    pub(crate) gathered: Vec<Token<'a>, &'a Bump>,
    /// The tokens of `help` lines.
    pub(crate) help: HelpTokens<'a>,
    /// The number of `source` lines that were followed.
    pub(crate) followed: usize,
    /// The number of bytes that these have included so far.
    pub(crate) placed: usize,
}

impl<'a> State<'a> {
    /// The state before the first line, with room for the logical lines of a top file.
    pub(crate) fn with_room(
        alloc: Global,
        arena: &'a Bump,
        top: &str,
    ) -> Result<State<'a>, AllocError>
        ensures { IfOk result (λ s. state_of s ≡ nothing_read) }
    {
        let lines = Vec::with_capacity(alloc, top.len() / USUAL_LINE_BYTES + 1)?;
        Ok(State {
            lines,
            variables: Variables::new(alloc),
            texts: KeptTexts::new(alloc, arena),
            gathered: Vec::new(arena),
            help: HelpTokens::new(arena)?,
            followed: 0,
            placed: 0,
        })
    }

    /// Appends a line of these tokens, if there are any.
    pub(crate) fn push_statement(
        &mut self,
        arena: &'a Bump,
        place: Place<'a>,
        tokens: LineTokens<'a>,
        help: Option<HelpText<'a>>,
    ) -> Result<(), AllocError>
        ensures { OnOk result (state_of self.new ≡ with_lines (statement (place_of place.entry) tokens.entry help.entry) (state_of self.old)) }
    {
        if tokens.as_slice().is_empty() {
            return Ok(());
        }
        let content = content_of(arena, tokens, help)?;
        self.lines
            .push(Line::new(place.file, place.number, content))?;
        Ok(())
    }

    /// Appends the end of a file.
    pub(crate) fn push_end(&mut self, place: Place<'a>) -> Result<(), AllocError>
        ensures { OnOk result (state_of self.new ≡ with_lines (end_of_file (place_of place.entry) ∷ []) (state_of self.old)) }
    {
        let end = Line::new(place.file, place.number, Content::EndOfFile);
        self.lines.push(end)?;
        Ok(())
    }
}

/// The content of a line with tokens, and with the help text where it is a `help` line.
fn content_of<'a>(
    arena: &'a Bump,
    tokens: LineTokens<'a>,
    help: Option<HelpText<'a>>,
) -> Result<Content<'a>, AllocError>
    ensures kind { IfOk result (λ c. kind_of c ≡ Statement) }
    ensures tokens { IfOk result (λ c. tokens_of c ≡ tokens.entry) }
    ensures help { IfOk result (λ c. help_of c ≡ help.entry) }
{
    let Some(text) = help else {
        return Ok(Content::Statement(tokens));
    };
    match arena.try_alloc(HelpLine { tokens, text }) {
        Ok(line) => Ok(Content::Help(line)),
        Err(_) => Err(AllocError),
    }
}

/// The largest number of bytes of a logical line.
const MAX_LINE_BYTES: usize = 65_536;

/// The largest number of bytes that `source` lines may include.
const MAX_INCLUDED: usize = 16_777_216;

/// The largest number of `source` lines that are followed.
const MAX_FOLLOWED: usize = 4_096;

/// The largest number of logical lines. Each takes at least one byte of the top file or of a file that is included, but
/// for the end of the top file: the end of an included file takes the bytes of its `source` line.
pub const MOST_LINES: usize = MAX_BYTES + MAX_INCLUDED + 1;

/// The largest number of files that are open at once.
const MAX_OPEN: usize = 64;

/// The memory and the variables with which files are read.
#[derive(Clone, Copy)]
pub(crate) struct Reader<'a> {
    pub(crate) alloc: Global,
    /// The arena that keeps the tokens.
    pub(crate) arena: &'a Bump,
    pub(crate) vars: &'a Vars,
}

/// The text of an item, which the arena keeps where lines were joined.
fn kept_text<'a>(arena: &'a Bump, text: Joined<'a>) -> Result<&'a str, AllocError>
    ensures { IfOk result (λ line. line.now ≡ joined_text text.entry) }
{
    match text {
        Joined::One(line) => Ok(line),
        Joined::Many(text) => Ok(arena.try_alloc_str(text.as_str())?),
    }
}

/// The path that a `source` line names.
fn source_path<'b>(tokens: &'b [Token<'_>]) -> Option<&'b str>
    ensures { MatchOption result (source_path tokens.now ≡ None) (λ path. source_path tokens.now ≡ Some path.now) }
{
    let [first, second] = tokens else {
        return None;
    };
    match (first, second) {
        (Token::Word(word), Token::Quoted(path)) if word.as_str() == "source" => {
            Some(path.as_str())
        }
        _ => None,
    }
}

/// Whether a line is one of blanks or a comment, as short as it has to be and joined with no other: it changes nothing.
fn is_silent(front: Front<'_>) -> bool
    ensures start { result ≡ true → front.entry.start ≡ Silent }
    ensures short { result ≡ true → length front.entry.line.now ≤ 65536 }
    ensures alone { result ≡ true → ends_in_backslash front.entry.line.now ≡ false }
{
    matches!(front.start, Start::Silent)
        && front.line.len() <= MAX_LINE_BYTES
        && !ends_in_backslash(front.line)
}

/// Reads a file and appends its end after its lines. The paths `around` are those of the files that are open, this one
/// last.
#[cycle(read)]
fn read_file<'a, F: Folder>(
    reader: Reader<'a>,
    texts: &mut Texts<'a, F>,
    around: &mut Vec<&'a str>,
    file: &'a PlacedFile<'a>,
    text: &'a str,
    state: &mut State<'a>,
) -> Result<(), LinesFault<F::Fault>>
    requires { length around.old.items ≤ 64 }
    ensures reads { GivesOver result (state_of state.new) (known_files texts.new) (λ files. file_read (outside_of reader.entry) (placing files reader.entry around.old.items) file.now.path file.now.run text.now (state_of state.old)) }
    ensures kept { Extends (known_files texts.old) (known_files texts.new) }
    ensures given { StaysGiven texts.old texts.new }
    ensures around { OnOk result (around.new.items ≡ around.old.items) }
{
    let mut rest = text;
    let mut number = 1;
    while !rest.is_empty() {
        let front = Front::of(rest);
        if is_silent(front) {
            number += 1;
            rest = front.rest;
        } else {
            let item = first_item(reader.alloc, rest, front)?;
            let taken = item.more + 1;
            let after = item.rest;
            read_item(reader, texts, around, Place { file, number }, item, state)?;
            number += taken;
            rest = after;
        }
    }
    state.push_end(Place { file, number })?;
    Ok(())
}

/// Reads an item at a place.
#[cycle(read)]
fn read_item<'a, F: Folder>(
    reader: Reader<'a>,
    texts: &mut Texts<'a, F>,
    around: &mut Vec<&'a str>,
    place: Place<'a>,
    item: Item<'a>,
    state: &mut State<'a>,
) -> Result<(), LinesFault<F::Fault>>
    requires open { length around.old.items ≤ 64 }
    requires help { IfSome item.help (λ _. is_help (joined_text item.text) ≡ true) }
    ensures reads { GivesOver result (state_of state.new) (known_files texts.new) (λ files. item_read (outside_of reader.entry) (placing files reader.entry around.old.items) (place_of place.entry) (item_of item.entry) (state_of state.old)) }
    ensures kept { Extends (known_files texts.old) (known_files texts.new) }
    ensures given { StaysGiven texts.old texts.new }
    ensures around { OnOk result (around.new.items ≡ around.old.items) }
{
    let Item {
        text,
        help,
        more: _,
        rest: _,
    } = item;
    if text.as_str().len() > MAX_LINE_BYTES {
        return Err(LinesFault::Text(place.problem(reader.alloc, TextProblem::Limit)));
    }
    if help.is_some() {
        let tokens = state.help.of(text.as_str());
        return Ok(state.push_statement(reader.arena, place, tokens, help)?);
    }
    let line = kept_text(reader.arena, text)?;
    let begun = begin(&mut state.gathered, line)?;
    if begun.may_define {
        if let Some(definition) = definition_of(line) {
            return Ok(read_definition(reader, place, &definition, state)?);
        }
    }
    let tokens = read_tokens(reader, place, begun, state)?;
    match source_path(tokens.as_slice()) {
        Some(wanted) => include_file(reader, texts, around, place, wanted, state),
        None => Ok(state.push_statement(reader.arena, place, tokens, None)?),
    }
}

/// Reads a definition at a place.
fn read_definition<'a>(
    reader: Reader<'a>,
    place: Place<'a>,
    definition: &Definition<'_>,
    state: &mut State<'a>,
) -> Result<(), TextFault>
    ensures { GivesAfter result (state_of state.new) (then_on (at_place (place_of place.entry) (defined (outside_of reader.entry) (state_of state.old).names definition.now)) (λ names. Ok (with_names names (state_of state.old)))) }
{
    match define(reader.alloc, reader.vars, &mut state.variables, definition) {
        Ok(()) => Ok(()),
        Err(fault) => Err(place.fault(reader.alloc, fault)),
    }
}

/// The tokens of a line at a place.
fn read_tokens<'a>(
    reader: Reader<'a>,
    place: Place<'a>,
    begun: Begun<'a>,
    state: &mut State<'a>,
) -> Result<LineTokens<'a>, TextFault>
    requires shows { line_tokens (state_of state.old).names (outside_of reader) begun.line.now ≡ ahead state.old.gathered.items (line_tokens (state_of state.old).names (outside_of reader) begun.rest.now) }
    ensures reads { GivesBy (λ v. v) result (at_place (place_of place.entry) (line_tokens (state_of state.old).names (outside_of reader.entry) begun.entry.line.now)) }
    ensures state { state_of state.new ≡ state_of state.old }
{
    let scope = Scope {
        alloc: reader.alloc,
        variables: &state.variables,
        outside: reader.vars,
    };
    match tokens(scope, &mut state.texts, &mut state.gathered, begun) {
        Ok(tokens) => Ok(tokens),
        Err(fault) => Err(place.fault(reader.alloc, fault)),
    }
}

/// Whether a path is one of others.
fn is_among(wanted: &str, paths: &[&str]) -> bool
    ensures { result ≡ is_among wanted.now (names_of paths.now) }
{
    paths.iter().any(|path| *path == wanted)
}

/// The inclusion of a file, which the arena keeps.
fn kept_inclusion<'a>(
    arena: &'a Bump,
    path: &'a str,
    run: usize,
) -> Result<&'a PlacedFile<'a>, AllocError>
    ensures { IfOk result (λ f. f.now ≡ record { path = path.now; run = run }) }
{
    let path = TextRef::new(path);
    match arena.try_alloc(PlacedFile { path, run }) {
        Ok(file) => Ok(file),
        Err(_) => Err(AllocError),
    }
}

/// Includes the file of a path where a `source` line names it. The paths `around` are those of the files that are open.
#[cycle(read)]
fn include_file<'a, F: Folder>(
    reader: Reader<'a>,
    texts: &mut Texts<'a, F>,
    around: &mut Vec<&'a str>,
    place: Place<'a>,
    wanted: &str,
    state: &mut State<'a>,
) -> Result<(), LinesFault<F::Fault>>
    requires { length around.old.items ≤ 64 }
    ensures reads { GivesOver result (state_of state.new) (known_files texts.new) (λ files. placing files reader.entry around.old.items (place_of place.entry) wanted.now (state_of state.old)) }
    ensures kept { Extends (known_files texts.old) (known_files texts.new) }
    ensures given { StaysGiven texts.old texts.new }
    ensures around { OnOk result (around.new.items ≡ around.old.items) }
{
    if is_among(wanted, around.as_slice()) {
        let fault = place.problem(reader.alloc, TextProblem::RecursiveSource);
        return Err(LinesFault::Text(fault));
    }
    if around.len() >= MAX_OPEN || state.followed >= MAX_FOLLOWED {
        let fault = place.problem(reader.alloc, TextProblem::Limit);
        return Err(LinesFault::Text(fault));
    }
    let (path, text) = match texts.text(wanted) {
        Ok(Some(file)) => file,
        Ok(None) => {
            let missing = place.missing_source(reader.alloc, wanted);
            return Err(LinesFault::Text(missing));
        }
        Err(why) => {
            let missing = place.missing_source(reader.alloc, wanted);
            return Err(LinesFault::Stopped(why, missing));
        }
    };
    if text.len() > MAX_INCLUDED || state.placed > MAX_INCLUDED - text.len() {
        let fault = place.problem(reader.alloc, TextProblem::Limit);
        return Err(LinesFault::Text(fault));
    }
    state.followed += 1;
    state.placed += text.len();
    let run = state.followed;
    around.push(path)?;
    let file = kept_inclusion(reader.arena, path, run)?;
    read_file(reader, texts, around, file, text, state)?;
    around.pop();
    Ok(())
}

/// The fault that a top file is not among the sources.
fn missing_top(alloc: Global, top: &str) -> TextFault
    ensures { IsFaultAt result (MissingSource top.now) top.now 0 }
{
    let nowhere = Place {
        file: &PlacedFile {
            path: TextRef::new(top),
            run: 0,
        },
        number: 0,
    };
    nowhere.missing_source(alloc, top)
}

/// The logical lines of the top file and of all files that it sources.
pub(crate) fn read_top<'a, F: Folder>(
    reader: Reader<'a>,
    texts: &mut Texts<'a, F>,
    top: &str,
) -> Result<Vec<Line<'a>>, LinesFault<F::Fault>>
    ensures few { IfOk result (λ lines. length lines.items ≤ MOST_LINES) }
    ensures gives { GivesOverBy (λ v. v.items) result (known_files texts.new) (λ files. logical_lines_of files (outside_of reader.entry) top.now) }
    ensures kept { Extends (known_files texts.old) (known_files texts.new) }
    ensures given { StaysGiven texts.old texts.new }
{
    let (path, text) = match texts.text(top) {
        Ok(Some(file)) => file,
        Ok(None) => return Err(LinesFault::Text(missing_top(reader.alloc, top))),
        Err(why) => return Err(LinesFault::Stopped(why, missing_top(reader.alloc, top))),
    };
    let mut state = State::with_room(reader.alloc, reader.arena, text)?;
    let mut around = Vec::new(reader.alloc);
    around.push(path)?;
    let file = kept_inclusion(reader.arena, path, 0)?;
    read_file(reader, texts, &mut around, file, text, &mut state)?;
    Ok(state.lines)
}

/// The logical lines of a top file and of all files that it sources, each with its tokens.
///
/// A line that ends in a backslash is joined with the next one. A line without tokens, as one of blanks or a
/// comment, and one that defines a variable are none. A line `help` has its help text. A `source` line includes its
/// file: the lines of that are in its place. The end of a file is after the lines of each. There are [`MOST_LINES`]
/// lines at most.
///
/// The first fault in the order of lines decides, with the path of the file and the number of the line: a limit
/// that is passed (K01), a character that is not allowed where it is (K02), a quote that its line does not close
/// (K03), a file that is not among the sources (K08) or within itself (K09), a dollar that begins no reference to
/// a variable (K10), a variable that its own expansion needs (K11). On one line the length comes first, then
/// faults go from left to right. A top file that is not among the sources is K08 at line 0. `NoMemory` comes where
/// memory is refused.
///
/// The arena keeps the tokens, so it has to be there as long as the lines.
pub fn logical_lines<'a>(
    alloc: Global,
    arena: &'a Bump,
    sources: &'a Sources,
    vars: &'a Vars,
    top: &str,
) -> Result<Vec<Line<'a>>, TextFault>
    ensures few { IfOk result (λ lines. length lines.items ≤ MOST_LINES) }
    ensures are { IfOk result (λ lines. AreLines sources.now (texts_in vars.now) top.now lines.items) }
    ensures fault { IfErr result (IsTextFault sources.now (texts_in vars.now) top.now) }
    ensures one { HasOneReading sources.now (texts_in vars.now) top.now }
    ensures values { ValueLaw }
{
    given_lines(Reader { alloc, arena, vars }, sources, top)
}

/// The logical lines where all texts are there from the start.
fn given_lines<'a>(
    reader: Reader<'a>,
    sources: &'a Sources,
    top: &str,
) -> Result<Vec<Line<'a>>, TextFault>
    ensures few { IfOk result (λ lines. length lines.items ≤ MOST_LINES) }
    ensures gives { GivesBy (λ v. v.items) result (logical_lines_of sources.now (outside_of reader.entry) top.now) }
{
    let mut texts: Texts<'a, NoFolder> = Texts::Given(sources);
    match read_top(reader, &mut texts, top) {
        Ok(lines) => Ok(lines),
        Err(LinesFault::Text(fault)) => Err(fault),
        Err(LinesFault::Stopped(_, missing)) => Err(missing),
    }
}

/// The logical lines of a top file and of all files that it sources, as [`logical_lines`] gives them, where the texts
/// of files are read as they are asked for: that of the top file, and then that of each file when its `source` line
/// comes and it is not known.
///
/// The lines are those of the files that are known after that, and of these with any files more. Where the text of a
/// file is not there, this is `Stopped`, and the fault that the file is missing is the first fault of the files that
/// are known.
pub fn lines_from<'a, F: Folder>(
    alloc: Global,
    arena: &'a Bump,
    texts: &mut Texts<'a, F>,
    vars: &'a Vars,
    top: &str,
) -> Result<Vec<Line<'a>>, LinesFault<F::Fault>>
    ensures few { IfOk result (λ lines. length lines.items ≤ MOST_LINES) }
    ensures are { IfOk result (λ lines. (more : List File) → Extends (known_files texts.new) more → AreLines more (texts_in vars.now) top.now lines.items) }
    ensures fault { IfErr result (IsLinesFault (known_files texts.new) (texts_in vars.now) top.now) }
    ensures kept { Extends (known_files texts.old) (known_files texts.new) }
    ensures given { StaysGiven texts.old texts.new }
{
    read_top(Reader { alloc, arena, vars }, texts, top)
}
