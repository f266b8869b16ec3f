//! From the text of a line to what it asks for.
ghost use Rattle.std.specs.Prelude.{◌≡◌, IfNone, IfSome, false, true};
ghost use Rattle.std.specs.Option.{option_copied};
ghost use Rattle.kc_session.specs.Commands.{request_of, request_in, request_word, request_with, request_with_argument, load_request, line_count, lines_asked, load_command, request_of_text, command_word, is_parted, word_before, rest_after};

use crate::body::Body;
use crate::command::{Command, Refusal};
use kc_files::Load;
use kc_statement::digits_up_to;
use kc_text::TextRef;
use std::str;

/// The most lines that a body has.
const MOST_LINES: u64 = 9_999_999;

/// The most digits of the count of these lines.
const MOST_DIGITS: usize = 7;

/// What a line asks for.
#[derive(Drop)]
pub(crate) enum Request<'a> {
    /// A command that is this line.
    Whole(Command<'a>),
    /// A load whose body is this many of the next lines.
    WithBody(Load, u64),
}

/// The command that loads a body.
pub(crate) fn load_command(load: Load, body: &[u8]) -> Command<'_>
    ensures { result ≡ load_command load body.now }
{
    match load {
        Load::Replace => Command::Load(Body::new(body)),
        Load::Merge => Command::Merge(Body::new(body)),
    }
}

/// How many lines after a line are its body: none where the line is refused, or is no load.
pub(crate) fn body_lines(request: &Result<Request<'_>, Refusal>) -> u64
    ensures { result ≡ lines_asked request.now }
{
    match request {
        Ok(Request::WithBody(_, count)) => *count,
        Ok(Request::Whole(_)) | Err(_) => 0,
    }
}

/// What a line asks for, or why it is refused. A line that is too long has no text.
pub(crate) fn read_request(text: Option<&[u8]>) -> Result<Request<'_>, Refusal>
    ensures { result ≡ request_of_text (option_copied text.entry) }
{
    match text {
        Some(text) => read_bytes(text),
        None => Err(Refusal::TooLong),
    }
}

/// What the text of a line asks for, or why the line is refused.
#[tactic(auto, unfolding(crate::specs::Commands::request_of), using(crate::proofs::Texts::text_facts))]
fn read_bytes(text: &[u8]) -> Result<Request<'_>, Refusal>
    ensures { result ≡ request_of text.now }
{
    match str::from_utf8(text) {
        Ok(text) => read_text(text),
        Err(_) => Err(Refusal::UnknownCommand),
    }
}

/// A text in two parts, round its first space.
fn split_word(text: &str) -> Option<(&str, &str)>
    ensures none { IfNone result (is_parted text.now ≡ false) }
    ensures some { IfSome result (λ parts. is_parted text.now ≡ true) }
    ensures word { IfSome result (λ parts. parts.0.now ≡ word_before text.now) }
    ensures rest { IfSome result (λ parts. parts.1.now ≡ rest_after text.now) }
{
    text.split_once(' ')
}

fn read_text(text: &str) -> Result<Request<'_>, Refusal>
    ensures { result ≡ request_in text.now }
{
    match split_word(text) {
        Some((word, rest)) => read_words(word, rest),
        None => read_one_word(text),
    }
}

fn read_one_word(text: &str) -> Result<Request<'_>, Refusal>
    ensures { result ≡ request_word text.now }
{
    match read_word(text) {
        Some(command) => Ok(Request::Whole(command)),
        None => Err(Refusal::UnknownCommand),
    }
}

/// The command that one word spells.
fn read_word(text: &str) -> Option<Command<'_>>
    ensures { result ≡ command_word text.now }
{
    match text {
        "config" => Some(Command::Config),
        "list" => Some(Command::List),
        "choices" => Some(Command::Choices),
        "reset" => Some(Command::Reset),
        "allno" => Some(Command::AllNo),
        "allyes" => Some(Command::AllYes),
        "header" => Some(Command::Header),
        "defconfig" => Some(Command::Defconfig),
        "new" => Some(Command::New),
        _ => None,
    }
}

/// What a first word and the rest of its line ask for.
fn read_words<'a>(word: &str, rest: &'a str) -> Result<Request<'a>, Refusal>
    ensures { result ≡ request_with word.now rest.entry.now }
{
    let parts = split_word(rest);
    if word == "set" {
        return match parts {
            Some((name, value)) => Ok(Request::Whole(Command::Set(
                TextRef::new(name),
                TextRef::new(value),
            ))),
            None => Err(Refusal::UnknownCommand),
        };
    }
    if parts.is_some() {
        return Err(Refusal::UnknownCommand);
    }
    read_with_argument(word, rest)
}

/// What a first word and its only argument ask for.
fn read_with_argument<'a>(word: &str, argument: &'a str) -> Result<Request<'a>, Refusal>
    ensures { result ≡ request_with_argument word.now argument.entry.now }
{
    match word {
        "unset" => Ok(Request::Whole(Command::Unset(TextRef::new(argument)))),
        "show" => Ok(Request::Whole(Command::Show(TextRef::new(argument)))),
        "load" => read_load(Load::Replace, argument),
        "merge" => read_load(Load::Merge, argument),
        _ => Err(Refusal::UnknownCommand),
    }
}

/// A load of as many lines as a text says.
fn read_load<'a>(load: Load, count: &str) -> Result<Request<'a>, Refusal>
    ensures { result ≡ load_request load count.now }
{
    match line_count(count) {
        Some(count) => Ok(Request::WithBody(load, count)),
        None => Err(Refusal::BadLineCount),
    }
}

/// The number that one to seven decimal digits spell.
fn line_count(text: &str) -> Option<u64>
    ensures { result ≡ line_count text.now }
{
    if text.len() > MOST_DIGITS {
        return None;
    }
    digits_up_to(MOST_LINES, text)
}
