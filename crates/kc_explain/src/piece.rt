//! Messages as rows of pieces: texts, and slots that are filled with what a message is about.

ghost use Rattle.std.specs.Prelude.{◌≡◌, ◌++◌, IfOk, OnOk};
ghost use Rattle.std.specs.List.{flat_map};
ghost use Rattle.std.specs.String.{string_bytes};
ghost use Rattle.kc_explain.specs.Messages.{piece_text, slot_text};

use std::alloc::{AllocError, Global};

/// A place in a message that is filled.
#[derive(Clone, Copy)]
pub(crate) enum Slot {
    /// A symbol, or a name in a `.config`.
    Name,
    /// The other symbol, condition or type.
    Other,
    /// What something is: a type or a word of a form, with its article where it has one.
    Kind,
    /// A word, as a rule the first of a line.
    Word,
    /// Tokens or a text, as they are quoted.
    Text,
    /// A value, as it is written.
    Value,
    /// What a form wants.
    Wanted,
    /// How a line is to be written.
    Form,
    /// Where a character is.
    Place,
    /// Several things, with commas between them.
    List,
    /// The prefix of names in a `.config`.
    Prefix,
    /// The path of a file.
    Path,
    /// The number of a line in its file.
    Line,
    /// A count, a limit or a column.
    Number,
    /// A second count.
    Second,
}

/// A part of a message.
#[derive(Clone, Copy)]
pub(crate) enum Piece {
    /// It is always the same.
    Text(&'static str),
    /// It is what fills the slot.
    Filled(Slot),
}

/// What fills the slots of a message: an empty text or a 0 where the message has no such slot.
#[derive(Clone, Copy, Default)]
pub(crate) struct Texts<'t> {
    pub name: &'t str,
    pub other: &'t str,
    pub kind: &'t str,
    pub word: &'t str,
    pub text: &'t str,
    pub value: &'t str,
    pub wanted: &'t str,
    pub form: &'t str,
    pub place: &'t str,
    pub list: &'t str,
    pub prefix: &'t str,
    pub path: &'t str,
    pub line: usize,
    pub number: usize,
    pub second: usize,
}

/// What fills the slots of these names, and perhaps what others have for the rest.
macro_rules! texts {
    ($($slot:ident: $text:expr),*) => {
        $crate::piece::texts!($($slot: $text,)* ..$crate::piece::Texts::default())
    };
    ($($slot:ident: $text:expr,)* ..$rest:expr) => {
        $crate::piece::Texts { $($slot: $text,)* ..$rest }
    };
}

pub(crate) use texts;

/// The words of a message: its pieces one after the other, each slot filled.
///
/// # Errors
///
/// `AllocError` where memory is refused.
pub(crate) fn words_of(
    alloc: Global,
    pieces: &[Piece],
    texts: &Texts<'_>,
) -> Result<String, AllocError>
    ensures { IfOk result (λ words. string_bytes words ≡ flat_map (piece_text texts.now) pieces.now) }
{
    let mut words = String::new(alloc);
    for piece in pieces {
        match piece {
            Piece::Text(text) => words.push_str(text)?,
            Piece::Filled(slot) => push_slot(&mut words, *slot, texts)?,
        }
    }
    Ok(words)
}

/// Adds what fills a slot.
fn push_slot(words: &mut String, slot: Slot, texts: &Texts<'_>) -> Result<(), AllocError>
    ensures { OnOk result (string_bytes words.new ≡ string_bytes words.old ++ slot_text texts.now slot) }
{
    match slot {
        Slot::Name => words.push_str(texts.name),
        Slot::Other => words.push_str(texts.other),
        Slot::Kind => words.push_str(texts.kind),
        Slot::Word => words.push_str(texts.word),
        Slot::Text => words.push_str(texts.text),
        Slot::Value => words.push_str(texts.value),
        Slot::Wanted => words.push_str(texts.wanted),
        Slot::Form => words.push_str(texts.form),
        Slot::Place => words.push_str(texts.place),
        Slot::List => words.push_str(texts.list),
        Slot::Prefix => words.push_str(texts.prefix),
        Slot::Path => words.push_str(texts.path),
        Slot::Line => write!(words, "{}", texts.line),
        Slot::Number => write!(words, "{}", texts.number),
        Slot::Second => write!(words, "{}", texts.second),
    }
}
