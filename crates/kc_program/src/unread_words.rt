//! What the program answers where the words of its command line cannot be read.
ghost use Rattle.std.specs.Prelude.{◌≡◌};
ghost use Rattle.std.specs.IoError.{error_kind};
ghost use Rattle.kc_program.specs.UnreadWords.{ending_without_words};

use crate::messages::{Fault, Report, Status, write_report};
use kc_command_line::Wording;
use std::io::{self, ErrorKind, Write};

/// How the program ends where its words cannot be read: one that is not UTF-8 is a mistake of usage.
fn ending_without_words(error: &io::Error) -> Status
    ensures { result ≡ ending_without_words (error_kind error.now) }
{
    match error.kind() {
        ErrorKind::OutOfMemory => Status::Fault,
        _ => Status::Usage,
    }
}

/// Ends the program where its words cannot be read, and reports why on `errors`. Where `errors` cannot be written, what it
/// lacks changes nothing else.
pub fn answer_unread<E: Write>(error: &io::Error, errors: &mut E) -> Status
    ensures { result ≡ ending_without_words (error_kind error.now) }
{
    let status = ending_without_words(error);
    let _ = match status {
        Status::Fault => write_report(errors, &Report::of(Fault::NoMemory, Wording::Number)),
        _ => writeln!(errors, "error: a word of the command line is not UTF-8"),
    };
    status
}
