//! What the body of a load gives a tree.
ghost use Rattle.std.specs.Prelude.{◌≡◌, ◌++◌, All, IfOk, IfErr, OnOk, true};
ghost use Rattle.std.specs.String.{string_bytes};
ghost use Rattle.kc_files.specs.LineReading.{IsAssignFor, IsUnfed};
ghost use Rattle.kc_files.specs.OneReading.{assigns_in, warnings_in};
ghost use Rattle.kc_session.specs.Bodies.{fits_body, warning_line, warnings_text, IsReadRefusal};

use crate::body::fits_body;
use crate::command::Refusal;
use kc_files::{Assign, Prefix, Warning, read_config};
use kc_tree::Tree;
use std::alloc::{AllocError, Global};

/// The assignments of a body that count, and its warnings. No value that is read has a line feed.
///
/// # Errors
///
/// `Refusal::TooLong` exactly where the body or a line of it is too long, `Refusal::NoMemory` where memory was refused.
pub(crate) fn read_body(
    alloc: Global,
    tree: &Tree,
    prefix: &Prefix,
    body: &[u8],
) -> Result<(Vec<Assign>, Vec<Warning>), Refusal>
    ensures fits { IfOk result (λ r. fits_body body.now ≡ true) }
    ensures assigns { IfOk result (λ r. r.0.items ≡ assigns_in tree.now prefix.now body.now) }
    ensures fitting { IfOk result (λ r. All (IsAssignFor tree.now) r.0.items) }
    ensures unfed { IfOk result (λ r. All IsUnfed r.0.items) }
    ensures warnings { IfOk result (λ r. r.1.items ≡ warnings_in tree.now prefix.now body.now) }
    ensures refusal { IfErr result (IsReadRefusal body.now) }
{
    if !fits_body(body) {
        return Err(Refusal::TooLong);
    }
    match read_config(alloc, tree, prefix, body) {
        Ok(reading) => Ok(reading),
        Err(_) => Err(Refusal::NoMemory),
    }
}

/// Appends the line about a warning.
fn push_warning(text: &mut String, warning: Warning) -> Result<(), AllocError>
    ensures { OnOk result (string_bytes text.new ≡ string_bytes text.old ++ warning_line warning) }
{
    let number = warning.kind.number();
    let line = warning.line;
    writeln!(text, "warning {line} {number}")
}

/// The lines about warnings, in their order.
pub(crate) fn warnings_text(alloc: Global, warnings: &[Warning]) -> Result<String, AllocError>
    ensures { IfOk result (λ text. string_bytes text ≡ warnings_text warnings.now) }
{
    let mut text = String::new(alloc);
    for warning in warnings {
        push_warning(&mut text, *warning)?;
    }
    Ok(text)
}
