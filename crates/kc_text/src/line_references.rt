//! The variables to which a line and the text of a variable refer.

ghost use Rattle.std.specs.Prelude.{◌≡◌, ◌++◌, IfOk, OnOk};
ghost use Rattle.kc_text.specs.LineReferences.{AreReferences, lent_names, names_in_pieces, token_names, value_references};
ghost use Rattle.kc_text.specs.Scanning.{piece_of, pieces_of, raw_of};

use crate::expansion::{Piece, plain_len, value_piece};
use crate::lexer::{RawToken, next_token};
use std::alloc::{AllocError, Global};

/// Adds the name in a part, if that is a reference.
fn push_piece<'t>(names: &mut Vec<&'t str>, piece: &Piece<'t>) -> Result<(), AllocError>
    ensures { OnOk result (lent_names names.new.items ≡ lent_names names.old.items ++ names_in_pieces (piece_of piece.now)) }
{
    match piece {
        Piece::Text(_) => Ok(()),
        Piece::Reference(name) => {
            names.push(*name)?;
            Ok(())
        }
        Piece::Malformed => Ok(()),
    }
}

/// Adds the names in the references among parts.
fn push_pieces<'t>(names: &mut Vec<&'t str>, pieces: &[Piece<'t>]) -> Result<(), AllocError>
    ensures { OnOk result (lent_names names.new.items ≡ lent_names names.old.items ++ names_in_pieces (pieces_of pieces.now)) }
{
    for piece in pieces {
        push_piece(names, piece)?;
    }
    Ok(())
}

/// Adds the names in the references of a token.
fn push_token<'t>(names: &mut Vec<&'t str>, token: &RawToken<'t>) -> Result<(), AllocError>
    ensures { OnOk result (lent_names names.new.items ≡ lent_names names.old.items ++ token_names (raw_of token.now)) }
{
    match token {
        RawToken::Word(_) => Ok(()),
        RawToken::Spliced(pieces) => push_pieces(names, pieces.as_slice()),
        RawToken::Quoted(_) => Ok(()),
        RawToken::QuotedParts(pieces) => push_pieces(names, pieces.as_slice()),
        RawToken::Operator(_) => Ok(()),
        RawToken::Unclosed(pieces) => push_pieces(names, pieces.as_slice()),
        RawToken::NotAllowed => Ok(()),
    }
}

/// The names of the variables to which a logical line refers that is no definition of one, in their order
/// (kconfig-macro-language.rst, "Variables"). There are none in a comment, after a backslash in quotes, and after what the
/// line is not read past (`stop_in`).
///
/// # Errors
///
/// `AllocError` where memory is refused.
pub fn references_in<'t>(alloc: Global, line: &'t str) -> Result<Vec<&'t str>, AllocError>
    ensures { IfOk result (λ names. AreReferences line.now (lent_names names.items)) }
{
    let mut names = Vec::new(alloc);
    if plain_len(line) == line.len() {
        return Ok(names);
    }
    let mut rest = line;
    while let Some((token, after)) = next_token(alloc, rest)? {
        push_token(&mut names, &token)?;
        rest = after;
    }
    Ok(names)
}

/// The names of the variables to which the value of a variable's definition refers, in their order, up to its first dollar
/// that begins no reference (`stop_in_value`).
///
/// # Errors
///
/// `AllocError` where memory is refused.
pub fn value_references_in<'t>(alloc: Global, value: &'t str) -> Result<Vec<&'t str>, AllocError>
    ensures { IfOk result (λ names. lent_names names.items ≡ value_references value.now) }
{
    let mut names = Vec::new(alloc);
    let mut rest = value;
    while let Some((piece, after)) = value_piece(rest) {
        push_piece(&mut names, &piece)?;
        rest = after;
    }
    Ok(names)
}
