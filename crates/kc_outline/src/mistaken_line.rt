//! The mistake of one line, by itself.

ghost use Rattle.std.specs.Prelude.{◌≡◌, Some, IfOk, IfErr, OnOk};
ghost use Rattle.kc_statement.specs.Keywords.{keyword_of};
ghost use Rattle.kc_statement.specs.LineParts.{SaysOnly};
ghost use Rattle.kc_outline.specs.ContextAfter.{HasRoom};
ghost use Rattle.kc_outline.specs.FormMistakes.{IsMistaken};
ghost use Rattle.kc_outline.specs.Reader.{IsSaidUnless};

use crate::context::Context;
use crate::outline::Outline;
use crate::stop::Stop;
use kc_statement::{Keyword, Mistake, Names, Seed, Statement, read_keyword};
use kc_text::Line;
use std::alloc::{AllocError, Global};

/// Adds a line of this keyword, whether or not it is in its place.
fn add_line(
    alloc: Global,
    outline: &mut Outline,
    context: &Context,
    line: &Line<'_>,
    keyword: Keyword,
) -> Result<(), Stop>
    requires keyword { keyword_of line.now ≡ Some keyword }
    requires room { HasRoom context.now }
    ensures says { OnOk result ((statement : Statement) × SaysOnly outline.old.names line.now statement) }
    ensures stop { IfErr result (IsSaidUnless outline.old.names line.now) }
{
    if outline.add_attribute(alloc, context, line, keyword)? {
        return Ok(());
    }
    outline.add_statement(alloc, context, line, keyword)?;
    Ok(())
}

/// The first place in which a line goes another way than the form of its keyword, if it does. That depends on no names
/// and on no other lines. A `source` line that was not followed has a mistake also where it is as it is to be: then
/// nothing is wanted where nothing is left.
pub fn form_mistake(alloc: Global, line: &Line<'_>) -> Result<Option<Mistake>, AllocError>
    ensures { (k : Keyword) → keyword_of line.now ≡ Some k → IfOk result (IsMistaken line.now) }
{
    let names = Names::with_capacity(alloc, Seed::fixed(), 0)?;
    let mut outline = Outline::new(alloc, names)?;
    let context = Context::new(alloc);
    let Some(keyword) = read_keyword(line) else {
        return Ok(None);
    };
    match add_line(alloc, &mut outline, &context, line, keyword) {
        Err(Stop::Form(mistake)) => Ok(Some(mistake)),
        Err(Stop::NoMemory) => Err(AllocError),
        Err(Stop::Problem(_)) => Ok(None),
        Ok(()) => Ok(None),
    }
}
