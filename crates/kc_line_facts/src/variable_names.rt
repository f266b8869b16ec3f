//! The names of the variables in the files of a Kconfig.

ghost use Rattle.std.specs.Prelude.{◌≡◌, ◌++◌, IfOk, OnOk};
ghost use Rattle.kc_text.specs.LineReferences.{lent_names};
ghost use Rattle.kc_line_facts.specs.VariableNames.{defined_names, names_of, used_names};

use crate::named_variables::NamedVariable;
use crate::read_order::VariableFile;
use std::alloc::{AllocError, Global};

/// Adds the names of variables.
fn push_names<'v>(
    names: &mut Vec<&'v str>,
    variables: &'v [NamedVariable],
) -> Result<(), AllocError>
    ensures { OnOk result (lent_names names.new.items ≡ lent_names names.old.items ++ names_of variables.entry.now) }
{
    for variable in variables {
        names.push(variable.name.as_str())?;
    }
    Ok(())
}

/// The names of the variables that the files define, file after file, each as often as it is defined.
///
/// # Errors
///
/// `AllocError` where memory is refused.
pub fn defined_names<'v>(
    alloc: Global,
    files: &'v [VariableFile<'_>],
) -> Result<Vec<&'v str>, AllocError>
    ensures { IfOk result (λ names. lent_names names.items ≡ defined_names files.entry.now) }
{
    let mut names = Vec::new(alloc);
    for file in files {
        push_names(&mut names, file.found.definitions.as_slice())?;
    }
    Ok(names)
}

/// The names of the variables to which the files refer, file after file, each as often as it is used.
///
/// # Errors
///
/// `AllocError` where memory is refused.
pub fn used_names<'v>(
    alloc: Global,
    files: &'v [VariableFile<'_>],
) -> Result<Vec<&'v str>, AllocError>
    ensures { IfOk result (λ names. lent_names names.items ≡ used_names files.entry.now) }
{
    let mut names = Vec::new(alloc);
    for file in files {
        push_names(&mut names, file.found.uses.as_slice())?;
    }
    Ok(names)
}
