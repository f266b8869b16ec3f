//! The variables to which the files of a Kconfig refer, and those that they define.

ghost use Rattle.std.specs.Prelude.{◌≡◌, ◌++◌, IfOk, OnOk, filter_map, map, option_map, option_to_list, slice_get};
ghost use Rattle.std.specs.List.{AllZip};
ghost use Rattle.kc_text.specs.LineReferences.{lent_names};
ghost use Rattle.kc_check.specs.CheckReport.{IsFileOf};
ghost use Rattle.kc_check.specs.UnusedVariables.{about, about_definition, about_definitions, about_exchanged, about_lent, about_name, about_nameless, about_variable, unused_definitions, unused_given};

use crate::finding::Finding;
use crate::inputs::SourceText;
use kc_line_facts::{
    NamedVariable, VariableFile, defined_names, file_variables, fresh_names, used_names,
};
use std::alloc::{AllocError, Global};

/// A definition of a variable, by the path of its file.
#[derive(Clone, Copy)]
struct Definition<'p, 'v> {
    path: &'p str,
    variable: &'v NamedVariable,
}

/// The variables of the files of a Kconfig, in the order in which these were passed in.
#[derive(Drop)]
pub(crate) struct Variables<'i> {
    files: Vec<VariableFile<'i>>,
}

impl<'i> Variables<'i> {
    /// Those of files.
    ///
    /// # Errors
    ///
    /// `AllocError` where memory is refused.
    pub fn of(alloc: Global, sources: &[SourceText<'i>]) -> Result<Variables<'i>, AllocError>
        ensures { IfOk result (λ v. AllZip IsFileOf sources.entry.now v.files.items) }
    {
        let mut files = Vec::with_capacity(alloc, sources.len())?;
        for source in sources {
            files.push(variables_of(alloc, source)?)?;
        }
        Ok(Variables { files })
    }

    /// The files.
    pub fn files(&self) -> &[VariableFile<'i>]
        ensures { result.now ≡ self.now.files.items }
    {
        self.files.as_slice()
    }

    /// Adds the given variables that are used nowhere, each once.
    ///
    /// # Errors
    ///
    /// `AllocError` where memory is refused.
    pub fn add_unused(
        &self,
        alloc: Global,
        given: &[&str],
        found: &mut Vec<Finding>,
    ) -> Result<(), AllocError>
        ensures { OnOk result (map about found.new.items ≡ map about found.old.items ++ unused_given self.now.files.items (lent_names given.now)) }
    {
        let files = self.files();
        let used = used_names(alloc, files)?;
        let places = fresh_names(alloc, given, used.as_slice())?;
        add_given(alloc, given, places.as_slice(), found)
    }

    /// Adds that a Kconfig which defines no symbol defines variables, as a `.config` does that is read as a Kconfig.
    ///
    /// # Errors
    ///
    /// `AllocError` where memory is refused.
    pub fn add_exchanged(&self, alloc: Global, found: &mut Vec<Finding>) -> Result<(), AllocError>
        ensures { OnOk result (map about found.new.items ≡ map about found.old.items ++ about_exchanged self.now.files.items) }
    {
        let definitions = definitions_in(alloc, self.files())?;
        let finding = first_exchanged(alloc, definitions.as_slice())?;
        push_some(found, finding)
    }

    /// Adds the variables that the files define and no line refers to, each at its first definition.
    ///
    /// # Errors
    ///
    /// `AllocError` where memory is refused.
    pub fn add_unused_definitions(
        &self,
        alloc: Global,
        found: &mut Vec<Finding>,
    ) -> Result<(), AllocError>
        ensures { OnOk result (map about found.new.items ≡ map about found.old.items ++ unused_definitions self.now.files.items) }
    {
        let files = self.files();
        let used = used_names(alloc, files)?;
        let names = defined_names(alloc, files)?;
        let definitions = definitions_in(alloc, files)?;
        let places = fresh_names(alloc, names.as_slice(), used.as_slice())?;
        add_defined(alloc, definitions.as_slice(), places.as_slice(), found)
    }
}

/// The variables of a file.
fn variables_of<'i>(alloc: Global, source: &SourceText<'i>) -> Result<VariableFile<'i>, AllocError>
    ensures { IfOk result (λ file. IsFileOf source.entry.now file) }
{
    let found = file_variables(alloc, source.text)?;
    Ok(VariableFile {
        path: source.path,
        found,
    })
}

/// Adds a finding, if there is one.
fn push_some(found: &mut Vec<Finding>, finding: Option<Finding>) -> Result<(), AllocError>
    ensures { OnOk result (map about found.new.items ≡ map about found.old.items ++ option_to_list (option_map about finding)) }
{
    if let Some(finding) = finding {
        found.push(finding)?;
    }
    Ok(())
}

/// That a definition is in a Kconfig that defines no symbol.
fn exchanged(alloc: Global, definition: &Definition<'_, '_>) -> Result<Finding, AllocError>
    ensures { IfOk result (λ f. about f ≡ about_nameless definition.now) }
{
    let words = String::from_str(alloc, "defines no symbol: is it a .config?")?;
    Finding::in_line(alloc, definition.path, definition.variable.line, "", words)
}

/// That a variable is given and used nowhere.
fn unused(alloc: Global, name: &str) -> Result<Finding, AllocError>
    ensures { IfOk result (λ f. about f ≡ about_name name.now) }
{
    let words = String::from_str(alloc, "given, and used nowhere")?;
    Finding::of_name(alloc, name, words)
}

/// That the variable of a definition is used nowhere.
fn unused_definition(alloc: Global, definition: &Definition<'_, '_>) -> Result<Finding, AllocError>
    ensures { IfOk result (λ f. about f ≡ about_definition definition.now) }
{
    let words = String::from_str(alloc, "defined, and used nowhere")?;
    let variable = definition.variable;
    Finding::in_line(
        alloc,
        definition.path,
        variable.line,
        variable.name.as_str(),
        words,
    )
}

/// That a variable is given and used nowhere, by the place of its name among those that were given.
fn unused_at(alloc: Global, given: &[&str], place: usize) -> Result<Option<Finding>, AllocError>
    ensures { IfOk result (λ o. option_map about o ≡ option_map about_lent (slice_get given.now place)) }
{
    match given.get(place) {
        Some(name) => Ok(Some(unused(alloc, *name)?)),
        None => Ok(None),
    }
}

/// That a variable is defined and used nowhere, by the place of its definition.
fn unused_definition_at(
    alloc: Global,
    definitions: &[Definition<'_, '_>],
    place: usize,
) -> Result<Option<Finding>, AllocError>
    ensures { IfOk result (λ o. option_map about o ≡ option_map about_definition (slice_get definitions.now place)) }
{
    match definitions.get(place) {
        Some(definition) => Ok(Some(unused_definition(alloc, definition)?)),
        None => Ok(None),
    }
}

/// That the first of definitions, if there is one, is in a Kconfig that defines no symbol.
fn first_exchanged(
    alloc: Global,
    definitions: &[Definition<'_, '_>],
) -> Result<Option<Finding>, AllocError>
    ensures { IfOk result (λ o. option_map about o ≡ option_map about_nameless (slice_get definitions.now 0)) }
{
    match definitions.get(0) {
        Some(first) => Ok(Some(exchanged(alloc, first)?)),
        None => Ok(None),
    }
}

/// Adds that variables are given and used nowhere, by these places.
fn add_given(
    alloc: Global,
    given: &[&str],
    places: &[usize],
    found: &mut Vec<Finding>,
) -> Result<(), AllocError>
    ensures { OnOk result (map about found.new.items ≡ map about found.old.items ++ filter_map (λ k. option_map about_lent (slice_get given.now k)) places.now) }
{
    for place in places {
        let finding = unused_at(alloc, given, *place)?;
        push_some(found, finding)?;
    }
    Ok(())
}

/// Adds the definitions in a file.
fn push_definitions<'p, 'v>(
    definitions: &mut Vec<Definition<'p, 'v>>,
    path: &'p str,
    variables: &'v [NamedVariable],
) -> Result<(), AllocError>
    ensures { OnOk result (map about_definition definitions.new.items
        ≡ map about_definition definitions.old.items ++ map (about_variable path.entry.now) variables.entry.now) }
{
    for variable in variables {
        definitions.push(Definition { path, variable })?;
    }
    Ok(())
}

/// The definitions in files.
fn definitions_in<'v, 'i>(
    alloc: Global,
    files: &'v [VariableFile<'i>],
) -> Result<Vec<Definition<'i, 'v>>, AllocError>
    ensures { IfOk result (λ r. map about_definition r.items ≡ about_definitions files.entry.now) }
{
    let mut definitions = Vec::new(alloc);
    for file in files {
        push_definitions(
            &mut definitions,
            file.path,
            file.found.definitions.as_slice(),
        )?;
    }
    Ok(definitions)
}

/// Adds that variables are defined and used nowhere, by these places of definitions.
fn add_defined(
    alloc: Global,
    definitions: &[Definition<'_, '_>],
    places: &[usize],
    found: &mut Vec<Finding>,
) -> Result<(), AllocError>
    ensures { OnOk result (map about found.new.items ≡ map about found.old.items ++ filter_map (λ k. option_map about_definition (slice_get definitions.now k)) places.now) }
{
    for place in places {
        let finding = unused_definition_at(alloc, definitions, *place)?;
        push_some(found, finding)?;
    }
    Ok(())
}
