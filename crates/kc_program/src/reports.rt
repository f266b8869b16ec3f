//! The targets that report on a Kconfig and its values: `why`, `check`, `merge`, `how` and `menu`. Their texts are made from the
//! lines, which show where things are, and from the values of a session.

use crate::files::Files;
use crate::how::how_outcome;
use crate::messages::Status;
use crate::opening::{ConfigFile, Kconfig, Opening};
use crate::report_texts::{check_outcome, menu_outcome, merge_outcome, why_outcome};
use kc_command_line::{Arguments, Target};
use kc_files::Warning;
use kc_session::{OpenFault, Session, open_lines};
use kc_text::{Line, ReadFiles};
use kc_value::Resolver;
use std::alloc::{AllocError, Global};
use std::mem;

/// What a report gives.
#[derive(Drop)]
pub(crate) struct Outcome {
    /// What is written to standard output.
    pub output: String,
    /// What is written to standard error, after the warnings.
    pub errors: String,
    /// The warnings of CONFIG that are written as those of other targets.
    pub warnings: Vec<Warning>,
    pub status: Status,
}

impl Outcome {
    /// A text for standard output, with warnings.
    pub fn of_output(alloc: Global, output: String, warnings: Vec<Warning>) -> Outcome {
        Outcome {
            output,
            errors: String::new(alloc),
            warnings,
            status: Status::Done,
        }
    }
}

/// What a report is made from, beside the files of the Kconfig and the `.config`.
#[derive(Drop)]
pub(crate) struct ReportOpening<'a> {
    pub arguments: &'a Arguments<'a>,
    /// The fragments of `merge` and `how`, in their order.
    pub fragments: &'a [ConfigFile],
}

/// What a report is made from.
#[derive(Drop)]
pub(crate) struct ReportInputs<'a, 'f> {
    pub arguments: &'a Arguments<'a>,
    pub fragments: &'a [ConfigFile],
    pub config: &'a ConfigFile,
    /// The names of the variables that are given.
    pub variables: &'a [(&'a str, &'a str)],
    pub sources: &'a ReadFiles<'f>,
    pub lines: &'a [Line<'f>],
}

impl Opening for ReportOpening<'_> {
    /// The report, and how many symbols the Kconfig defines.
    type Opened = (Outcome, usize);

    fn open<F>(
        &self,
        files: &Files<'_>,
        kconfig: &Kconfig<'_, F>,
    ) -> Result<(Outcome, usize), OpenFault> {
        let alloc = files.alloc();
        let lines = files.lines();
        let config = kconfig.config.bytes();
        let opened = open_lines(alloc, files.seed(), lines, kconfig.prefix, config);
        let (mut session, warnings) = opened?;
        // A list of this call's own, so that all that the report is lent is lent for this call.
        let Ok(variables) = kconfig.variables.to_vec(alloc) else {
            return Err(OpenFault::NoMemory);
        };
        let inputs = ReportInputs {
            arguments: self.arguments,
            fragments: self.fragments,
            config: kconfig.config,
            variables: variables.as_slice(),
            sources: files.texts(),
            lines,
        };
        let symbols = session.tree().symbols().len();
        let report = report_on(alloc, &inputs, &mut session, warnings);
        // The program ends soon, so the memory need not be given back piece by piece.
        mem::forget(session);
        Ok((report?, symbols))
    }
}

/// The report of a target on a session.
fn report_on(
    alloc: Global,
    inputs: &ReportInputs<'_, '_>,
    session: &mut Session,
    warnings: Vec<Warning>,
) -> Result<Outcome, OpenFault> {
    let report = match inputs.arguments.target {
        Target::Why => why_outcome(alloc, inputs, session, warnings),
        Target::Check => check_outcome(alloc, inputs, session, warnings.as_slice()),
        Target::Merge => merge_outcome(alloc, inputs, session),
        Target::How => how_outcome(alloc, inputs, session),
        _ => menu_outcome(alloc, inputs, session, warnings),
    };
    match report {
        Ok(report) => Ok(report),
        Err(AllocError) => Err(OpenFault::NoMemory),
    }
}
