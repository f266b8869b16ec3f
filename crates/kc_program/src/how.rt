//! The target `how`: the lines that give symbols wanted values.

ghost use Rattle.std.specs.Prelude.{All, IfOk, IfSome};
ghost use Rattle.kc_files.specs.LineReading.{IsAssignFor};
ghost use Rattle.kc_how.specs.Answer.{IsAnswer, IsLine};
ghost use Rattle.kc_program.specs.SearchEndings.{IsRightEnding};

use crate::how_kept::with_values_kept;
use crate::messages::Status;
use crate::report_texts::{input_of, read_again, status_of, unusable_words_of_files};
use crate::reports::{Outcome, ReportInputs};
use kc_bounds::bounds;
use kc_facts::View;
use kc_files::{
    Assign, Input, Prefix, ReadFault, Warning, WarningKind, has_effect, read_config, read_fragments,
};
use kc_how::{
    Changes, answer, first_impossible, fragment_text, named_symbols, needed_for, other_changes,
    plain_candidates, value_lines,
};
use kc_how_search::{Search, candidates};
use kc_lines::LineIndex;
use kc_merge_report::{
    EffectsBefore, HowCounts, LostLine, Need, effects_before, how_costs, push_how_counts,
    push_impossible, push_needed_line, push_not_found, push_unusable_lines,
};
use kc_report::push_definitions_of;
use kc_session::{Body, Command, Reply, Session};
use kc_tree::{SymId, Tree};
use kc_value::{Resolver, Solved};
use std::alloc::{AllocError, Global};

/// The path of the wanted values that are words of the command line, in reports.
const WORDS: &str = "WANTED";

/// What is said where nothing was found.
const NOT_FOUND: &str = "nothing was found that gives what is wanted\n";

/// What is said where the search ended early.
const GAVE_UP: &str =
    "gave up: nothing that gives what is wanted was found in the steps of the search\n";

/// What is said where the fragments are too long together.
const TOO_LONG: &str = "kconf: WANTED: more than 16777216 bytes\n";

/// The report of `how`: the fragment that gives the wanted values, what it costs, and what each line is needed for.
pub(crate) fn how_outcome(
    alloc: Global,
    inputs: &ReportInputs<'_, '_>,
    session: &mut Session,
) -> Result<Outcome, AllocError> {
    session.fill_all()?;
    let view = View::new(session.solved());
    let config = input_of(inputs.config);
    let prefix = &inputs.arguments.prefix;
    let before = Before {
        effects: read_again(effects_before(alloc, &view, prefix, &config))?,
        values: value_lines(alloc, view.tree(), view.values())?,
    };
    let wanted = WantedTexts::of(alloc, inputs)?;
    match answer_in_session(alloc, inputs, session, &before, wanted)? {
        WantedAnswer::Found(found) if inputs.arguments.keeps_values => {
            let kept = with_values_kept(alloc, inputs, session, &before, found)?;
            found_outcome(alloc, inputs, kept)
        }
        WantedAnswer::Found(found) => found_outcome(alloc, inputs, found),
        WantedAnswer::NotFound(errors) => failed(alloc, errors),
        WantedAnswer::Unusable => unusable_outcome(alloc, inputs, session.tree()),
    }
}

/// What there is before lines are merged.
#[derive(Drop)]
pub(crate) struct Before {
    /// The lines of CONFIG that have their effect.
    effects: EffectsBefore,
    /// The values of all symbols.
    values: Vec<Assign>,
}

/// What comes of wanted values.
#[derive(Drop)]
pub(crate) enum WantedAnswer {
    Found(Found),
    /// Nothing was found, with these words for standard error.
    NotFound(String),
    /// A line of what is wanted can't be used.
    Unusable,
}

/// The lines that give wanted values.
#[derive(Drop)]
pub(crate) struct Found {
    /// What they give.
    pub wanted: WantedTexts,
    /// The symbols that values are asked for of.
    pub asked: Vec<SymId>,
    /// By number, whether a line or a wanted value names the symbol.
    named: Vec<bool>,
    counts: HowCounts,
    fragment: String,
    /// What each line changes, and what it is needed for.
    changes: String,
    /// What is said of the lines of CONFIG that are lost.
    costs: String,
    /// These lines, in their order.
    pub lost: Vec<LostLine>,
}

/// What is wanted, as lines of a `.config`.
#[derive(Drop)]
pub(crate) struct WantedTexts {
    /// The lines of CONFIG that are kept.
    pub kept: Vec<u8>,
    /// How many of these there are.
    pub kept_count: usize,
    /// The lines of the fragments, and after them those of the command line, which take their place.
    pub asked: Vec<u8>,
}

impl WantedTexts {
    /// What the command line asks for. No line of CONFIG is kept.
    fn of(alloc: Global, inputs: &ReportInputs<'_, '_>) -> Result<WantedTexts, AllocError> {
        Ok(WantedTexts {
            kept: Vec::new(alloc),
            kept_count: 0,
            asked: asked_text(alloc, inputs)?,
        })
    }

    /// All lines, those that are kept first.
    fn joined(&self, alloc: Global) -> Result<Vec<u8>, AllocError> {
        let mut text = Vec::new(alloc);
        text.extend_from_slice(self.kept.as_slice())?;
        text.extend_from_slice(self.asked.as_slice())?;
        Ok(text)
    }
}

/// What comes of wanted values in a session of CONFIG. Where lines are found, they are merged in it.
pub(crate) fn answer_in_session(
    alloc: Global,
    inputs: &ReportInputs<'_, '_>,
    session: &mut Session,
    before: &Before,
    wanted: WantedTexts,
) -> Result<WantedAnswer, AllocError> {
    session.fill_all()?;
    let view = View::new(session.solved());
    let answer = answer_over(alloc, inputs, &session.solved(), &view, wanted)?;
    match answer {
        WantedAnswer::Found(found) => {
            let found = with_costs(alloc, inputs, session, before, found)?;
            Ok(WantedAnswer::Found(found))
        }
        WantedAnswer::NotFound(errors) => Ok(WantedAnswer::NotFound(errors)),
        WantedAnswer::Unusable => Ok(WantedAnswer::Unusable),
    }
}

/// What comes of wanted values over the values of CONFIG.
fn answer_over(
    alloc: Global,
    inputs: &ReportInputs<'_, '_>,
    solved: &Solved<'_>,
    view: &View<'_>,
    wanted: WantedTexts,
) -> Result<WantedAnswer, AllocError> {
    let words = ChangeWords {
        view,
        index: index_of(alloc, inputs)?,
        kept: wanted.kept_count,
    };
    how(alloc, solved, &words, &inputs.arguments.prefix, wanted)
}

/// The lines of the Kconfig, where definitions are shown.
fn index_of<'l, 'f>(
    alloc: Global,
    inputs: &ReportInputs<'l, 'f>,
) -> Result<Option<LineIndex<'l, 'f>>, AllocError> {
    if !inputs.arguments.shows_definitions {
        return Ok(None);
    }
    Ok(Some(LineIndex::of(alloc, inputs.lines)?))
}

/// What comes of wanted values, by the lines of a `.config`.
fn how(
    alloc: Global,
    solved: &Solved<'_>,
    words: &ChangeWords<'_>,
    prefix: &Prefix,
    texts: WantedTexts,
) -> Result<WantedAnswer, AllocError> {
    let tree = solved.tree();
    let text = texts.joined(alloc)?;
    let (wanted, warnings) = match read_config(alloc, tree, prefix, text.as_slice()) {
        Ok(read) => read,
        Err(ReadFault::Limit) => return too_long(alloc),
        Err(ReadFault::NoMemory) => return Err(AllocError),
    };
    if has_unusable(warnings.as_slice()) {
        return Ok(WantedAnswer::Unusable);
    }
    let wanted = wanted.as_slice();
    let Searched { lines, ending } = answer_of(alloc, solved, wanted)?;
    let Some(lines) = lines else {
        return not_found(alloc, words.view, wanted, ending);
    };
    let lines = lines.as_slice();
    let asked = asked_symbols(alloc, wanted, words.kept)?;
    Ok(WantedAnswer::Found(Found {
        counts: HowCounts {
            wanted: asked.len(),
            kept: words.kept,
            lines: lines.len(),
            changes: Changes {
                changed: 0,
                lower: 0,
            },
            lost: 0,
        },
        wanted: texts,
        named: named_symbols(alloc, tree, wanted, lines)?,
        asked,
        fragment: fragment_text(alloc, tree, prefix, lines)?,
        changes: changes_text(alloc, solved, words, wanted, lines)?,
        costs: String::new(alloc),
        lost: Vec::new(alloc),
    }))
}

/// The symbols of the wanted values after those that are kept.
fn asked_symbols(alloc: Global, wanted: &[Assign], kept: usize) -> Result<Vec<SymId>, AllocError> {
    wanted
        .iter()
        .skip(kept)
        .map(|line| line.symbol)
        .collect(alloc)
}

/// What comes of a search.
#[derive(Drop)]
struct Searched {
    /// The lines, where some were found.
    lines: Option<Vec<Assign>>,
    /// How it ended, where none were found.
    ending: Ending,
}

/// How a search ends that finds no lines.
#[derive(Clone, Copy)]
enum Ending {
    /// All that it looks at was tried.
    NotFound,
    /// It ended before that.
    GaveUp,
    /// The wanted value of an index is one that no user values give, as bounds show.
    Impossible(usize),
}

/// The lines that give wanted values: the wanted values themselves, where these are enough, else what a search finds.
/// Where it finds nothing, bounds may show that no user values give one of the wanted values.
fn answer_of(alloc: Global, solved: &Solved<'_>, wanted: &[Assign]) -> Result<Searched, AllocError>
    requires { All (IsAssignFor solved.now.tree) wanted.now }
    ensures lines { IfOk result (λ found. IfSome found.lines (λ lines. IsAnswer solved.now.tree solved.now.user wanted.now lines.items)) }
    ensures ending { IfOk result (λ found. IsRightEnding solved.now.tree wanted.now found.ending) }
{
    let plain = plain_candidates(alloc, wanted)?;
    if let Some(lines) = answer(alloc, solved, wanted, plain.as_slice())? {
        return Ok(Searched {
            lines: Some(lines),
            ending: Ending::NotFound,
        });
    }
    let searched = searched_answer(alloc, solved, wanted)?;
    if searched.lines.is_some() {
        return Ok(searched);
    }
    Ok(Searched {
        lines: None,
        ending: or_impossible(alloc, solved.tree(), wanted, searched.ending)?,
    })
}

/// The ending of a search that found nothing, or the first wanted value that bounds show to be impossible.
fn or_impossible(
    alloc: Global,
    tree: &Tree,
    wanted: &[Assign],
    ending: Ending,
) -> Result<Ending, AllocError>
    requires { IsRightEnding tree.now wanted.now ending }
    ensures { IfOk result (IsRightEnding tree.now wanted.now) }
{
    let limits = bounds(alloc, tree)?;
    match first_impossible(&limits, wanted) {
        Some(index) => Ok(Ending::Impossible(index)),
        None => Ok(ending),
    }
}

/// The lines that a search finds.
fn searched_answer(
    alloc: Global,
    solved: &Solved<'_>,
    wanted: &[Assign],
) -> Result<Searched, AllocError>
    requires { All (IsAssignFor solved.now.tree) wanted.now }
    ensures lines { IfOk result (λ found. IfSome found.lines (λ lines. IsAnswer solved.now.tree solved.now.user wanted.now lines.items)) }
    ensures ending { IfOk result (λ found. IsRightEnding solved.now.tree wanted.now found.ending) }
{
    let (lists, ending) = match candidates(alloc, solved, wanted)? {
        Search::Candidates(lists) => (lists, Ending::NotFound),
        Search::NotFound(_) => (Vec::new(alloc), Ending::NotFound),
        Search::GaveUp(_) => (Vec::new(alloc), Ending::GaveUp),
    };
    Ok(Searched {
        lines: answer(alloc, solved, wanted, lists.as_slice())?,
        ending,
    })
}

/// What the words of changes are made from.
#[derive(Drop)]
struct ChangeWords<'w> {
    /// The values before the lines are merged.
    view: &'w View<'w>,
    /// The lines of the Kconfig, where definitions are shown.
    index: Option<LineIndex<'w, 'w>>,
    /// How many of the wanted values are those that are kept. They come first.
    kept: usize,
}

impl ChangeWords<'_> {
    /// Adds what a line changes, and for which of the wanted values, by its index, it is needed.
    fn push_change(
        &self,
        alloc: Global,
        text: &mut String,
        line: &Assign,
        wanted: Option<(usize, &Assign)>,
    ) -> Result<(), AllocError> {
        let need = match wanted {
            Some((index, kept)) if index < self.kept => Some(Need::Kept(kept)),
            Some((_, wanted)) => Some(Need::Wanted(wanted)),
            None => None,
        };
        push_needed_line(text, self.view, line, need)?;
        match &self.index {
            Some(index) => push_definitions_of(alloc, text, self.view, index, line.symbol),
            None => Ok(()),
        }
    }
}

/// A line for each line that is needed, with what it changes.
fn changes_text(
    alloc: Global,
    solved: &Solved<'_>,
    words: &ChangeWords<'_>,
    wanted: &[Assign],
    lines: &[Assign],
) -> Result<String, AllocError>
    requires wanted { All (IsAssignFor solved.now.tree) wanted.now }
    requires lines { All (IsLine solved.now.tree) lines.now }
{
    let mut text = String::new(alloc);
    let needs = needed_for(alloc, solved, wanted, lines)?;
    for (line, need) in lines.iter().zip(needs.as_slice()) {
        words.push_change(alloc, &mut text, line, wanted_at(wanted, *need))?;
    }
    Ok(text)
}

/// A wanted value with its index.
fn wanted_at(wanted: &[Assign], index: Option<usize>) -> Option<(usize, &Assign)> {
    let index = index?;
    Some((index, wanted.get(index)?))
}

/// What comes of fragments that are too long together.
fn too_long(alloc: Global) -> Result<WantedAnswer, AllocError> {
    Ok(WantedAnswer::NotFound(String::from_str(alloc, TOO_LONG)?))
}

/// What comes of a search that found nothing: a line for each wanted value that the symbol has not, and how it ended.
fn not_found(
    alloc: Global,
    view: &View<'_>,
    wanted: &[Assign],
    ending: Ending,
) -> Result<WantedAnswer, AllocError> {
    let mut text = String::new(alloc);
    for line in wanted {
        if !has_effect(view.tree(), view.values(), line) {
            push_not_found(alloc, &mut text, view, line)?;
        }
    }
    push_ending(alloc, &mut text, view, wanted, ending)?;
    Ok(WantedAnswer::NotFound(text))
}

/// Adds how a search ended that found nothing.
fn push_ending(
    alloc: Global,
    text: &mut String,
    view: &View<'_>,
    wanted: &[Assign],
    ending: Ending,
) -> Result<(), AllocError> {
    match ending {
        Ending::NotFound => text.push_str(NOT_FOUND),
        Ending::GaveUp => text.push_str(GAVE_UP),
        Ending::Impossible(index) => match wanted.get(index) {
            Some(line) => push_impossible(text, view, &bounds(alloc, view.tree())?, line),
            None => text.push_str(NOT_FOUND),
        },
    }
}

/// The same lines, with what they cost. They are merged in the session.
fn with_costs(
    alloc: Global,
    inputs: &ReportInputs<'_, '_>,
    session: &mut Session,
    before: &Before,
    mut found: Found,
) -> Result<Found, AllocError> {
    merge(session, found.fragment.as_str())?;
    session.fill_all()?;
    let view = View::new(session.solved());
    let fragment = Input {
        path: "",
        bytes: found.fragment.as_str().as_bytes(),
    };
    let prefix = &inputs.arguments.prefix;
    let costs = read_again(how_costs(alloc, &view, prefix, &before.effects, &fragment))?;
    let named = found.named.as_slice();
    let values = before.values.as_slice();
    found.counts.changes = other_changes(view.tree(), view.values(), values, named);
    found.counts.lost = costs.lost.len();
    found.costs = costs.text;
    found.lost = costs.lost;
    Ok(found)
}

/// The outcome where lines were found: what they cost comes first.
fn found_outcome(
    alloc: Global,
    inputs: &ReportInputs<'_, '_>,
    found: Found,
) -> Result<Outcome, AllocError> {
    let mut errors = found.costs;
    errors.push_str(found.changes.as_str())?;
    push_how_counts(&mut errors, found.counts, inputs.config.path())?;
    let is_at_fault = inputs.arguments.is_strict && found.counts.lost > 0;
    Ok(Outcome {
        output: found.fragment,
        errors,
        warnings: Vec::new(alloc),
        status: status_of(is_at_fault),
    })
}

/// Merges a fragment, which is not too long, so that only memory can be refused.
fn merge(session: &mut Session, fragment: &str) -> Result<(), AllocError> {
    match session.apply(Command::Merge(Body::new(fragment.as_bytes()))) {
        Reply::Done(_text) => Ok(()),
        Reply::Refused(_) => Err(AllocError),
    }
}

/// What ends without a fragment, with words for standard error.
fn failed(alloc: Global, errors: String) -> Result<Outcome, AllocError> {
    Ok(Outcome {
        output: String::new(alloc),
        errors,
        warnings: Vec::new(alloc),
        status: Status::Fault,
    })
}

/// The lines of the fragments, and after them those of the command line, which take their place.
fn asked_text(alloc: Global, inputs: &ReportInputs<'_, '_>) -> Result<Vec<u8>, AllocError> {
    let mut text = Vec::new(alloc);
    for fragment in inputs.fragments {
        text.extend_from_slice(fragment.bytes())?;
        text.push(b'\n')?;
    }
    text.extend_from_slice(words_text(alloc, inputs)?.as_str().as_bytes())?;
    Ok(text)
}

/// The lines of the command line.
fn words_text(alloc: Global, inputs: &ReportInputs<'_, '_>) -> Result<String, AllocError> {
    let mut text = String::new(alloc);
    for word in inputs.arguments.wanted.as_slice() {
        text.push_str(word)?;
        text.push('\n')?;
    }
    Ok(text)
}

/// Whether a line can't be used.
fn has_unusable(warnings: &[Warning]) -> bool {
    warnings
        .iter()
        .any(|warning| warning.kind != WarningKind::Repeated)
}

/// A line for each line that can't be used.
fn unusable_outcome(
    alloc: Global,
    inputs: &ReportInputs<'_, '_>,
    tree: &Tree,
) -> Result<Outcome, AllocError> {
    let words = words_text(alloc, inputs)?;
    let mut files: Vec<Input<'_>> = Vec::new(alloc);
    for fragment in inputs.fragments {
        files.push(input_of(fragment))?;
    }
    files.push(Input {
        path: WORDS,
        bytes: words.as_str().as_bytes(),
    })?;
    let files = files.as_slice();
    let unusable = unusable_words_of_files(alloc, inputs, tree, files)?;
    let prefix = &inputs.arguments.prefix;
    let read = read_again(read_fragments(alloc, tree, prefix, files))?;
    let mut errors = String::new(alloc);
    push_unusable_lines(&mut errors, files, &read, unusable.as_slice())?;
    failed(alloc, errors)
}
