//! The texts that are made of a tree and its values, and those that give a tree its user values: the `.config`, the C
//! header, the default file and the list of new symbols. And what becomes of the lines of such a text and of fragments,
//! and what is found in them.
#![tactic(auto)]

mod assign;
mod beginning;
mod comment_words;
mod config_file;
mod config_findings;
mod config_lines;
mod config_names;
mod config_reading;
mod counts;
mod default_file;
mod draft;
mod effects;
mod entry_text;
mod fragments;
mod header_file;
mod input;
mod line_facts;
mod line_form;
mod line_reading;
mod lines_of_text;
mod loading;
mod lost_backslashes;
mod new_list;
mod numbered_lines;
mod outcomes;
mod prefix;
mod quoted_bytes;
mod quoting;
mod symbol_line;
mod symbols;
mod taken_lines;
mod titles;
mod unquoting;
mod unset_comments;
mod value_form;
mod warning;
mod written_assigns;

pub use assign::Assign;
pub use config_file::{config_text, config_text_over};
pub use config_reading::{ReadFault, read_config};
pub use default_file::{defconfig_text, defconfig_text_over};
pub use effects::has_effect;
pub use header_file::{header_text, header_text_over};
pub use loading::{Load, apply};
pub use new_list::{new_text, new_text_over};
pub use numbered_lines::{ConfigLine, ConfigLines, Fate, LineSays, read_config_lines, read_lines};
pub use prefix::{Prefix, PrefixFault};
pub use quoting::{push_quoted, push_text_in};
pub use warning::{Warning, WarningKind};
pub use written_assigns::assigns_text;

// What becomes of the lines of a `.config` and of fragments, and what is found in them.
pub use config_findings::{ConfigFinding, FoundInConfig, findings_of_config};
pub use config_names::{NamedLine, name_in, named_lines};
pub use counts::MergeCounts;
pub use fragments::{FragmentLine, FragmentLines, read_fragments};
pub use input::Input;
pub use line_facts::{FoundInLine, LineFact, found_in_lines, reported_of};
pub use line_form::has_name_bytes;
pub use lines_of_text::text_lines;
pub use lost_backslashes::{DroppedBackslash, dropped_backslashes};
pub use outcomes::{Outcome, outcomes_of};
pub use taken_lines::{assign_at, giving_lines};
pub use unset_comments::{MeantComment, meant_comments};
