//! What reports say of a tree, of its values and of the lines of its files, as facts: which line each part comes from, what
//! is selected against its dependencies, which ranges and defaults can't be meant, the rows of the menu, and expressions,
//! values and reasons as text. Nothing here depends on which report asks.
#![tactic(auto)]

mod asked_values;
mod definition_lines;
mod expressions;
mod factor_lines;
mod forced;
mod forced_definitions;
mod listed_definitions;
mod listed_reasons;
mod listed_reverses;
mod low_parts;
mod low_values;
mod modules;
mod needs;
mod one_step;
mod range_faults;
mod reason_words;
mod reverse_row;
mod row;
mod rows;
mod shortfall;
mod tree_findings;
mod tristates_without_modules;
mod unseen_choices;
mod unset_symbols;
mod valued_factors;
mod view;
mod word_list;
mod words;

pub use asked_values::{has_no_value, push_asked, push_value_or_nothing};
pub use expressions::{push_expr, push_quoted, push_term, push_valued_expr, push_valued_term};
pub use factor_lines::{FactorLines, part_of_factor};
pub use listed_definitions::{
    DefinitionRow, FactorRow, LinedFactor, definition_factors, definition_rows,
};
pub use listed_reasons::{ReasonRow, ReasonSource, reason_rows};
pub use listed_reverses::{ReverseLine, reverse_lines};
pub use low_parts::{choice_condition, is_unchosen};
pub use needs::{has_prompt, push_low_values};
pub use one_step::{push_why_no, symbol_below};
pub use reason_words::{default_at, push_bounds, push_module_words, push_reason_words};
pub use reverse_row::{ReverseKind, push_reverse_names, push_reverse_row};
pub use row::Row;
pub use rows::menu_rows;
pub use shortfall::push_shortfall;
pub use valued_factors::{push_choice, push_valued_factor, push_valued_factors};
pub use view::View;
pub use words::{push_line, push_user, push_value, push_valued};

// What is found in a tree.
pub use forced_definitions::{Forced, forced_symbols};
pub use range_faults::exchanged_ranges;
pub use tree_findings::{FoundInTree, FoundLines, TreeFinding, findings_by_line};
pub use tristates_without_modules::never_modules;
pub use unseen_choices::hidden_choices;
pub use unset_symbols::unset_definitions;
