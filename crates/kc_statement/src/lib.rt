//! One line of a Kconfig: its keyword, the names that it defines, and what it says.
#![tactic(auto)]

mod attribute;
mod expr;
mod expression;
mod id;
mod keyword;
mod lent_text;
mod limits;
mod lone_terms;
mod long_texts;
mod mistake;
mod name;
mod names;
mod nesting;
mod numerals;
mod parser;
mod prompt_text;
mod seed;
mod shared_text;
mod statement;
mod statement_forms;
mod symbol_type;
mod tri;
mod word;

pub use attribute::{DefaultValue, Prompt, Range, Setting};
pub use expr::{Comparison, Expr, ExprKind, ExprNode, Operands, Term};
pub use id::SymId;
pub use keyword::{Keyword, read_keyword};
pub use lent_text::LentText;
pub use limits::{MOST_NESTED, MOST_SYMBOLS};
pub use lone_terms::{lone_term, term_alone};
pub use mistake::{Mistake, Unread, Wanted};
pub use name::{is_name, read_names};
pub use names::Names;
pub use nesting::nests_too_deep;
pub use numerals::{after_hex_sign, after_minus, digits_up_to, hex_digits, numeral};
pub use prompt_text::PromptText;
pub use seed::Seed;
pub use shared_text::SharedText;
pub use statement::Statement;
pub use statement_forms::{
    read_alone, read_default, read_definition, read_depends, read_if, read_option, read_prompt,
    read_range, read_selection, read_title, read_visible, stands_alone, without_form,
};
pub use symbol_type::SymbolType;
pub use tri::Tri;
pub use word::is_word;
