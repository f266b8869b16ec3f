//! From what the lines of a Kconfig define to its tree: the faults of symbols and choices, the nodes with what each is
//! computed from, the conditions that they share, and their order or a loop.
#![tactic(auto)]

mod cell;
mod choice_faults;
mod every_fault;
mod fault;
mod link;
mod node;
mod node_order;
mod node_rows;
mod node_users;
mod nodes;
mod outline_faults;
mod problem;
mod symbol_faults;
mod tree;
mod user_value;
mod uses;

pub use cell::Cell;
pub use choice_faults::{is_defined_again, is_member, is_of_other_type, lacks_prompt};
pub use every_fault::all_faults;
pub use fault::{NamedNode, TreeFault};
pub use kc_outline::{
    Block, BlockId, BlockKind, Choice, ChoiceDefault, ChoiceId, Comment, CommentId, Definition,
    Entry, LineProblem, Reverse, Symbol,
};
pub use kc_statement::{
    Comparison, DefaultValue, Expr, ExprNode, LentText, Operands, Prompt, Range, Seed, SharedText,
    SymId, SymbolType, Term, Tri, lone_term, numeral,
};
pub use node::Node;
pub use node_order::NodeOrder;
pub use node_rows::NodeRow;
pub use node_users::NodeUsers;
pub use nodes::Nodes;
pub use problem::{ChoiceProblem, Problem, SymbolProblem};
pub use symbol_faults::{
    differ, has_unfit, is_prompted_again, is_unfit_default, is_unfit_range, is_unfit_term,
};
pub use tree::Tree;
pub use user_value::UserVal;
