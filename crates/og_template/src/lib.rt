//! The words and the grammar of templates.
//!
//! [`is_template`] tells a template from every other text, and [`words`] cuts it into the words of
//! an outline and the keywords and marks that templates add. [`read`] returns the tree that the
//! words stand for, or the first fault in their order.
#![tactic(auto)]

mod assertions;
mod binders;
mod cursor;
mod exprs;
mod fault;
mod front;
mod limits;
mod lists;
mod mask;
mod merge;
mod special;
mod statements;
mod sums;
mod template;
mod tree;
mod word;

pub use fault::{FaultKind, TemplateError, TemplateFault};
pub use front::is_template;
pub use merge::words;
pub use special::Special;
pub use template::read;
pub use tree::{
    Assertion, Auxiliary, Basic, Binder, Bounds, Conjunction, Constant, Disjunction, Element, Expr,
    Factor, Link, Named, Note, Operator, Process, Sequence, Statement, Step, Sum, Template, Term,
    TermKind, Test, Unit, Variable,
};
pub use word::{Word, WordKind};
