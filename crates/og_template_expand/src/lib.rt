//! The expansion of a template: the tree of the outline that it means, under values of its
//! constants.
//!
//! [`expand`] gives the tree with the place of each note and statement in the template; [`outside`]
//! says more of an index that is outside of its range.
#![tactic(auto)]

mod assertions;
mod binders;
mod connective;
mod declarations;
mod expander;
mod exprs;
mod fault;
mod indices;
mod origin;
mod prefix;
mod range;
mod repeated;
mod scope;
mod statements;
mod sums;
mod template;

pub use indices::{Bound, Outside};
pub use origin::{Binding, Origin};
pub use template::{Expanded, expand, outside};
