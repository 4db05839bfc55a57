//! The layout of a source, an outline or a template.
//!
//! [`laid_out`] returns the text with other white space and nothing else changed: specs/Pieces.antt
//! says what the pieces of a text are, and the contract that they stay.
//!
//! The pieces are cut from the text (`parts`), each gets the white space in front of it as if no
//! line were too long (`spacing`), long notes and declarations are broken (`breaking`), and comments
//! get the level of what follows (`comments`). What is then written is cut again and compared.
#![tactic(auto)]

mod between;
mod breaking;
mod class;
mod comments;
mod fault;
mod layout;
mod parts;
mod same;
mod spaced;
mod spacing;
mod words;
mod writing;

pub use fault::LayoutError;
pub use layout::laid_out;
pub use parts::{Part, PartKind};
pub use words::words_of;
