//! Texts for readers: pieces that are put together, pages of lines, and the page of a fault.
#![tactic(auto)]

mod excerpt;
mod layout;
mod names;
mod numbers;
mod page;
mod piece;
mod pieces;
mod spelling;
mod spot;

pub use layout::{write_margin, write_op, write_separator};
pub use names::{write_type_name, write_type_names, write_value_name};
pub use numbers::{write_integer, write_natural};
pub use page::{Note, page_of};
pub use pieces::Pieces;
