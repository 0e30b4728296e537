//! The grammar of assembly texts, read one token ahead, before names are resolved.
#![tactic(auto)]

mod blocks;
mod cursor;
mod data;
mod ends;
mod heads;
mod items;
mod lists;
mod names;
mod parts;
mod raw;
mod raw_types;
mod steps;
mod turns;
mod types;
mod values;
mod whole;

pub use cursor::{
    MOST_OPEN, Stopped, expect, expect_index, expect_register, expect_two, opened, peek, take,
};
pub use names::{FoundNames, binds};
pub use raw::{RawBase, RawBlock, RawData, RawDatum, RawEnd, RawInstr, RawItem, RawPack, RawValue};
pub use raw_types::{RawFile, RawType};
pub use turns::{SoFar, Turn, begin, is_all, next_item};
pub use types::{FoundFile, FoundType, file, whole_type};
pub use whole::program;
