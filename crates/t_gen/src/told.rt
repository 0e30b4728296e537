// What is told of the terms that are still to come.
ghost use Rattle.std.specs.Prelude.{◌<◌, ◌^◌};

use std::collections::BTreeMap;

/// Of a declaration: whether the rest uses a variable by both of its names, whether it uses the new name, which
/// variables the declaration uses and the rest does not, the register in which the end of the rest wants the new one,
/// or 0, and how many arguments that end has. Of a choice: which variables its value or its third part uses and its
/// second part does not, and those that its third part uses, in ascending order.
#[derive(Drop)]
pub struct Ahead {
    pub both: bool,
    pub new: bool,
    pub gone: Vec<u64>,
    pub wanted: u64,
    pub arguments: u64,
    pub third: Vec<u64>,
    pub ghost few: { arguments < 2 ^ 63 },
}

/// In which registers the end of a term wants variables, each by its number with `offset` added, and how many arguments
/// that end has. So each number is one less where `offset` is one more.
#[derive(Drop)]
pub struct Wants {
    pub registers: BTreeMap<u64, u64>,
    pub offset: u64,
    pub arguments: u64,
    pub ghost few: { arguments < 2 ^ 63 },
}
