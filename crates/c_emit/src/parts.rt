// What the last walk is told, and where it stands.
use c_rules::Levels;
use c_terms::CType;

/// The types of a code's closure, inside the code: what it is applied to there, the type of its environment, and its
/// own. Nothing and `int` where the code's own name is not used.
#[derive(Drop)]
pub struct Inside {
    /// The types that the closed code is applied to in its closure.
    pub apply: Vec<CType>,
    /// The type of its environment.
    pub hidden: CType,
    /// The type of its closure.
    pub shape: CType,
}

/// What is known of a code before it is met: its free variables, whether its own name is used, and the types of the
/// closed code and of its closure, outside it and, where its own name is used, inside it.
#[derive(Drop)]
pub struct Info {
    /// The levels of its free variables, ascending: the fields of its environment.
    pub kept: Levels,
    /// Whether its own name is used in it.
    pub own: bool,
    /// How many types the closed code takes.
    pub owes: u64,
    /// The types of the closed code's arguments, that of the environment first.
    pub args: Vec<CType>,
    /// The types that the closed code is applied to in its closure, outside it.
    pub apply: Vec<CType>,
    /// The type of its environment, outside it.
    pub hidden: CType,
    /// The type of its closure, outside it.
    pub shape: CType,
    /// What these three are inside it.
    pub inside: Inside,
}

/// What is known of a call or a package before it is met: its types.
#[derive(Drop)]
pub enum Note {
    /// Of a call: the types that its code is applied to.
    Calls(Vec<CType>),
    /// Of a package: the type that it hides, and its own.
    Packs { hidden: CType, shape: CType },
}

/// The code that is being converted: the level of its own name, the first level of its body, and what stands for them.
#[derive(Drop)]
pub struct Frame {
    /// The level of its own name.
    pub level: u64,
    /// The first level of its body; the levels from its own name's up to this one are its arguments'.
    pub split: u64,
    /// Where the first variable that it keeps stands, named from the environment; its own closure stands after them.
    pub first: u64,
    /// Where the first variable of its body stands.
    pub start: u64,
    /// The levels of the variables that it keeps, ascending.
    pub kept: Levels,
    /// The types that the closed code is applied to in its closure.
    pub apply: Vec<CType>,
    /// The type of its environment.
    pub hidden: CType,
    /// The type of its closure.
    pub shape: CType,
}
