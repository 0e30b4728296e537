// Where type variables stand.
use c_rules::Levels;

/// The type variables of the code that is being converted: how many are outside it, how many are in scope in it,
/// which of those outside it has, and whether a call has been opened.
#[derive(Drop)]
pub struct Side {
    pub depth: u64,
    pub owes: u64,
    pub kept: Levels,
    pub calling: bool,
}

/// Where the type variables of a type stand.
#[derive(Clone, Copy)]
pub enum Renaming<'a> {
    /// In a code, where so many more are in scope.
    Here { side: &'a Side, raise: u64 },
    /// In a code, of a type outside it.
    Outside { side: &'a Side, raise: u64 },
    /// Under a code's own, within the package that its closure is.
    Under { owes: u64, around: &'a Renaming<'a> },
    /// Under that of a package.
    Within { around: &'a Renaming<'a> },
}
