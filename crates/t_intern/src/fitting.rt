// Which type fits which, by number.
ghost use Rattle.std.specs.Prelude.{◌≡◌, ◌≢◌, ◌↔◌, ◌<◌, ℕ};
ghost use Rattle.std.specs.Prelude.{Bool, List, length, IsTrue, MatchOption};
ghost use Rattle.t_types.specs.Fits.{Fits, FieldsFit};
ghost use Rattle.t_types.specs.Tree.{Ty, TFields, TupleTy};
ghost use Rattle.t_intern.specs.Fitting.{PartFits};
ghost use Rattle.t_intern.specs.Grown.{Once};
ghost use Rattle.t_intern.specs.Nodes.{at, fields_at, FieldsBelow};

use crate::shape::Shape;
use crate::types::Types;

// Pairs of tuples with more fields than this are remembered; the walk of fewer costs less than a look into a set.
const FEW_FIELDS: usize = 8;

impl Types {
    /// Whether the type of `a` fits the type of `b`.
    pub fn fits(&self, a: u64, b: u64) -> bool
        requires left { a < length self.now }
        requires right { b < length self.now }
        ensures { IsTrue result ↔ Fits (at self.now a) (at self.now b) }
    {
        if a == b {
            return true;
        }
        let _count = self.count();
        match self.fields(a) {
            Some(xs) => match self.fields(b) {
                Some(ys) => fields_fit(xs, ys),
                None => false,
            },
            None => false,
        }
    }

    /// The same. A pair of tuples with many fields that fits is remembered, so that it is walked once.
    pub fn fits_once(&mut self, a: u64, b: u64) -> bool
        requires left { a < length self.old }
        requires right { b < length self.old }
        ensures fit { IsTrue result ↔ Fits (at self.old a) (at self.old b) }
        ensures same { self.new ≡ self.old }
    {
        if a == b || !self.is_wide(a) {
            return self.fits(a, b);
        }
        if self.recalls_fit(a, b) {
            return true;
        }
        if !self.fits(a, b) {
            return false;
        }
        self.note_fit(a, b);
        true
    }

    // Whether the type is a tuple with many fields.
    fn is_wide(&self, n: u64) -> bool
        requires { n < length self.now }
    {
        match self.fields(n) {
            Some(fields) => fields.len() > FEW_FIELDS,
            None => false,
        }
    }

    /// The fields of a tuple type, by the numbers of their types.
    pub fn fields(&self, n: u64) -> Option<&[(u64, bool)]>
        requires { n < length self.now }
        ensures { MatchOption result ((x : TFields) → at self.now n ≢ TupleTy x) (λ xs. (at self.now n ≡
            TupleTy (fields_at self.now xs.now)) × FieldsBelow n xs.now) }
    {
        match self.shape(n) {
            Shape::Tuple(parts) => Some(parts),
            Shape::Int | Shape::Var(_) | Shape::Code { .. } | Shape::Exists(_) => None,
        }
    }
}

// Whether fields fit, by the numbers of their types.
fn fields_fit(a: &[(u64, bool)], b: &[(u64, bool)]) -> bool
    ensures { (ts : List Ty) → Once ts → FieldsBelow (length ts) a.now → FieldsBelow (length ts) b.now →
        IsTrue result ↔ FieldsFit (fields_at ts a.now) (fields_at ts b.now) }
{
    if a.len() != b.len() {
        return false;
    }
    for (x, y) in a.iter().zip(b) {
        if !part_fits(*x, *y) {
            return false;
        }
    }
    true
}

fn part_fits(x: (u64, bool), y: (u64, bool)) -> bool
    ensures { IsTrue result ↔ PartFits x y }
{
    x.0 == y.0 && (x.1 || !y.1)
}
