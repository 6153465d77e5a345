ghost use Rattle.std.specs.Prelude.{◌≡◌};

use score_base::{Key, Members, Memory, TryCopy, Value};

/// What an expression is made of.
#[derive(Clone, Copy, Debug, PartialEq, Eq)]
pub enum Atom {
    /// A constant.
    Number(Value),
    /// The value of the latest earlier read of this key.
    Key(Key),
}

/// One step of an expression, on the value so far. Arithmetic is modulo 2^64.
#[derive(Clone, Copy, Debug, PartialEq, Eq)]
pub enum Step {
    /// The sum.
    Add(Atom),
    /// The difference.
    Sub(Atom),
    /// The product.
    Mul(Atom),
    /// The lesser.
    Min(Atom),
    /// The greater.
    Max(Atom),
    /// The first where the value so far is not 0, and the second where it is.
    Pick(Atom, Atom),
}

/// The steps of an expression.
pub type StepList = Members<Step>;

impl TryCopy for Step {
    fn copy(&self) -> Result<Step, Memory> {
        Ok(*self)
    }
}

/// An atom, and at most 16 steps from left to right.
#[derive(Drop, Debug)]
pub struct Expr {
    pub first: Atom,
    pub steps: StepList,
}

impl TryCopy for Expr {
    fn copy(&self) -> Result<Expr, Memory> {
        Ok(Expr {
            first: self.first,
            steps: self.steps.copy()?,
        })
    }
}
