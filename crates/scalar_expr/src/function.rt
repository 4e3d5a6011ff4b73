//! Functions that are typed and compiled.

ghost use Rattle.std.specs.Prelude.{◌≡◌, ◌<◌, ◌≤◌, ℤ, length, map};
ghost use Rattle.std.specs.Prelude.{List as Seq};
ghost use Rattle.op_laws.specs.Admits.{Admits};
ghost use Rattle.scalar_expr.specs.Columns.{room_of, is_narrow};
ghost use Rattle.scalar_expr.specs.Values.{values_of};

use crate::single::run;
use crate::step::Step;
use op_laws::{ElemType, Tup};
use std::marker::Model;

/// A function on elements with its types, ready to run. Beside its steps, about 64 bytes for each
/// operator, it holds no memory.
#[derive(Drop, Debug)]
pub struct Typed {
    pub(crate) takes: ElemType,
    pub(crate) gives: ElemType,
    pub(crate) room: usize,
    pub(crate) narrow: bool,
    pub(crate) steps: Vec<Step>,
}

impl Model for Typed {
    ghost use Rattle.scalar_expr.specs.Functions.{Function};
    ghost use Rattle.scalar_expr.specs.Codes.{function_code};

    ghost Value = { Function };

    ghost coded = { function_code };

    ghost use Rattle.std.specs.Prelude.{[]};
    ghost use Rattle.scalar_expr.specs.Steps.{built};
    ghost use Rattle.scalar_expr.specs.Compiled.{IsCompiled};

    ghost view = { λ f. record { scalars = built f.steps.items []; takes = f.takes; gives = f.gives } };

    ghost invariant = { λ f. IsCompiled f.takes f.gives f.room f.narrow (built f.steps.items []) f.steps.items };
}

impl Typed {
    /// The type of the elements that it takes.
    #[inline(always)]
    pub fn takes(&self) -> ElemType
        ensures { result ≡ self.now.takes }
    {
        self.takes
    }

    /// The type of the elements that it gives.
    #[inline(always)]
    pub fn gives(&self) -> ElemType
        ensures { result ≡ self.now.gives }
    {
        self.gives
    }

    /// What it gives on an element that it takes is one of the type that it gives. It does nothing:
    /// its clause is for proofs that go over all elements.
    #[inline(always)]
    pub fn admitted(&self)
        ensures { (e : Seq ℤ) → Admits self.now.takes e → Admits self.now.gives (values_of self.now.scalars e) }
    {
        let _steps = &self.steps;
    }

    /// The value on an element. It goes over the steps once, on a stack of 64 numbers, or of 8 where
    /// they are enough.
    pub fn eval(&self, t: Tup) -> Tup
        requires { Admits self.now.takes t }
        ensures value { result ≡ values_of self.now.scalars t }
        ensures fits { Admits self.now.gives result }
    {
        if self.room <= 8 {
            run(&self.steps, t, self.gives.len(), &mut [0; 8])
        } else {
            run(&self.steps, t, self.gives.len(), &mut [0; 64])
        }
    }
}
