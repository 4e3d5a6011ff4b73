//! Pipes: elements, and the stages that they go through.

ghost use Rattle.std.specs.Prelude.{◌≡◌, ℕ, ◌-◌, ◌<◌, ◌≤◌, ℤ, [], false, true, not, length, map, reverse, slice_index_or, slice_range, OnOk, OnErr, IfSome};
ghost use Rattle.std.specs.Prelude.{List as Seq};
ghost use Rattle.std.specs.List.{filter, list_all, AllByRecursion};
ghost use Rattle.op_laws.specs.Admits.{Admits};
ghost use Rattle.scalar_expr.specs.Values.{values_of};
ghost use Rattle.list_fusion.specs.declared.stage.Stage.TheVariants.{Map, Keep};
ghost use Rattle.list_fusion.specs.Heads.{head_of, CanBeHead};
ghost use Rattle.list_fusion.specs.Stages.{is_kept, staged};
ghost use Rattle.list_fusion.specs.Pipes.{elements, type_of, turned, places, block_of, with_stage};
ghost use Rattle.scalar_expr.specs.Columns.{is_w64};
ghost use Rattle.list_fusion.specs.Columnar.{Holds, GoesByColumns, IsColumnar};
ghost use Rattle.list_fusion.specs.Kept.{IsPlain, AreNumbers};
ghost use Rattle.list_fusion.specs.Through.{through};

use crate::head::{Head, all_w64, is_single, numbers_of};
use crate::stage::Stage;
use op_laws::{ElemType, List, Tup};
use scalar_expr::Typed;
use std::alloc::{AllocError, Global};
use std::marker::Model;

/// Elements, the stages that they go through, and the direction. Nothing is computed until a block
/// is asked for.
#[derive(Debug)]
pub struct Pipe<'a> {
    head: Head<'a>,
    len: u32,
    stages: Vec<Stage>,
    ty: ElemType,
    reversed: bool,
}

// By hand, so that where a pipe is let go there is one call, and not one a part.
impl<'a> Drop for Pipe<'a> {
    fn drop(self) {
        let Self {
            head: _,
            len: _,
            stages: _,
            ty: _,
            reversed: _,
        } = self;
    }
}

impl<'a> Model for Pipe<'a> {
    ghost use Rattle.std.specs.Coded.{codes};
    ghost use Rattle.scalar_expr.specs.Codes.{function_code};
    ghost use Rattle.list_fusion.specs.Pipes.{Flow};

    ghost Value = { Flow };

    ghost coded = { Prim.hlevel (codes, function_code) };

    ghost use Rattle.list_fusion.specs.Heads.{head_of};
    ghost use Rattle.list_fusion.specs.Kept.{IsPipe};

    ghost view = { λ p. record { head = head_of p.head; stages = p.stages.items; reversed = p.reversed } };

    ghost invariant = { λ p. IsPipe p.head p.len p.stages.items p.ty };
}

impl<'a> Pipe<'a> {
    /// The elements of a head, as they are. Of two lists, both are equally long and have at most 4
    /// components together. It takes no memory.
    pub fn of(alloc: Global, head: Head<'a>) -> Pipe<'a>
        requires { CanBeHead head }
        ensures { result ≡ record { head = head_of head.entry; stages = []; reversed = false } }
    {
        let len = head.len();
        let ty = head.ty();
        Pipe {
            head,
            len,
            stages: Vec::new(alloc),
            ty,
            reversed: false,
        }
    }

    /// Maps each element by a function that takes the pipe's type.
    pub fn map(&mut self, f: Typed) -> Result<(), AllocError>
        requires { f.takes ≡ type_of self.old }
        ensures ok { OnOk result (self.new ≡ with_stage self.old (Map f)) }
        ensures elements { OnOk result (elements self.new ≡ map (values_of f.scalars) (elements self.old)) }
        ensures err { OnErr result (self.new ≡ self.old) }
    {
        let ty = f.gives();
        self.stages.push(Stage::Map(f))?;
        self.ty = ty;
        Ok(())
    }

    /// Keeps the elements where a function isn't 0. It takes the pipe's type and gives one number.
    pub fn keep(&mut self, f: Typed) -> Result<(), AllocError>
        requires takes { f.takes ≡ type_of self.old }
        requires single { length f.gives ≡ 1 }
        ensures ok { OnOk result (self.new ≡ with_stage self.old (Keep f)) }
        ensures elements { OnOk result (elements self.new ≡ filter (is_kept f.scalars) (elements self.old)) }
        ensures err { OnErr result (self.new ≡ self.old) }
    {
        self.stages.push(Stage::Keep(f))?;
        Ok(())
    }

    /// Turns the pipe round: the last element becomes the first.
    pub fn rev(&mut self)
        ensures same { self.new ≡ record self.old { reversed = not self.old.reversed } }
        ensures elements { elements self.new ≡ reverse (elements self.old) }
    {
        self.reversed = !self.reversed;
    }

    /// The type of the pipe's elements.
    #[inline(always)]
    pub fn ty(&self) -> ElemType
        ensures { result ≡ type_of self.now }
    {
        self.ty
    }

    /// How many elements the head has: at least as many as the pipe.
    #[inline(always)]
    pub fn head_len(&self) -> u32
        ensures { result ≡ length self.now.head.items }
    {
        self.len
    }

    // Its list, turned round or not, where nothing else is done to the elements.
    #[inline(always)]
    pub(crate) fn list(&self) -> Option<&'a List>
        ensures { IfSome result (λ x. IsPlain self.now x.now) }
    {
        if self.stages.is_empty() {
            self.head.list()
        } else {
            None
        }
    }

    // Its elements as numbers that lie side by side, where nothing is done to them.
    #[inline(always)]
    pub(crate) fn numbers(&self) -> Option<&'a [i64]>
        ensures { IfSome result (λ xs. AreNumbers self.now xs.now) }
    {
        if self.reversed {
            return None;
        }
        numbers_of(self.list()?)
    }

    // Whether its blocks go by columns of 64-bit numbers, to one number an element.
    pub(crate) fn is_columnar(&self) -> bool
        ensures { result ≡ true → IsColumnar self.now }
    {
        all_w64(self.head.ty()) && is_single(self.ty) && self.stages_go_by_columns()
    }

    fn stages_go_by_columns(&self) -> bool
        ensures { result ≡ true → AllByRecursion GoesByColumns self.now.stages }
    {
        for stage in &self.stages {
            if !stage.goes_by_columns() {
                return false;
            }
        }
        true
    }

    // Puts the elements of a block of at most 256 places into a column, the last one first where
    // `back`. The answer is how many they are.
    pub(crate) fn part(
        &self,
        from: u32,
        to: u32,
        back: bool,
        columns: &mut [[i64; 256]; 4],
        stack: &mut [[i64; 256]; 8],
    ) -> usize
        requires columnar { IsColumnar self.now }
        requires ordered { from ≤ to }
        requires within { to ≤ length self.now.head.items }
        requires few { to - from ≤ 256 }
        ensures holds { Holds columns.new 1 result (turned back (block_of self.now from to)) }
        ensures fewer { result ≤ to - from }
    {
        self.load(from, to, back, columns);
        self.pass_columns(columns, (to - from) as usize, stack)
    }

    // Puts the head's elements at these places, counted in the pipe's direction, into columns.
    fn load(&self, from: u32, to: u32, back: bool, columns: &mut [[i64; 256]; 4])
        requires narrow { list_all is_w64 self.now.head.ty ≡ true }
        requires ordered { from ≤ to }
        requires within { to ≤ length self.now.head.items }
        requires few { to - from ≤ 256 }
        ensures { Holds columns.new (length self.now.head.ty) (to - from) (turned back (slice_range (places self.now) from to)) }
    {
        if self.reversed {
            self.head
                .load(self.len - to, self.len - from, !back, columns);
        } else {
            self.head.load(from, to, back, columns);
        }
    }

    // What the stages make of elements in columns, and how many they are then.
    fn pass_columns(
        &self,
        columns: &mut [[i64; 256]; 4],
        count: usize,
        stack: &mut [[i64; 256]; 8],
    ) -> usize
        requires stages { AllByRecursion GoesByColumns self.now.stages }
        requires few { count ≤ 256 }
        ensures holds { (es : Seq (Seq ℤ)) → Holds columns.old (length self.now.head.ty) count es
            → Holds columns.new (length (type_of self.now)) result (staged self.now.stages es) }
        ensures fewer { result ≤ count }
    {
        let mut left = count;
        for stage in &self.stages {
            left = stage.apply_columns(columns, left, stack);
        }
        left
    }

    // Whether it is turned round.
    #[inline(always)]
    pub(crate) fn is_reversed(&self) -> bool
        ensures { result ≡ self.now.reversed }
    {
        self.reversed
    }

    // The head's element at place `i`, counted in the pipe's direction.
    #[inline(always)]
    pub(crate) fn place(&self, i: u32) -> Tup
        requires { i < length self.now.head.items }
        ensures value { result ≡ slice_index_or (places self.now) i [] }
        ensures admitted { Admits self.now.head.ty result }
    {
        let at = if self.reversed { self.len - 1 - i } else { i };
        self.head.at(at)
    }

    // What the stages make of an element of the head, if they keep it.
    #[inline(always)]
    pub(crate) fn pass(&self, e: Tup) -> Option<Tup>
        requires { Admits self.now.head.ty e }
        ensures value { result ≡ through self.now.stages e }
        ensures admitted { IfSome result (Admits (type_of self.now)) }
    {
        let mut e = e;
        for stage in &self.stages {
            e = stage.apply(e)?;
        }
        Some(e)
    }

    // What the stages make of the head's element at place `i`, if they keep it.
    #[inline(always)]
    pub(crate) fn element(&self, i: u32) -> Option<Tup>
        requires { i < length self.now.head.items }
        ensures value { result ≡ through self.now.stages (slice_index_or (places self.now) i []) }
        ensures admitted { IfSome result (Admits (type_of self.now)) }
    {
        self.pass(self.place(i))
    }
}
