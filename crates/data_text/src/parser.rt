//! Sections from words.
ghost use Rattle.std.specs.Prelude.{◌≡◌, ◌≢◌, ◌<◌, ◌≤◌, ◌+◌, ℕ, List, [], ◌∷◌, length, map, Ok, Some, OnOk, OnErr, IfErr, bytes_eq, true};
ghost use Rattle.std.specs.List.{All};
ghost use Rattle.plain_text.specs.Numbers.{is_name};
ghost use Rattle.data_text.specs.Stages.{is_open, begun, Keeps};
ghost use Rattle.data_text.specs.KeepsProp.{keeps_prop};

use crate::data_fault::DataFault;
use crate::numbers::{count, count_at, number};
use crate::sections::Sections;
use crate::stage::{Form, Stage, mark_of, stage_of, value_of};
use crate::value::{Named, Value};
use bin_tree::MAX_ROSE_NODES;
use op_laws::MAX_ELEMENTS;
use plain_text::{Name, is_name};
use std::alloc::Global;
use std::mem;

// So many elements are reserved before the first is read, where as many are to come.
const RESERVED: usize = 16_384;

/// The sections that were read, and the one that is begun: a column of its numbers, and beside it one of the
/// marks of a tree or of the numbers of children of a rose tree.
#[derive(Drop)]
pub struct Parser {
    pub alloc: Global,
    pub stage: Stage,
    pub room: u32,
    pub name: Vec<u8>,
    pub numbers: Vec<i64>,
    pub leaf: Vec<bool>,
    pub counts: Vec<u32>,
    pub done: Sections,
    ghost named: { is_open stage ≡ true → is_name name.items ≡ true },
    ghost fresh: { is_open stage ≡ true → All (λ s. s.name ≢ name.items) done },
    ghost few: { length done + begun stage + room ≤ 64 },
    ghost kept: { Keeps stage numbers.items leaf.items counts.items } by { keeps_prop stage numbers.items leaf.items counts.items },
}

impl Parser {
    ghost use Rattle.std.specs.Prelude.{◌≡◌, ◌≢◌, ◌<◌, ◌≤◌, ◌+◌, ℕ, List, [], ◌∷◌, length, map, Ok, Some, OnOk, OnErr, IfErr, bytes_eq, true};
    ghost use Rattle.std.specs.Prelude.{min, option_map};
    ghost use Rattle.std.specs.List.{zip};
    ghost use Rattle.bin_tree.specs.Places.{IsWhole, arity};
    ghost use Rattle.data_text.specs.Data.{tree, rose, mark_of};
    ghost use Rattle.data_text.specs.Words.{Item, word};
    ghost use Rattle.plain_text.specs.Numbers.{number_of, count_of};
    ghost use Rattle.data_text.specs.Told.{GoesOn, Gives};
    ghost use Rattle.data_text.specs.Named.{section_of, content_of, mark_of_leaf, IsOfW64};
    ghost use Rattle.data_text.specs.Stages.{awaits_number, awaits_mark, awaits_count, made, Fills};
    ghost use Rattle.data_text.specs.Resume.{resume, words_left, IsDue, Closes};

    /// A parser that has read nothing and takes at most so many sections.
    pub fn new(alloc: Global, room: u32) -> Parser
        requires { room ≤ 64 }
        ensures stage { result.stage ≡ Stage.Between }
        ensures room { result.room ≡ room }
        ensures done { result.done ≡ [] }
    {
        Parser {
            alloc,
            stage: Stage::Between,
            room,
            name: Vec::new(alloc),
            numbers: Vec::new(alloc),
            leaf: Vec::new(alloc),
            counts: Vec::new(alloc),
            done: Sections::new(alloc),
        }
    }

    #[tactic(auto, unfolding(crate::specs::Resume::resume, crate::specs::Data::sections_at, crate::specs::Data::name_at, crate::specs::Data::next))]
    fn take_name(&mut self, at: u64, text: &[u8]) -> Result<(), DataFault>
        requires short { length text.now ≤ 40 }
        requires stage { self.old.stage ≡ Stage.Between }
        ensures no_more { words_left self.new ≤ words_left self.old }
        ensures fewer { OnOk result (words_left self.new + 1 ≤ words_left self.old) }
        ensures step { (end : ℕ) (items : List Item) → GoesOn result (resume self.old end (word at text.now ∷ items)) (λ _. resume self.new end items) }
    {
        if !is_name(text) {
            return Err(DataFault::BadWord(at));
        }
        if self.room == 0 {
            return Err(DataFault::TooManySections(at));
        }
        if self.done.has(text) {
            return Err(DataFault::Duplicate(at));
        }
        self.name = Vec::from_slice(self.alloc, text)?;
        self.room -= 1;
        self.stage = Stage::Kind;
        Ok(())
    }

    #[tactic(auto, unfolding(crate::specs::Resume::resume, crate::specs::Data::kind_and_content_at, crate::specs::Data::next))]
    fn take_kind(&mut self, at: u64, text: &[u8]) -> Result<(), DataFault>
        requires short { length text.now ≤ 40 }
        requires stage { self.old.stage ≡ Stage.Kind }
        ensures no_more { words_left self.new ≤ words_left self.old }
        ensures fewer { OnOk result (words_left self.new + 1 ≤ words_left self.old) }
        ensures step { (end : ℕ) (items : List Item) → GoesOn result (resume self.old end (word at text.now ∷ items)) (λ _. resume self.new end items) }
    {
        let Some(stage) = stage_of(text) else {
            return Err(DataFault::BadKind(at));
        };
        self.numbers = Vec::new(self.alloc);
        self.stage = stage;
        Ok(())
    }

    // The section that is read whole stands with the others.
    fn close(&mut self, value: Value) -> Result<(), DataFault>
        requires due { IsDue self.old }
        requires of_w64 { IsOfW64 value }
        ensures closed { OnOk result (Closes self.old self.new (content_of value)) }
        ensures cause { IfErr result (λ e. e ≡ DataFault.Memory) }
        ensures same { OnErr result ((self.new.stage ≡ Stage.Between) × (self.new.room ≡ self.old.room)) }
    {
        let name = Name::of_vec(mem::replace(&mut self.name, Vec::new(self.alloc)));
        self.done.push(Named { name, value })?;
        Ok(())
    }

    // The numbers that are read make the section.
    fn close_numbers(&mut self, form: Form) -> Result<(), DataFault>
        requires due { IsDue self.old }
        requires full { Fills form (length self.old.numbers.items) }
        ensures closed { OnOk result (Closes self.old self.new (made form self.old.numbers.items)) }
        ensures cause { IfErr result (λ e. e ≡ DataFault.Memory) }
        ensures same { OnErr result ((self.new.stage ≡ Stage.Between) × (self.new.room ≡ self.old.room)) }
    {
        let numbers = mem::replace(&mut self.numbers, Vec::new(self.alloc));
        self.close(value_of(form, numbers))?;
        Ok(())
    }

    // The nodes that are read make a tree.
    fn close_tree(&mut self) -> Result<(), DataFault>
        requires due { IsDue self.old }
        requires whole { IsWhole (map arity self.old.leaf.items) }
        requires same { length self.old.leaf.items ≡ length self.old.numbers.items }
        requires few { length self.old.numbers.items ≤ 4294967295 }
        ensures closed { OnOk result (Closes self.old self.new (tree (zip (map mark_of_leaf self.old.leaf.items) self.old.numbers.items))) }
        ensures cause { IfErr result (λ e. e ≡ DataFault.Memory) }
        ensures same { OnErr result ((self.new.stage ≡ Stage.Between) × (self.new.room ≡ self.old.room)) }
    {
        let leaf = mem::replace(&mut self.leaf, Vec::new(self.alloc));
        let numbers = mem::replace(&mut self.numbers, Vec::new(self.alloc));
        let value = Value::of_marks(self.alloc, leaf, numbers)?;
        self.close(value)?;
        Ok(())
    }

    // The nodes that are read make a rose tree.
    fn close_rose(&mut self) -> Result<(), DataFault>
        requires due { IsDue self.old }
        requires whole { IsWhole self.old.counts.items }
        requires same { length self.old.counts.items ≡ length self.old.numbers.items }
        requires few { length self.old.numbers.items ≤ 2147483647 }
        ensures closed { OnOk result (Closes self.old self.new (rose (zip self.old.numbers.items self.old.counts.items))) }
        ensures cause { IfErr result (λ e. e ≡ DataFault.Memory) }
        ensures same { OnErr result ((self.new.stage ≡ Stage.Between) × (self.new.room ≡ self.old.room)) }
    {
        let counts = mem::replace(&mut self.counts, Vec::new(self.alloc));
        let numbers = mem::replace(&mut self.numbers, Vec::new(self.alloc));
        let value = Value::of_counts(self.alloc, counts, numbers)?;
        self.close(value)?;
        Ok(())
    }

    #[tactic(auto, unfolding(crate::specs::Resume::resume, crate::specs::Data::list_at, crate::specs::Data::numbers_at))]
    fn take_list_count(&mut self, at: u64, text: &[u8]) -> Result<(), DataFault>
        requires short { length text.now ≤ 40 }
        requires stage { self.old.stage ≡ Stage.ListCount }
        ensures no_more { words_left self.new ≤ words_left self.old }
        ensures fewer { OnOk result (words_left self.new + 1 ≤ words_left self.old) }
        ensures step { (end : ℕ) (items : List Item) → GoesOn result (resume self.old end (word at text.now ∷ items)) (λ _. resume self.new end items) }
    {
        let n = count_at(at, text, MAX_ELEMENTS)?;
        self.numbers = Vec::with_capacity(self.alloc, (n as usize).min(RESERVED))?;
        if n > 0 {
            self.stage = Stage::Numbers(Form::Many, n - 1);
            return Ok(());
        }
        self.stage = Stage::Between;
        self.close_numbers(Form::Many)?;
        Ok(())
    }

    #[tactic(auto, unfolding(crate::specs::Resume::resume, crate::specs::Data::matrix_at))]
    fn take_rows(&mut self, at: u64, text: &[u8]) -> Result<(), DataFault>
        requires short { length text.now ≤ 40 }
        requires stage { self.old.stage ≡ Stage.Rows }
        ensures no_more { words_left self.new ≤ words_left self.old }
        ensures fewer { OnOk result (words_left self.new + 1 ≤ words_left self.old) }
        ensures step { (end : ℕ) (items : List Item) → GoesOn result (resume self.old end (word at text.now ∷ items)) (λ _. resume self.new end items) }
    {
        let rows = count_at(at, text, MAX_ELEMENTS)?;
        if rows == 0 {
            return Err(DataFault::Shape(at));
        }
        self.stage = Stage::Cols(rows);
        Ok(())
    }

    #[tactic(auto, unfolding(crate::specs::Resume::resume))]
    fn take_cols(&mut self, rows: u32, at: u64, text: &[u8]) -> Result<(), DataFault>
        requires short { length text.now ≤ 40 }
        requires stage { self.old.stage ≡ Stage.Cols rows }
        ensures no_more { words_left self.new ≤ words_left self.old }
        ensures fewer { OnOk result (words_left self.new + 1 ≤ words_left self.old) }
        ensures step { (end : ℕ) (items : List Item) → GoesOn result (resume self.old end (word at text.now ∷ items)) (λ _. resume self.new end items) }
    {
        let cols = count_at(at, text, MAX_ELEMENTS)?;
        let cells = u64::from(rows) * u64::from(cols);
        if cells > u64::from(MAX_ELEMENTS) {
            return Err(DataFault::TooMany(at));
        }
        if cols == 0 {
            return Err(DataFault::Shape(at));
        }
        self.numbers = Vec::with_capacity(self.alloc, (cells as usize).min(RESERVED))?;
        self.stage = Stage::Numbers(Form::Grid(rows, cols), (cells - 1) as u32);
        Ok(())
    }

    #[tactic(auto, unfolding(crate::specs::Resume::resume, crate::specs::Data::tree_at))]
    fn take_tree_count(&mut self, at: u64, text: &[u8]) -> Result<(), DataFault>
        requires short { length text.now ≤ 40 }
        requires stage { self.old.stage ≡ Stage.TreeCount }
        ensures no_more { words_left self.new ≤ words_left self.old }
        ensures fewer { OnOk result (words_left self.new + 1 ≤ words_left self.old) }
        ensures step { (end : ℕ) (items : List Item) → GoesOn result (resume self.old end (word at text.now ∷ items)) (λ _. resume self.new end items) }
    {
        let n = count_at(at, text, MAX_ELEMENTS)?;
        if n == 0 {
            return Err(DataFault::Shape(at));
        }
        self.numbers = Vec::with_capacity(self.alloc, (n as usize).min(RESERVED))?;
        self.leaf = Vec::with_capacity(self.alloc, (n as usize).min(RESERVED))?;
        self.stage = Stage::Mark(n - 1, 1);
        Ok(())
    }

    #[tactic(auto, unfolding(crate::specs::Resume::resume, crate::specs::Data::rose_at))]
    fn take_rose_count(&mut self, at: u64, text: &[u8]) -> Result<(), DataFault>
        requires short { length text.now ≤ 40 }
        requires stage { self.old.stage ≡ Stage.RoseCount }
        ensures no_more { words_left self.new ≤ words_left self.old }
        ensures fewer { OnOk result (words_left self.new + 1 ≤ words_left self.old) }
        ensures step { (end : ℕ) (items : List Item) → GoesOn result (resume self.old end (word at text.now ∷ items)) (λ _. resume self.new end items) }
    {
        let n = count_at(at, text, MAX_ROSE_NODES)?;
        if n == 0 {
            return Err(DataFault::Shape(at));
        }
        self.numbers = Vec::with_capacity(self.alloc, (n as usize).min(RESERVED))?;
        self.counts = Vec::with_capacity(self.alloc, (n as usize).min(RESERVED))?;
        self.stage = Stage::RoseValue(n - 1, 1);
        Ok(())
    }

    // Takes the mark of a node whose word begins at this byte.
    #[inline(always)]
    #[tactic(auto, unfolding(crate::specs::Resume::resume, crate::specs::Data::nodes_at, crate::specs::Data::next))]
    fn put_mark(&mut self, more: u32, places: u32, at: u64, leaf: bool) -> Result<(), DataFault>
        requires { self.old.stage ≡ Stage.Mark more places }
        ensures no_more { words_left self.new ≤ words_left self.old }
        ensures fewer { OnOk result (words_left self.new + 1 ≤ words_left self.old) }
        ensures step { (end : ℕ) (text : List ℕ) (items : List Item) → length text ≤ 40 → mark_of text ≡ Some (mark_of_leaf leaf)
            → GoesOn result (resume self.old end (word at text ∷ items)) (λ _. resume self.new end items) }
    {
        if places == 0 {
            return Err(DataFault::Shape(at));
        }
        let after = if leaf {
            u64::from(places) - 1
        } else {
            u64::from(places) + 1
        };
        if after > u64::from(more) {
            return Err(DataFault::Shape(at));
        }
        self.stage = Stage::Value(more, after as u32, leaf);
        Ok(())
    }

    // Takes the next number of a list or a matrix, where so many are to come after it.
    #[inline(always)]
    #[tactic(auto, unfolding(crate::specs::Resume::resume, crate::specs::Data::numbers_at))]
    fn put_number(&mut self, form: Form, more: u32, x: i64) -> Result<(), DataFault>
        requires { self.old.stage ≡ Stage.Numbers form more }
        ensures no_more { words_left self.new ≤ words_left self.old }
        ensures fewer { OnOk result (words_left self.new + 1 ≤ words_left self.old) }
        ensures step { (end at : ℕ) (text : List ℕ) (items : List Item) → length text ≤ 40 → number_of text ≡ Some x
            → GoesOn result (resume self.old end (word at text ∷ items)) (λ _. resume self.new end items) }
    {
        self.numbers.push(x)?;
        if more > 0 {
            self.stage = Stage::Numbers(form, more - 1);
            return Ok(());
        }
        self.stage = Stage::Between;
        self.close_numbers(form)?;
        Ok(())
    }

    // Takes the number of a node of a tree.
    #[inline(always)]
    #[tactic(auto, unfolding(crate::specs::Resume::resume))]
    fn put_value(&mut self, more: u32, places: u32, leaf: bool, x: i64) -> Result<(), DataFault>
        requires { self.old.stage ≡ Stage.Value more places leaf }
        ensures no_more { words_left self.new ≤ words_left self.old }
        ensures fewer { OnOk result (words_left self.new + 1 ≤ words_left self.old) }
        ensures step { (end at : ℕ) (text : List ℕ) (items : List Item) → length text ≤ 40 → number_of text ≡ Some x
            → GoesOn result (resume self.old end (word at text ∷ items)) (λ _. resume self.new end items) }
    {
        // On want of memory one column may be longer: nothing is begun then.
        self.stage = Stage::Between;
        self.leaf.push(leaf)?;
        self.numbers.push(x)?;
        if more > 0 {
            self.stage = Stage::Mark(more - 1, places);
            return Ok(());
        }
        self.close_tree()?;
        Ok(())
    }

    // Takes the number of a node of a rose tree, whose word begins at this byte.
    #[inline(always)]
    #[tactic(auto, unfolding(crate::specs::Resume::resume, crate::specs::Data::rose_nodes_at, crate::specs::Data::next))]
    fn put_rose_value(&mut self, more: u32, places: u32, at: u64, x: i64) -> Result<(), DataFault>
        requires { self.old.stage ≡ Stage.RoseValue more places }
        ensures no_more { words_left self.new ≤ words_left self.old }
        ensures fewer { OnOk result (words_left self.new + 1 ≤ words_left self.old) }
        ensures step { (end : ℕ) (text : List ℕ) (items : List Item) → length text ≤ 40 → number_of text ≡ Some x
            → GoesOn result (resume self.old end (word at text ∷ items)) (λ _. resume self.new end items) }
    {
        if places > 0 {
            self.stage = Stage::Children(more, places, x);
            return Ok(());
        }
        Err(DataFault::Shape(at))
    }

    // Takes how many children a rose node has, whose word begins at this byte.
    #[inline(always)]
    #[tactic(auto, unfolding(crate::specs::Resume::resume, crate::specs::Data::next))]
    fn put_children(
        &mut self,
        more: u32,
        places: u32,
        x: i64,
        at: u64,
        children: u64,
    ) -> Result<(), DataFault>
        requires { self.old.stage ≡ Stage.Children more places x }
        ensures no_more { words_left self.new ≤ words_left self.old }
        ensures fewer { OnOk result (words_left self.new + 1 ≤ words_left self.old) }
        ensures step { (end : ℕ) (text : List ℕ) (items : List Item) → length text ≤ 40 → Some children ≡ option_map (λ n. min n 18446744073709551615) (count_of text)
            → GoesOn result (resume self.old end (word at text ∷ items)) (λ _. resume self.new end items) }
    {
        let room = more - (places - 1);
        if children > u64::from(room) {
            return Err(DataFault::Shape(at));
        }
        self.stage = Stage::Between;
        self.counts.push(children as u32)?;
        self.numbers.push(x)?;
        if more > 0 {
            self.stage = Stage::RoseValue(more - 1, places - 1 + children as u32);
            return Ok(());
        }
        self.close_rose()?;
        Ok(())
    }

    #[tactic(auto, unfolding(crate::specs::Resume::resume, crate::specs::Data::numbers_at, crate::specs::Data::number_at, crate::specs::Data::next))]
    fn take_number(&mut self, form: Form, more: u32, at: u64, text: &[u8]) -> Result<(), DataFault>
        requires short { length text.now ≤ 40 }
        requires stage { self.old.stage ≡ Stage.Numbers form more }
        ensures no_more { words_left self.new ≤ words_left self.old }
        ensures fewer { OnOk result (words_left self.new + 1 ≤ words_left self.old) }
        ensures step { (end : ℕ) (items : List Item) → GoesOn result (resume self.old end (word at text.now ∷ items)) (λ _. resume self.new end items) }
    {
        let Some(x) = number(text) else {
            return Err(DataFault::BadNumber(at));
        };
        self.put_number(form, more, x)
    }

    #[tactic(auto, unfolding(crate::specs::Resume::resume, crate::specs::Data::nodes_at, crate::specs::Data::next))]
    fn take_mark(&mut self, more: u32, places: u32, at: u64, text: &[u8]) -> Result<(), DataFault>
        requires short { length text.now ≤ 40 }
        requires stage { self.old.stage ≡ Stage.Mark more places }
        ensures no_more { words_left self.new ≤ words_left self.old }
        ensures fewer { OnOk result (words_left self.new + 1 ≤ words_left self.old) }
        ensures step { (end : ℕ) (items : List Item) → GoesOn result (resume self.old end (word at text.now ∷ items)) (λ _. resume self.new end items) }
    {
        match mark_of(text) {
            Some(leaf) => self.put_mark(more, places, at, leaf),
            None if places == 0 => Err(DataFault::Shape(at)),
            None => Err(DataFault::BadWord(at)),
        }
    }

    #[tactic(auto, unfolding(crate::specs::Resume::resume, crate::specs::Data::number_at, crate::specs::Data::next))]
    fn take_value(
        &mut self,
        more: u32,
        places: u32,
        leaf: bool,
        at: u64,
        text: &[u8],
    ) -> Result<(), DataFault>
        requires short { length text.now ≤ 40 }
        requires stage { self.old.stage ≡ Stage.Value more places leaf }
        ensures no_more { words_left self.new ≤ words_left self.old }
        ensures fewer { OnOk result (words_left self.new + 1 ≤ words_left self.old) }
        ensures step { (end : ℕ) (items : List Item) → GoesOn result (resume self.old end (word at text.now ∷ items)) (λ _. resume self.new end items) }
    {
        let Some(x) = number(text) else {
            return Err(DataFault::BadNumber(at));
        };
        self.put_value(more, places, leaf, x)
    }

    #[tactic(auto, unfolding(crate::specs::Resume::resume, crate::specs::Data::rose_nodes_at, crate::specs::Data::next))]
    fn take_rose_value(
        &mut self,
        more: u32,
        places: u32,
        at: u64,
        text: &[u8],
    ) -> Result<(), DataFault>
        requires short { length text.now ≤ 40 }
        requires stage { self.old.stage ≡ Stage.RoseValue more places }
        ensures no_more { words_left self.new ≤ words_left self.old }
        ensures fewer { OnOk result (words_left self.new + 1 ≤ words_left self.old) }
        ensures step { (end : ℕ) (items : List Item) → GoesOn result (resume self.old end (word at text.now ∷ items)) (λ _. resume self.new end items) }
    {
        match number(text) {
            Some(x) => self.put_rose_value(more, places, at, x),
            None if places == 0 => Err(DataFault::Shape(at)),
            None => Err(DataFault::BadNumber(at)),
        }
    }

    #[tactic(auto, unfolding(crate::specs::Resume::resume, crate::specs::Data::next))]
    fn take_children(
        &mut self,
        more: u32,
        places: u32,
        x: i64,
        at: u64,
        text: &[u8],
    ) -> Result<(), DataFault>
        requires short { length text.now ≤ 40 }
        requires stage { self.old.stage ≡ Stage.Children more places x }
        ensures no_more { words_left self.new ≤ words_left self.old }
        ensures fewer { OnOk result (words_left self.new + 1 ≤ words_left self.old) }
        ensures step { (end : ℕ) (items : List Item) → GoesOn result (resume self.old end (word at text.now ∷ items)) (λ _. resume self.new end items) }
    {
        let Some(children) = count(text) else {
            return Err(DataFault::BadNumber(at));
        };
        self.put_children(more, places, x, at, children)
    }

    /// Takes the next word, which begins at this byte.
    pub fn take(&mut self, at: u64, text: &[u8]) -> Result<(), DataFault>
        requires short { length text.now ≤ 40 }
        ensures no_more { words_left self.new ≤ words_left self.old }
        ensures fewer { OnOk result (words_left self.new + 1 ≤ words_left self.old) }
        ensures step { (end : ℕ) (items : List Item) → GoesOn result (resume self.old end (word at text.now ∷ items)) (λ _. resume self.new end items) }
    {
        match self.stage {
            Stage::Between => self.take_name(at, text),
            Stage::Kind => self.take_kind(at, text),
            Stage::ListCount => self.take_list_count(at, text),
            Stage::Rows => self.take_rows(at, text),
            Stage::Cols(rows) => self.take_cols(rows, at, text),
            Stage::TreeCount => self.take_tree_count(at, text),
            Stage::RoseCount => self.take_rose_count(at, text),
            Stage::Numbers(form, more) => self.take_number(form, more, at, text),
            Stage::Mark(more, places) => self.take_mark(more, places, at, text),
            Stage::Value(more, places, leaf) => self.take_value(more, places, leaf, at, text),
            Stage::RoseValue(more, places) => self.take_rose_value(more, places, at, text),
            Stage::Children(more, places, x) => self.take_children(more, places, x, at, text),
        }
    }

    /// Whether a number is the next word.
    #[inline(always)]
    pub fn awaits_number(&self) -> bool
        ensures { result ≡ awaits_number self.now.stage }
    {
        matches!(
            self.stage,
            Stage::Numbers(..) | Stage::Value(..) | Stage::RoseValue(..)
        )
    }

    /// Takes the number of a word that begins at this byte.
    #[inline(always)]
    pub fn put(&mut self, at: u64, x: i64) -> Result<(), DataFault>
        requires { awaits_number self.old.stage ≡ true }
        ensures no_more { words_left self.new ≤ words_left self.old }
        ensures fewer { OnOk result (words_left self.new + 1 ≤ words_left self.old) }
        ensures step { (end : ℕ) (text : List ℕ) (items : List Item) → length text ≤ 40 → number_of text ≡ Some x
            → GoesOn result (resume self.old end (word at text ∷ items)) (λ _. resume self.new end items) }
    {
        match self.stage {
            Stage::Numbers(form, more) => self.put_number(form, more, x),
            Stage::Value(more, places, leaf) => self.put_value(more, places, leaf, x),
            Stage::RoseValue(more, places) => self.put_rose_value(more, places, at, x),
            _ => unreachable!(),
        }
    }

    /// Whether a mark is the next word.
    #[inline(always)]
    pub fn awaits_mark(&self) -> bool
        ensures { result ≡ awaits_mark self.now.stage }
    {
        matches!(self.stage, Stage::Mark(..))
    }

    /// Takes the mark of a word that begins at this byte.
    #[inline(always)]
    pub fn put_leaf(&mut self, at: u64, leaf: bool) -> Result<(), DataFault>
        requires { awaits_mark self.old.stage ≡ true }
        ensures no_more { words_left self.new ≤ words_left self.old }
        ensures fewer { OnOk result (words_left self.new + 1 ≤ words_left self.old) }
        ensures step { (end : ℕ) (text : List ℕ) (items : List Item) → length text ≤ 40 → mark_of text ≡ Some (mark_of_leaf leaf)
            → GoesOn result (resume self.old end (word at text ∷ items)) (λ _. resume self.new end items) }
    {
        match self.stage {
            Stage::Mark(more, places) => self.put_mark(more, places, at, leaf),
            _ => unreachable!(),
        }
    }

    /// Whether a number of children is the next word.
    #[inline(always)]
    pub fn awaits_count(&self) -> bool
        ensures { result ≡ awaits_count self.now.stage }
    {
        matches!(self.stage, Stage::Children(..))
    }

    /// Takes the number of children of a word that begins at this byte.
    #[inline(always)]
    pub fn put_count(&mut self, at: u64, children: u64) -> Result<(), DataFault>
        requires { awaits_count self.old.stage ≡ true }
        ensures no_more { words_left self.new ≤ words_left self.old }
        ensures fewer { OnOk result (words_left self.new + 1 ≤ words_left self.old) }
        ensures step { (end : ℕ) (text : List ℕ) (items : List Item) → length text ≤ 40 → Some children ≡ option_map (λ n. min n 18446744073709551615) (count_of text)
            → GoesOn result (resume self.old end (word at text ∷ items)) (λ _. resume self.new end items) }
    {
        match self.stage {
            Stage::Children(more, places, x) => self.put_children(more, places, x, at, children),
            _ => unreachable!(),
        }
    }

    /// The sections, where the data ends at this byte.
    #[tactic(auto, unfolding(crate::specs::Resume::resume, crate::specs::Data::sections_at))]
    pub fn finish(self, end: u64) -> Result<Sections, DataFault>
        ensures { Gives (λ s. map section_of s) result (resume self end []) }
    {
        match self.stage {
            Stage::Between => Ok(self.done),
            _ => Err(DataFault::Short(end)),
        }
    }
}
