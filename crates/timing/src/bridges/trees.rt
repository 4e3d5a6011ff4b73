//! The trees that are contracted. Shapes and values come from Marsaglia's xorshift numbers.

ghost use Rattle.std.specs.Prelude.{◌≡◌, ◌≤◌, length, IfOk};

use crate::numbers::{SEED, next_shifted};
use anyhow::{Result, bail};
use bin_tree::Tree;
use op_laws::{List, MAX_ELEMENTS};
use std::alloc::{AllocError, Global};

/// How the inner nodes below an inner node are shared out to its subtrees.
#[derive(Clone, Copy)]
pub(crate) enum Shape {
    /// So many on the left as a number drawn says.
    Random,
    /// All on the left.
    Chain,
    /// A half on each side.
    Balanced,
}

/// The tree of this shape. The number of nodes is odd.
pub(crate) fn tree_of(alloc: Global, shape: Shape, nodes: u32) -> Result<Tree> {
    if nodes % 2 == 0 {
        bail!("NODES is odd");
    }
    let leaf = marks(alloc, shape, nodes)?;
    let values = numbers(alloc, leaf.len())?;
    if values.len() > MAX_ELEMENTS as usize {
        bail!("too many nodes");
    }
    Ok(Tree::from_marks(alloc, leaf, List::of_w64(values))?)
}

// The marks in preorder: what is left to do is a stack of numbers of inner nodes.
fn marks(alloc: Global, shape: Shape, nodes: u32) -> Result<Vec<bool>, AllocError> {
    let mut state = SEED;
    let mut todo: Vec<u32> = Vec::new(alloc);
    let mut leaf = Vec::new(alloc);
    todo.push(nodes / 2)?;
    for _ in 0..nodes {
        let Some(inner) = todo.pop() else {
            break;
        };
        leaf.push(inner == 0)?;
        if inner > 0 {
            let left = left_of(shape, inner - 1, &mut state);
            todo.push(inner - 1 - left)?;
            todo.push(left)?;
        }
    }
    Ok(leaf)
}

// How many of so many inner nodes are on the left.
fn left_of(shape: Shape, inner: u32, state: &mut u64) -> u32
    ensures { result ≤ inner }
{
    match shape {
        Shape::Random => (next_shifted(state) % (u64::from(inner) + 1)) as u32,
        Shape::Chain => inner,
        Shape::Balanced => inner / 2,
    }
}

// Numbers from -524288 to 524287.
fn numbers(alloc: Global, count: usize) -> Result<Vec<i64>, AllocError>
    ensures { IfOk result (λ v. length v.items ≡ count) }
{
    let mut state = SEED;
    let mut numbers = vec![in alloc; 0i64; count]?;
    for i in 0..count {
        numbers[i] = (next_shifted(&mut state) >> 44) as i64 - 524_288;
    }
    Ok(numbers)
}
