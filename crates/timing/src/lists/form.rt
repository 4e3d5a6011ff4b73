//! The forms that are timed.

use crate::functions::{even, square};
use anyhow::{Result, bail};
use list_fusion::Pipe;
use list_skel::{Cut, reduce, scan};
use op_catalog::{Mss, Sum};
use op_laws::{Lifted, List, Monoid};
use std::alloc::Global;
use std::thread::Threads;
use worker_split::OpenGate;

/// What is done with the numbers.
#[derive(Clone, Copy, Debug)]
pub(crate) enum Form {
    /// The sum.
    Add,
    /// The greatest sum of a segment.
    Mss,
    /// The sum of the squares of the even numbers.
    Kept,
    /// All prefix sums.
    Scan,
    /// Nothing.
    List,
}

impl Form {
    /// The form of a name.
    pub(crate) fn of_name(name: &str) -> Result<Form> {
        match name {
            "add" => Ok(Form::Add),
            "mss" => Ok(Form::Mss),
            "kept" => Ok(Form::Kept),
            "scan" => Ok(Form::Scan),
            "list" => Ok(Form::List),
            _ => bail!("no form {name}"),
        }
    }

    /// What a pipe of numbers comes to: of a scan, the middle one of its numbers.
    pub(crate) fn run<R: Threads + Sync>(
        self,
        rt: &R,
        alloc: Global,
        pipe: &mut Pipe,
        cut: Cut,
    ) -> Result<i128> {
        match self {
            Form::Add => reduced(rt, alloc, pipe, &Sum::<64>::new(), cut),
            Form::Mss => reduced(rt, alloc, pipe, &Mss::<64>::new(), cut),
            Form::Kept => {
                keep_squares(alloc, pipe)?;
                reduced(rt, alloc, pipe, &Sum::<64>::new(), cut)
            }
            Form::Scan => middle(&scanned(rt, alloc, pipe, cut)?),
            Form::List => Ok(0),
        }
    }
}

fn reduced<R: Threads + Sync, M: Monoid + Sync>(
    rt: &R,
    alloc: Global,
    pipe: &Pipe,
    op: &M,
    cut: Cut,
) -> Result<i128>
where
    M::C: Send + Sync,
{
    if !op.accepts(pipe.ty()) {
        bail!("no operator for the list");
    }
    let result = reduce(rt, alloc, pipe, op, cut, &OpenGate)?;
    if result.len() == 0 {
        bail!("no number");
    }
    Ok(result.at(0))
}

fn scanned<R: Threads + Sync>(rt: &R, alloc: Global, pipe: &Pipe, cut: Cut) -> Result<List> {
    let op = Sum::<64>::new();
    if !op.accepts(pipe.ty()) {
        bail!("no operator for the list");
    }
    Ok(scan(rt, alloc, pipe, &op, cut, &OpenGate)?)
}

fn keep_squares(alloc: Global, pipe: &mut Pipe) -> Result<()> {
    let keeps = even(alloc, pipe.ty())?;
    if keeps.gives().len() != 1 {
        bail!("no function for the list");
    }
    pipe.keep(keeps)?;
    let squares = square(alloc, pipe.ty())?;
    pipe.map(squares)?;
    Ok(())
}

fn middle(list: &List) -> Result<i128> {
    let at = list.len() / 2;
    if at >= list.len() || list.ty().len() == 0 {
        bail!("no number");
    }
    Ok(list.at(at).at(0))
}
