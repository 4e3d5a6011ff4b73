//! What no clause says of printing: what the text of each kind looks like, with elements of one to four numbers,
//! and that the text of every kind is read back. The texts were written by hand.
use bin_tree::{Rose, Tree};
use data_text::{
    MemSink, Name, Named, Outlet, SureShelf, Value, is_name, read_data, write_value, write_values,
};
use op_laws::{ElemType, List, MAX_ELEMENTS, Matrix, Tup, Width};
use std::alloc::{AllocError, Global};
use std::process::Abort;
use std::test::Fail;

// So many of the elements, from the first on.
fn list(alloc: Global, ty: ElemType, elements: &[Tup], count: usize) -> Result<List, Fail> {
    let mut xs = List::new(alloc, ty);
    for t in elements.iter().take(count) {
        if !xs.ty().admits(*t) || xs.len() == MAX_ELEMENTS {
            return Err(AllocError.into());
        }
        xs.push(*t)?;
    }
    Ok(xs)
}

fn named(alloc: Global, name: &[u8], value: Value) -> Result<Named, Fail> {
    if !is_name(name) {
        return Err(AllocError.into());
    }
    Ok(Named {
        name: Name::of(alloc, name)?,
        value,
    })
}

// A value of each kind with these six elements, or with the first of them.
fn values(alloc: Global, ty: ElemType, elements: &[Tup; 6]) -> Result<Vec<Named>, Fail> {
    let mut all = Vec::new(alloc);
    all.push(named(alloc, b"v", Value::Single(ty, elements[0]))?)?;
    all.push(named(alloc, b"x", Value::List(list(alloc, ty, elements, 2)?))?)?;
    all.push(named(alloc, b"e", Value::List(list(alloc, ty, elements, 0)?))?)?;
    let cells = list(alloc, ty, elements, 6)?;
    if cells.len() == 6 {
        all.push(named(alloc, b"m", Value::Matrix(Matrix::of_cells(2, 3, cells)))?)?;
    }
    let leaf = [false, true, false, true, true].to_vec(alloc)?;
    let nodes = list(alloc, ty, elements, 5)?;
    if nodes.len() == 5 {
        all.push(named(
            alloc,
            b"t",
            Value::Tree(Tree::from_marks(alloc, leaf, nodes)?),
        )?)?;
    }
    let counts = [2u32, 0, 1, 0].to_vec(alloc)?;
    let nodes = list(alloc, ty, elements, 4)?;
    if nodes.len() == 4 {
        all.push(named(
            alloc,
            b"r",
            Value::Rose(Rose::from_counts(alloc, counts, nodes)?),
        )?)?;
    }
    Ok(all)
}

// The lines of these values.
fn lines(alloc: Global, values: &[Named]) -> Result<String, Fail> {
    let mut sink = MemSink::new(alloc, 2_000, Vec::new(alloc))?;
    let mut outlet = Outlet::new();
    write_values(values, &mut outlet, &mut sink)?;
    outlet.finish(&mut sink)?;
    Ok(String::from_utf8(sink.bytes().to_vec(alloc)?)?)
}

// The lines of a value of each kind, where these are the texts of the six elements.
fn expected(alloc: Global, e: &[&str; 6]) -> Result<String, Fail> {
    let [a, b, c, d, f, g] = *e;
    Ok(format!(in alloc;
        "v value {a}\nx list 2 {a} {b}\ne list 0\nm matrix 2 3 {a} {b} {c} {d} {f} {g}\n\
         t tree 5 N {a} L {b} N {c} L {d} L {f}\nr rose 4 {a} 2 {b} 0 {c} 1 {d} 0\n"
    )?)
}

const LEAST_64: i128 = -9_223_372_036_854_775_808;

const MOST_128: i128 = 170_141_183_460_469_231_731_687_303_715_884_105_727;

fn assert_printed(
    rt: &impl Abort,
    alloc: Global,
    ty: ElemType,
    elements: &[Tup; 6],
    texts: &[&str; 6],
) -> Result<(), Fail> {
    let text = lines(alloc, &values(alloc, ty, elements)?)?;
    assert_eq!(rt; text, expected(alloc, texts)?);
    Ok(())
}

#[test]
fn elements_of_one_number_are_printed_in_each_kind(rt: HostRuntime) -> Result<(), Fail> {
    assert_printed(
        &rt,
        rt.alloc(),
        ElemType::one(Width::W64),
        &[
            Tup::one(1),
            Tup::one(-2),
            Tup::one(30),
            Tup::one(LEAST_64),
            Tup::one(0),
            Tup::one(-6),
        ],
        &["1", "-2", "30", "-9223372036854775808", "0", "-6"],
    )
}

#[test]
fn elements_of_two_numbers_are_printed_in_each_kind(rt: HostRuntime) -> Result<(), Fail> {
    assert_printed(
        &rt,
        rt.alloc(),
        ElemType::one(Width::W64).push(Width::W128),
        &[
            Tup::two(1, MOST_128),
            Tup::two(-2, 10),
            Tup::two(3, -20),
            Tup::two(-4, 30),
            Tup::two(5, -40),
            Tup::two(-6, 50),
        ],
        &[
            "(1,170141183460469231731687303715884105727)",
            "(-2,10)",
            "(3,-20)",
            "(-4,30)",
            "(5,-40)",
            "(-6,50)",
        ],
    )
}

#[test]
fn elements_of_three_numbers_are_printed_in_each_kind(rt: HostRuntime) -> Result<(), Fail> {
    assert_printed(
        &rt,
        rt.alloc(),
        ElemType::one(Width::W128).push(Width::W64).push(Width::W96),
        &[
            Tup::three(1, 0, 7),
            Tup::three(-2, 10, -7),
            Tup::three(3, -20, 70),
            Tup::three(-4, 30, -70),
            Tup::three(5, -40, 700),
            Tup::three(-6, 50, -700),
        ],
        &[
            "(1,0,7)",
            "(-2,10,-7)",
            "(3,-20,70)",
            "(-4,30,-70)",
            "(5,-40,700)",
            "(-6,50,-700)",
        ],
    )
}

#[test]
fn elements_of_four_numbers_are_printed_in_each_kind(rt: HostRuntime) -> Result<(), Fail> {
    assert_printed(
        &rt,
        rt.alloc(),
        ElemType::one(Width::W64)
            .push(Width::W64)
            .push(Width::W64)
            .push(Width::W64),
        &[
            Tup::four(1, 0, 7, 9),
            Tup::four(-2, 10, -7, 8),
            Tup::four(3, -20, 70, 7),
            Tup::four(-4, 30, -70, 6),
            Tup::four(5, -40, 700, 5),
            Tup::four(-6, 50, -700, 4),
        ],
        &[
            "(1,0,7,9)",
            "(-2,10,-7,8)",
            "(3,-20,70,7)",
            "(-4,30,-70,6)",
            "(5,-40,700,5)",
            "(-6,50,-700,4)",
        ],
    )
}

#[test]
fn what_is_printed_of_each_kind_is_read_back(rt: HostRuntime) -> Result<(), Fail> {
    let alloc = rt.alloc();
    let texts = ["1", "-2", "30", "-9223372036854775808", "0", "-6"];
    let text = expected(alloc, &texts)?;
    let mut files = Vec::new(alloc);
    files.push((
        String::from_str(alloc, "d")?,
        text.as_bytes().to_vec(alloc)?,
    ))?;
    let mut shelf = SureShelf::new(alloc, files);
    let sections = read_data(alloc, &mut shelf, "d")?;
    assert_eq!(rt; sections.len(), 6);
    let mut sink = MemSink::new(alloc, 2_000, Vec::new(alloc))?;
    let mut outlet = Outlet::new();
    for i in 0..sections.len() {
        write_value(sections.at(i), &mut outlet, &mut sink)?;
    }
    outlet.finish(&mut sink)?;
    assert_eq!(rt; sink.bytes(), text.as_bytes());
    Ok(())
}
