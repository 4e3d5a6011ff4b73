//! What no clause says: that the definition of how data fits a script says what was meant of texts.
//! The answers were worked out by hand.
use data_text::{MemShelf, read_data};
use script_lang::read_script;
use script_run::{fit, over_lists};
use std::alloc::{AllocError, Global};
use std::test::Fail;

// One file named d.
fn file(alloc: Global, content: &[u8]) -> Result<Vec<(String, Vec<u8>)>, AllocError> {
    let mut files = Vec::new(alloc);
    files.push((String::from_str(alloc, "d")?, content.to_vec(alloc)?))?;
    Ok(files)
}

// How data fits a script, as text.
fn told(alloc: Global, script: &str, data: &str) -> Result<String, Fail> {
    let script = read_script(alloc, script.as_bytes())?;
    let files = file(alloc, data.as_bytes())?;
    let mut shelf = MemShelf::new(alloc, files, 64, Vec::new(alloc))?;
    let sections = read_data(alloc, &mut shelf, "d")?;
    match fit(&script, &sections) {
        Ok(()) => Ok(String::from_str(alloc, "fits")?),
        Err(fault) => Ok(format!(in alloc; "{fault}")?),
    }
}

#[test]
fn data_fits_or_the_first_input_at_fault_is_told(rt: HostRuntime) -> Result<(), Fail> {
    let rows = [
        ("", "x value 1", "fits"),
        ("input x list", "y list 0 x list 1 5", "fits"),
        ("input x list", "X list 0", "no section for input 0"),
        (
            "input x list",
            "x value 7",
            "another kind of section for input 0",
        ),
        (
            "input x list\nlet y = rev x\ninput z tree",
            "x list 0 z rose 1 5 0",
            "another kind of section for input 1",
        ),
        (
            "input x list\ninput y list like x\ninput z list like y",
            "z list 2 5 6 y list 2 3 4 x list 2 1 2",
            "fits",
        ),
        (
            "input x list\ninput y list like x\ninput z list",
            "y list 3 3 4 5 x list 2 1 2",
            "another shape of section for input 1",
        ),
        (
            "input a matrix\ninput b matrix like a",
            "a matrix 2 3 1 2 3 4 5 6 b matrix 3 2 1 2 3 4 5 6",
            "another shape of section for input 1",
        ),
        (
            "input t tree\ninput u tree like t",
            "t tree 3 N 1 L 2 L 3 u tree 3 N 4 L 5 L 6",
            "fits",
        ),
        (
            "input t tree\ninput u tree like t",
            "t tree 5 N 1 L 2 N 3 L 4 L 5 u tree 5 N 1 N 3 L 4 L 5 L 2",
            "another shape of section for input 1",
        ),
        (
            "input r rose\ninput s rose like r",
            "r rose 3 1 2 2 0 3 0 s rose 3 1 1 2 1 3 0",
            "another shape of section for input 1",
        ),
    ];
    for (script, data, wanted) in rows {
        let text = told(rt.alloc(), script, data)?;
        assert_eq!(rt; text.as_str(), wanted, "{script} over {data}");
    }
    Ok(())
}

#[test]
fn a_script_is_over_lists_where_each_input_is_one(rt: HostRuntime) -> Result<(), Fail> {
    let rows = [
        ("", true),
        (
            "input x list\ninput y list like x\nlet s = reduce add y",
            true,
        ),
        (
            "input x list\nlet y = rev x\ninput a matrix\nprint y",
            false,
        ),
    ];
    for (text, wanted) in rows {
        let script = read_script(rt.alloc(), text.as_bytes())?;
        assert_eq!(rt; over_lists(&script), wanted, "{text}");
    }
    Ok(())
}
