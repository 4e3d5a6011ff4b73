//! What no clause says: that scripts are read, and their types written, with ample memory. The
//! texts show what the definition means.
use data_text::{MemSink, Outlet};
use script_lang::{MAX_SCRIPT_BYTES, read_script, write_types};
use std::alloc::Global;
use std::test::Fail;

// The text of a script's types, or its first fault.
fn told(alloc: Global, script: &[u8]) -> Result<String, Fail> {
    match read_script(alloc, script) {
        Ok(script) => {
            let mut sink = MemSink::new(alloc, 4_096, Vec::new(alloc))?;
            let mut outlet = Outlet::new();
            let is_given = write_types(&script, &mut outlet, &mut sink).is_ok();
            let is_whole = outlet.finish(&mut sink).is_ok();
            let text = str::from_utf8(sink.bytes())?;
            Ok(format!(in alloc; "{text}{is_given} {is_whole}")?)
        }
        Err(fault) => Ok(format!(in alloc; "{fault}")?),
    }
}

#[test]
fn a_script_is_typed_or_refused_at_its_first_fault(rt: HostRuntime) -> Result<(), Fail> {
    let rows = [
        ("", "true true"),
        (
            "; pairs\n\ninput a list\ninput b list like a\r\nlet p = zip a b\n\
             let f = reduce affine p\nlet q = rev p\nprint f",
            "a list w64\nb list w64\np list (w64,w64)\nf value (w64,w64)\nq list (w64,w64)\ntrue true",
        ),
        (
            "input t tree\nlet m = mapln (tuple #0 (+ #0 1) 2) (tuple 1 2 #0) t\n\
             let n = map (tuple #0 #1 #2 (if (< #0 0) (- 0 #0) #0)) m",
            "t tree w64\nm tree (w64,w96,w64)\nn tree (w64,w96,w64,w96)\ntrue true",
        ),
        (
            "input x list\nlet s = scan add x\nlet u = scan add s\nlet v = scan add u",
            "line 4, column 14: TooWide",
        ),
        (
            "input a matrix\nlet r = reduce add min a\nprint r",
            "line 2, column 20: NotAbiding",
        ),
        (
            "input x list\ninput y list\nlet z = zip x y\nprint z",
            "line 3, column 15: ShapeDiffers",
        ),
        (
            "input x list\nlet y = map (and (+ #0 #0) #1) x",
            "line 2, column 28: WrongArity",
        ),
    ];
    for (script, wanted) in rows {
        let text = told(rt.alloc(), script.as_bytes())?;
        assert_eq!(rt; text.as_str(), wanted, "in {script}");
    }
    for (length, wanted) in [
        (65_536usize, "true true"),
        (65_537, "the script is too long"),
    ] {
        let mut script = Vec::new(rt.alloc());
        script.resize(length, b'\n')?;
        let text = told(rt.alloc(), &script)?;
        assert_eq!(rt; text.as_str(), wanted, "at {length} bytes");
    }
    Ok(())
}

// A script of a list and as many lines as fit, each of which turns round the list of the line before.
fn chain(alloc: Global) -> Result<String, Fail> {
    let mut script = format!(in alloc; "input x0 list\n")?;
    for i in 0..10_000u32 {
        if script.len() >= MAX_SCRIPT_BYTES - 40 {
            break;
        }
        let line = format!(in alloc; "let x{} = rev x{i}\n", i + 1)?;
        script.push_str(&line)?;
    }
    Ok(script)
}

// A script with one function of 16,383 nodes, 14 deep.
fn products(alloc: Global) -> Result<String, Fail> {
    let mut scalar = format!(in alloc; "1")?;
    for _ in 0..13 {
        scalar = format!(in alloc; "(* {scalar} {scalar})")?;
    }
    Ok(format!(in alloc; "input x list\nlet y = map {scalar} x\nlet z = rev q")?)
}

// The longest scripts of a long and of a wide kind are read within a test's time.
#[test]
fn the_longest_scripts_are_read(rt: HostRuntime) -> Result<(), Fail> {
    let long = chain(rt.alloc())?;
    assert!(rt; read_script(rt.alloc(), long.as_bytes())?.lines() > 3_000);
    let wide = products(rt.alloc())?;
    assert!(rt; wide.len() > 49_000);
    let text = told(rt.alloc(), wide.as_bytes())?;
    assert_eq!(rt; text.as_str(), "line 3, column 13: UnknownName");
    Ok(())
}
