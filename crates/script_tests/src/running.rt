//! What no clause says: that scripts run where there is memory, whatever the size of blocks and the
//! number of workers, and that what they print is what was meant. The texts were worked out by hand.

ghost use Rattle.std.specs.Prelude.{◌≤◌};
ghost use Rattle.worker_split.specs.declared.board.TheConstants.{MAX_WORKERS};

use data_text::{MemShelf, MemSink, Named, Outlet, Sections, read_data, write_values};
use fuse_rewrite::plan_of;
use script_lang::{Script, read_script};
use script_run::{Settings, fit, over_lists, run_script};
use std::alloc::{AllocError, Global};
use std::test::Fail;
use std::thread::Threads;
use worker_split::OpenGate;

// The sections of a file.
fn sections_of(alloc: Global, data: &str) -> Result<Sections, Fail> {
    let mut files = Vec::new(alloc);
    files.push((
        String::from_str(alloc, "d")?,
        data.as_bytes().to_vec(alloc)?,
    ))?;
    let mut shelf = MemShelf::new(alloc, files, 64, Vec::new(alloc))?;
    Ok(read_data(alloc, &mut shelf, "d")?)
}

// The lines of these values.
fn text_of(alloc: Global, values: &[Named]) -> Result<String, Fail> {
    let mut sink = MemSink::new(alloc, 2_000, Vec::new(alloc))?;
    let mut outlet = Outlet::new();
    write_values(values, &mut outlet, &mut sink)?;
    outlet.finish(&mut sink)?;
    Ok(String::from_utf8(sink.bytes().to_vec(alloc)?)?)
}

// What a script over lists prints of data that fits it.
fn ran<R: Threads + Sync>(
    rt: &R,
    alloc: Global,
    script: &Script,
    sections: Sections,
    settings: Settings,
) -> Result<String, Fail>
    requires block { 1 ≤ settings.block }
    requires some_workers { 1 ≤ settings.workers }
    requires few_workers { settings.workers ≤ MAX_WORKERS }
{
    let Ok(()) = fit(script, &sections) else {
        return Err(AllocError.into());
    };
    if !over_lists(script) {
        return Err(AllocError.into());
    }
    let plan = plan_of(alloc, script)?;
    let values = run_script(rt, alloc, script, &plan, sections, settings, &OpenGate)?;
    text_of(alloc, values.as_slice())
}

#[test]
fn scripts_over_lists_print_what_they_mean(rt: HostRuntime) -> Result<(), Fail> {
    let rows = [
        ("", "", ""),
        ("input x list\nprint x", "x list 2 1 -2", "x list 2 1 -2\n"),
        (
            "input x list\nlet e = filter (= (and #0 1) 0) x\nlet s = map (* #0 #0) e\nlet r = reduce add s\nprint r",
            "x list 6 1 2 3 4 5 6",
            "r value 56\n",
        ),
        (
            "input a list\ninput b list like a\nlet p = zip a b\nlet f = reduce affine p\nlet q = rev p\nlet g = reduce affine q\nprint g\nprint f",
            "b list 3 1 0 5 a list 3 2 3 1",
            "g value (6,31)\nf value (6,8)\n",
        ),
        (
            "input x list\nlet s = scan add x\nlet u = scan add s\nlet v = scanr add x\nprint u\nprint x\nprint v",
            "y value 7 x list 3 1 2 3",
            "u list 3 1 4 10\nx list 3 1 2 3\nv list 3 6 5 3\n",
        ),
        (
            "input x list\nlet i = iota x\nlet p = plain x\nlet m = map (+ #0 1) p\nlet n = map (* #0 #0) p\nlet z = zip n i\nprint z\nprint m",
            "x list 2 -7 5",
            "z list 2 (49,0) (25,1)\nm list 2 -6 6\n",
        ),
        (
            "input x list\nlet r = reduce max x\nlet s = reduce mul x\nlet e = scanr min x\nprint s\nprint e",
            "x list 0",
            "s value 1\ne list 0\n",
        ),
    ];
    for (script, data, wanted) in rows {
        let script = read_script(rt.alloc(), script.as_bytes())?;
        for block in [1, 2, 4096] {
            for workers in [1, 3] {
                let settings = Settings {
                    m: 1024,
                    block,
                    workers,
                };
                let sections = sections_of(rt.alloc(), data)?;
                let text = ran(&rt, rt.alloc(), &script, sections, settings)?;
                assert_eq!(rt; text.as_str(), wanted, "{data} with {settings:?}");
            }
        }
    }
    Ok(())
}
