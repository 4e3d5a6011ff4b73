//! A text of several pieces, whose puts and reads fail one by one.
use crate::runs::{RUN, assert_end, files, run, run_in_pieces, run_sure, sink};
use outside::{MemSink, SureShelf};
use std::alloc::{AllocError, Global};
use std::test::Fail;
use worker_split::OpenGate;

// The data of a list of 10,000 ones, which is also what is printed of it, but for the line feed.
fn ones(alloc: Global) -> Result<String, AllocError> {
    let mut text = String::from_str(alloc, "x list 10000")?;
    for _ in 0..10_000u32 {
        text.push_str(" 1")?;
    }
    Ok(text)
}

#[test]
fn what_went_out_before_a_failed_write_stays(rt: HostRuntime) -> Result<(), Fail> {
    let alloc = rt.alloc();
    let text = ones(alloc)?;
    let (script, data) = (Some("input x list\nprint x\n"), Some(text.as_str()));
    for call in 0..5u32 {
        for takes in [0u32, 5] {
            let mut fails = Vec::new(alloc);
            fails.push((call, takes))?;
            let out = MemSink::new(alloc, 100_000, fails)?;
            let mut shelf = SureShelf::new(alloc, files(alloc, script, data)?);
            let end = run(&rt, RUN, &mut shelf, out, sink(alloc, None)?, &OpenGate)?;
            assert_eq!(rt; end.status, 6, "put {call} takes {takes}");
            assert_eq!(rt; end.err.bytes(), b"write: failed\n".as_slice());
            let sent = call as usize * 4096 + takes as usize;
            assert_eq!(rt;
                Some(end.out.bytes()),
                text.as_bytes().get(..sent),
                "put {call} takes {takes}"
            );
        }
    }
    let end = run_sure(&rt, RUN, script, data)?;
    assert_eq!(rt; end.status, 0);
    assert_eq!(rt; end.out.bytes().len(), 20_013);
    assert_eq!(rt; end.out.bytes().get(..20_012), Some(text.as_bytes()));
    Ok(())
}

#[test]
fn a_failed_read_of_the_data_leaves_output_empty(rt: HostRuntime) -> Result<(), Fail> {
    let alloc = rt.alloc();
    let text = ones(alloc)?;
    let files = files(alloc, Some("input x list\nprint x\n"), Some(text.as_str()))?;
    let mut fails = Vec::new(alloc);
    fails.push(4)?;
    let end = run_in_pieces(&rt, files, 4096, fails)?;
    assert_end(
        &rt,
        &end,
        5,
        "",
        "read: d: failed\n",
        "the first read of the data",
    );
    Ok(())
}
