//! What no clause says: that plans are made and written with ample memory. The rows show what the
//! definition means on whole scripts.
use data_text::{MemSink, Outlet};
use fuse_rewrite::{plan_of, write_plan};
use script_lang::{Script, read_script};
use std::alloc::Global;
use std::test::Fail;

// Scripts, their lines separated by ` / `, each with its plan.
const ROWS: &str = "\
input x list / let r = reduce add x / print r => r = reduce add <- x
input x list / let e = filter (= (and #0 1) 0) x / let s = map (* #0 #0) e / let r = reduce add s / print r => r = reduce add <- map (* #0 #0) <- filter (= (and #0 1) 0) <- x
input x list / let e = filter (= (and #0 1) 0) x / let s = map (* #0 #0) e / let r = reduce add s / print e / print r => e = filter (= (and #0 1) 0) <- x / r = reduce add <- map (* #0 #0) <- e
input a list / input b list like a / let p = zip a b / let f = reduce affine p / print f => f = reduce affine <- zip a b
input a list / input b list like a / let p = zip a b / let f = reduce affine p / let q = rev p / let g = reduce affine q / print f / print g => p = zip a b / f = reduce affine <- p / g = reduce affine <- rev <- p
input x list / let s = map (+ #0 1) x / let u = scan add s / let p = plain x / let r = reduce max s / print r => r = reduce max <- map (+ #0 1) <- x
input x list / let r = rev x / let p = plain r / let m = map (if #0 (wrap (min 1 -2)) #0) p / let s = scanr xor m / print s => p = plain <- rev <- x / s = scanr xor <- map (if #0 (wrap (min 1 -2)) #0) <- p
input t tree / let d = dacc pathsum 03 t / let k = mapln (tuple #0 1) (tuple 2 #0) t / let g = getchl -5 t / let h = reduce heavy t / print d / print k / print g / print h => d = dacc pathsum 3 <- t / k = mapln (tuple #0 1) (tuple 2 #0) <- t / g = getchl -5 <- t / h = reduce heavy <- t
input m matrix / let s = scan add add m / let t = transpose s / let w = rows max t / let r = reduce min w / print r => s = scan add add <- m / t = transpose <- s / w = rows max <- t / r = reduce min <- w";

// The text of a script's plan, with the two answers of writing it.
fn planned(alloc: Global, script: &str) -> Result<String, Fail> {
    let bytes = script.replace(alloc, " / ", "\n")?;
    let script = read_script(alloc, bytes.as_bytes())?;
    let plan = plan_of(alloc, &script)?;
    let mut sink = MemSink::new(alloc, 4_096, Vec::new(alloc))?;
    let mut outlet = Outlet::new();
    let is_given = write_plan(&script, &plan, &mut outlet, &mut sink).is_ok();
    let is_whole = outlet.finish(&mut sink).is_ok();
    let text = str::from_utf8(sink.bytes())?;
    Ok(format!(in alloc; "{text}{is_given} {is_whole}")?)
}

#[test]
fn a_script_has_one_step_for_each_name_that_is_kept(rt: HostRuntime) -> Result<(), Fail> {
    let mut count = 0u64;
    for row in ROWS.lines() {
        let (script, plan) = row.split_once(" => ").ok_or("a row")?;
        let lines = plan.replace(rt.alloc(), " / ", "\n")?;
        let wanted = format!(in rt.alloc(); "{lines}\ntrue true")?;
        let text = planned(rt.alloc(), script)?;
        assert_eq!(rt; text.as_str(), wanted.as_str(), "in {script}");
        count = count.saturating_add(1);
    }
    assert_eq!(rt; count, 9);
    Ok(())
}

// A script of a list and of 300 lines, each of which keeps the list of the line before.
fn kept_lists(alloc: Global) -> Result<String, Fail> {
    let mut script = format!(in alloc; "input n0 list\n")?;
    for i in 0..300u32 {
        let line = format!(in alloc; "let n{} = plain n{i}\n", i + 1)?;
        script.push_str(&line)?;
    }
    script.push_str("print n300")?;
    Ok(script)
}

// The text of such a script's plan fills more than one piece, and the sink takes 5 bytes of the first.
#[test]
fn a_plan_is_cut_off_where_the_sink_fails(rt: HostRuntime) -> Result<(), Fail> {
    let alloc = rt.alloc();
    let text = kept_lists(alloc)?;
    let script = read_script(alloc, text.as_bytes())?;
    let plan = plan_of(alloc, &script)?;
    assert_eq!(rt; plan.steps().len(), 300);
    let fails = vec![in alloc; (0u32, 5u32)]?;
    let mut sink = MemSink::new(alloc, 8_192, fails)?;
    let mut outlet = Outlet::new();
    assert!(rt; write_plan(&script, &plan, &mut outlet, &mut sink).is_err());
    assert_eq!(rt; str::from_utf8(sink.bytes())?, "n1 = ");
    assert!(rt; write_plan(&script, &plan, &mut outlet, &mut sink).is_err());
    assert_eq!(rt; sink.bytes().len(), 5);
    Ok(())
}

#[test]
fn a_line_with_a_step_is_kept_and_no_other(rt: HostRuntime) -> Result<(), Fail> {
    let alloc = rt.alloc();
    let text =
        "input x list\nlet e = filter #0 x\nlet s = map (* #0 #0) e\nlet r = reduce add s\nprint e\nprint r";
    let script = read_script(alloc, text.as_bytes())?;
    let plan = plan_of(alloc, &script)?;
    for (line, wanted) in [
        (0u32, false),
        (1, true),
        (2, false),
        (3, true),
        (4, false),
        (5, false),
        (6, false),
    ] {
        assert_eq!(rt; plan.kept(line), wanted, "line {line}");
    }
    Ok(())
}
