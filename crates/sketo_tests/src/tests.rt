//! What no clause says: that a run answers with ample memory, at each device in memory and through each
//! layer. The expected ends were worked out by hand from the forms of scripts, data and printed text.
use crate::runs::{
    FIVE, RUN, SUM, assert_answer, assert_end, files, lines_of, run, run_in_pieces, run_sure, sink,
};
use outside::SureShelf;
use std::alloc::{AllocError, Global};
use std::test::Fail;
use worker_split::OpenGate;

#[test]
fn a_script_adds_up_a_list(rt: HostRuntime) -> Result<(), Fail> {
    let alloc = rt.alloc();
    for (script, data, out) in [
        (SUM, FIVE, "r value 15\n"),
        (SUM, "x list 0\n", "r value 0\n"),
        (SUM, "x list 1 -7", "r value -7\n"),
        (SUM, "\r\n x\tlist 2\n\n3 -3\n", "r value 0\n"),
        (
            SUM,
            "x list 2 9223372036854775807 9223372036854775807",
            "r value 18446744073709551614\n",
        ),
        (
            SUM,
            "x list 2 -9223372036854775808 -9223372036854775808",
            "r value -18446744073709551616\n",
        ),
        (
            "; the sum\n\ninput numbers list\n\tlet The_Sum = reduce add numbers\nprint The_Sum",
            "numbers list 3 10 20 30",
            "The_Sum value 60\n",
        ),
        (
            SUM,
            "m matrix 1 2 3 4 x list 1 5 t tree 1 L 6 r rose 1 7 0 v value 8",
            "r value 5\n",
        ),
    ] {
        assert_answer(&rt, script, data, out)?;
    }
    Ok(())
}

#[test]
fn a_list_is_reduced_by_its_operator(rt: HostRuntime) -> Result<(), Fail> {
    let alloc = rt.alloc();
    let mixed = "x list 6 3 -4 2 -1 6 -3";
    let greatest = "x list 2 9223372036854775807 9223372036854775807";
    for (op, data, value) in [
        ("add", "x list 0", "0"),
        ("mul", "x list 0", "1"),
        ("min", "x list 0", "9223372036854775807"),
        ("max", "x list 0", "-9223372036854775808"),
        ("and", "x list 0", "-1"),
        ("or", "x list 0", "0"),
        ("xor", "x list 0", "0"),
        ("mss", "x list 0", "0"),
        ("add", greatest, "18446744073709551614"),
        ("mul", greatest, "1"),
        ("mss", mixed, "7"),
        ("mul", mixed, "-432"),
        ("min", mixed, "-4"),
        ("max", mixed, "6"),
        ("and", "x list 3 14 7 -2", "6"),
        ("or", "x list 3 1 4 -8", "-3"),
        ("xor", "x list 3 5 5 -1", "-1"),
    ] {
        let script = format!(in alloc; "input x list\nlet r = reduce {op} x\nprint r\n")?;
        let out = format!(in alloc; "r value {value}\n")?;
        assert_answer(&rt, script.as_str(), data, out.as_str())?;
    }
    for block in ["1", "2", "6"] {
        let line = format!(in alloc; "run s d --block {block}")?;
        let script = Some("input x list\nlet r = reduce mss x\nprint r\n");
        let end = run_sure(&rt, line.as_str(), script, Some(mixed))?;
        assert_end(&rt, &end, 0, "r value 7\n", "", line.as_str());
    }
    Ok(())
}

#[test]
fn scripts_over_other_kinds_are_not_built(rt: HostRuntime) -> Result<(), Fail> {
    let alloc = rt.alloc();
    for script in [
        "input m matrix / print m",
        "input t tree / let r = reduce sum t / print r",
        "input x list / input r rose / let s = reduce add x / print s",
    ] {
        let script = lines_of(alloc, script)?;
        for data in [None, Some(""), Some("x list 1 y"), Some(FIVE)] {
            let end = run_sure(&rt, RUN, Some(script.as_str()), data)?;
            assert_end(&rt, &end, 8, "", "stage: not built\n", script.as_str());
        }
    }
    Ok(())
}

// Lines of this form with 65 names.
fn repeated(alloc: Global, before: &str, after: &str) -> Result<String, AllocError> {
    let mut lines = String::new(alloc);
    for i in 0..65 {
        let line = format!(in alloc; "{before} x{i}{after}\n")?;
        lines.push_str(line.as_str())?;
    }
    Ok(lines)
}

// Scripts, and where they are at fault. Other lines are comments.
const REFUSED_SCRIPTS: &str = "\
; each of the thirteen kinds of fault
input x list / let r = reduce add x x x / print r => line 2, column 24: bad line
input x list / let r = map (+ (+ (+ (+ (+ (+ (+ (+ (+ (+ (+ (+ (+ (+ (+ (+ (+ (+ (+ (+ (+ (+ (+ (+ (+ (+ (+ (+ (+ (+ 1 => line 2, column 100: too deep
input x list / let r = reduce add y / print r => line 2, column 20: unknown name
input x list / let x = reduce add x => line 2, column 5: name used twice
input x tree / let r = scan add x => line 2, column 18: wrong kind
input x list / let r = reduce sum x => line 2, column 16: unknown operator
input a matrix / let r = reduce add min a / print r => line 2, column 20: not abiding
input x list / let r = reduce affine x / print r => line 2, column 16: wrong arity
input x list / let s = scan add x / let u = scan add s / let v = scan add u / print u / print v => line 4, column 14: too wide
input x list / let r = reduce first x => line 2, column 16: no unit
input x list / input y list / let z = zip x y / print z => line 3, column 15: shape differs
input x list / let y = zip x x / let z = zip y x / let w = zip z y => line 4, column 15: tuple too long
; the first line at fault, comments and empty lines counted
; input / input x list /   / let r = reduce add z / print q => line 4, column 20: unknown name";

#[test]
fn a_script_is_refused_at_its_first_fault(rt: HostRuntime) -> Result<(), Fail> {
    let alloc = rt.alloc();
    let mut count = 0u64;
    for row in REFUSED_SCRIPTS.lines() {
        let Some((lines, told)) = row.split_once(" => ") else {
            continue;
        };
        count = count.saturating_add(1);
        let script = lines_of(alloc, lines)?;
        let told = format!(in alloc; "script: s: {told}\n")?;
        for line in [RUN, "check s"] {
            let end = run_sure(&rt, line, Some(script.as_str()), None)?;
            assert_end(&rt, &end, 3, "", told.as_str(), row);
        }
    }
    assert_eq!(rt; count, 13);
    let prints = format!(in alloc;
        "{}{}",
        repeated(alloc, "input", " list")?,
        repeated(alloc, "print", "")?
    )?;
    let end = run_sure(&rt, RUN, Some(prints.as_str()), None)?;
    assert_end(
        &rt,
        &end,
        3,
        "",
        "script: s: line 130, column 1: too many prints\n",
        "65 prints",
    );
    let mut long = String::new(alloc);
    for _ in 0..65_537 {
        long.push('\n')?;
    }
    let end = run_sure(&rt, RUN, Some(long.as_str()), None)?;
    assert_end(
        &rt,
        &end,
        3,
        "",
        "script: s: too long\n",
        "65,537 line feeds",
    );
    Ok(())
}

// Scripts, and the types of their names.
const CHECKED: &str = "\
input x list / let s = scan add x / let u = scan add s / let v = scanr add x => x list w64 / s list w96 / u list w128 / v list w96
input a list / input b list like a / let p = zip a b / let f = reduce affine p / print f => a list w64 / b list w64 / p list (w64,w64) / f value (w64,w64)
input x list / let e = filter (= (and #0 1) 0) x / let s = map (* #0 #0) e / let r = reduce add s => x list w64 / e list w64 / s list w64 / r value w96
input t tree / let u = uacc sum t / let p = dacc turns 0 u => t tree w64 / u tree w96 / p tree w96
input r rose / input m matrix / let c = cols max m => r rose w64 / m matrix w64 / c list w64";

#[test]
fn a_check_tells_the_type_of_each_name(rt: HostRuntime) -> Result<(), Fail> {
    let alloc = rt.alloc();
    let mut count = 0u64;
    for row in CHECKED.lines() {
        let Some((lines, types)) = row.split_once(" => ") else {
            continue;
        };
        count = count.saturating_add(1);
        let (script, out) = (lines_of(alloc, lines)?, lines_of(alloc, types)?);
        let end = run_sure(&rt, "check s", Some(script.as_str()), None)?;
        assert_end(&rt, &end, 0, out.as_str(), "", row);
    }
    assert_eq!(rt; count, 5);
    let end = run_sure(&rt, "check s", None, Some(FIVE))?;
    assert_end(&rt, &end, 5, "", "read: s: failed\n", "an absent script");
    Ok(())
}

// Scripts, and their plans.
const PLANNED: &str = "\
input x list / let r = reduce add x / print r => r = reduce add <- x
input a list / input b list like a / let p = zip a b / let f = reduce affine p / let q = rev p / let g = reduce affine q / print f / print g => p = zip a b / f = reduce affine <- p / g = reduce affine <- rev <- p
input x list / let e = filter (= (and #0 1) 0) x / let s = map (* #0 #0) e / let r = reduce add s / print r => r = reduce add <- map (* #0 #0) <- filter (= (and #0 1) 0) <- x
input x list / let e = filter (= (and #0 1) 0) x / let s = map (* #0 #0) e / let r = reduce add s / print e / print r => e = filter (= (and #0 1) 0) <- x / r = reduce add <- map (* #0 #0) <- e
input t tree / let p = dacc pathsum 0 t / let u = uacc sum t / print p => p = dacc pathsum 0 <- t
input x list / let i = iota x / let e = map (tuple #0 -3) i / let m = reduce affine e / print m => m = reduce affine <- map (tuple #0 -3) <- iota x";

#[test]
fn a_plan_tells_what_is_built(rt: HostRuntime) -> Result<(), Fail> {
    let alloc = rt.alloc();
    let mut count = 0u64;
    for row in PLANNED.lines() {
        let Some((lines, plan)) = row.split_once(" => ") else {
            continue;
        };
        count = count.saturating_add(1);
        let (script, out) = (lines_of(alloc, lines)?, lines_of(alloc, plan)?);
        let end = run_sure(&rt, "plan s", Some(script.as_str()), None)?;
        assert_end(&rt, &end, 0, out.as_str(), "", row);
    }
    assert_eq!(rt; count, 6);
    let end = run_sure(&rt, "plan s", Some("print r\n"), None)?;
    assert_end(
        &rt,
        &end,
        3,
        "",
        "script: s: line 1, column 7: unknown name\n",
        "a fault",
    );
    let end = run_sure(&rt, "plan s", None, Some(FIVE))?;
    assert_end(&rt, &end, 5, "", "read: s: failed\n", "an absent script");
    Ok(())
}

#[test]
fn refused_data_is_told_by_its_first_fault(rt: HostRuntime) -> Result<(), Fail> {
    let alloc = rt.alloc();
    for (data, told) in [
        ("x list 4294967296", "byte 7: too many"),
        ("x list 1 9223372036854775808", "byte 9: bad number"),
        ("x list 1 -9223372036854775809", "byte 9: bad number"),
        ("t tree 3 N 1 L 2", "byte 16: short"),
        ("t tree 3 L 1 L 2 L 3", "byte 13: wrong shape"),
        ("x list 0 x list 0", "byte 9: name used twice"),
        ("x lust 0", "byte 2: unknown kind"),
        ("x list 2 1", "byte 10: short"),
        ("x list 1 1 2", "byte 11: bad word"),
        ("", "x: not there"),
        ("y list 0", "x: not there"),
        ("y list 1 5 z value 3", "x: not there"),
        ("y list 1 5 z", "byte 12: short"),
        ("x matrix 1 1 5", "x: wrong kind"),
        ("x value 5", "x: wrong kind"),
        ("y list 0 x tree 1 L 5", "x: wrong kind"),
        ("x rose 1 5 0", "x: wrong kind"),
    ] {
        let line = format!(in alloc; "data: d: {told}\n")?;
        let end = run_sure(&rt, RUN, Some(SUM), Some(data))?;
        assert_end(&rt, &end, 4, "", line.as_str(), data);
        for piece in [1, 2, 4096] {
            let files = files(alloc, Some(SUM), Some(data))?;
            let end = run_in_pieces(&rt, files, piece, Vec::new(alloc))?;
            assert_end(&rt, &end, 4, "", line.as_str(), data);
        }
    }
    Ok(())
}

#[test]
fn refused_words_end_with_their_line(rt: HostRuntime) -> Result<(), Fail> {
    let alloc = rt.alloc();
    for (line, told) in [
        ("", "words: no command\n"),
        ("run", "words: too few words\n"),
        ("run s", "words: too few words\n"),
        ("run s d d", "words: d: one word too many\n"),
        ("walk s d", "words: walk: unknown command\n"),
        ("run -- d", "words: --: unknown option\n"),
        ("run s --time", "words: --time: unknown option\n"),
        ("run - -", "words: -: standard input twice\n"),
        ("run s d --workers 65", "words: 65: bad number\n"),
        ("run s d --m 2 --m 3", "words: --m: given twice\n"),
        ("run s d --block", "words: --block: no value\n"),
        ("check s --m 2", "words: --m: unknown option\n"),
        ("bridges d 1x", "words: 1x: bad name\n"),
    ] {
        let end = run_sure(&rt, line, Some(SUM), Some(FIVE))?;
        assert_end(&rt, &end, 2, "", told, line);
    }
    Ok(())
}

#[test]
fn settings_change_no_answer_and_other_commands_are_not_built(rt: HostRuntime) -> Result<(), Fail> {
    let alloc = rt.alloc();
    for line in [
        "run s d --m 1 --block 1 --workers 1",
        "run --workers 64 s --block 4294967295 d --m 4294967295",
    ] {
        let end = run_sure(&rt, line, Some(SUM), Some(FIVE))?;
        assert_end(&rt, &end, 0, "r value 15\n", "", line);
    }
    for line in ["bridges d t --m 3", "bridges absent t", "trial 1"] {
        let end = run_sure(&rt, line, Some(SUM), Some(FIVE))?;
        assert_end(&rt, &end, 8, "", "stage: not built\n", line);
    }
    Ok(())
}

#[test]
fn a_file_that_is_absent_is_named(rt: HostRuntime) -> Result<(), Fail> {
    let alloc = rt.alloc();
    for (line, script, data, told) in [
        (RUN, Some(SUM), None, "read: d: failed\n"),
        (RUN, None, Some(FIVE), "read: s: failed\n"),
        (RUN, None, None, "read: s: failed\n"),
        ("run - d", Some(SUM), Some(FIVE), "read: -: failed\n"),
        ("run s -d", Some(SUM), Some(FIVE), "read: -d: failed\n"),
    ] {
        let end = run_sure(&rt, line, script, data)?;
        assert_end(&rt, &end, 5, "", told, told);
    }
    Ok(())
}

#[test]
fn a_failed_read_names_its_file(rt: HostRuntime) -> Result<(), Fail> {
    let alloc = rt.alloc();
    // In pieces of 16 bytes the script of 42 takes a start and four reads, and the data of 19 a start and three.
    for call in 0..9 {
        let mut fails = Vec::new(alloc);
        fails.push(call)?;
        let files = files(alloc, Some(SUM), Some(FIVE))?;
        let end = run_in_pieces(&rt, files, 16, fails)?;
        let file = if call < 5 { "s" } else { "d" };
        let told = format!(in alloc; "read: {file}: failed\n")?;
        let row = format!(in alloc; "call {call}")?;
        assert_end(&rt, &end, 5, "", told.as_str(), row.as_str());
    }
    Ok(())
}

#[test]
fn a_failed_write_is_told_and_a_failed_report_changes_nothing(rt: HostRuntime) -> Result<(), Fail> {
    let alloc = rt.alloc();
    let five = Some(FIVE);
    for (data, out_takes, err_takes, status, out, err) in [
        (five, Some(0), None, 6, "", "write: failed\n"),
        (five, Some(3), None, 6, "r v", "write: failed\n"),
        (five, Some(11), None, 6, "r value 15\n", "write: failed\n"),
        (five, Some(3), Some(3), 6, "r v", "wri"),
        (five, None, Some(3), 0, "r value 15\n", ""),
        (None, None, Some(3), 5, "", "rea"),
        (Some("x"), None, Some(3), 4, "", "dat"),
    ] {
        let mut shelf = SureShelf::new(alloc, files(alloc, Some(SUM), data)?);
        let (to_out, to_err) = (sink(alloc, out_takes)?, sink(alloc, err_takes)?);
        let end = run(&rt, RUN, &mut shelf, to_out, to_err, &OpenGate)?;
        let row = format!(in alloc; "status {status}, output takes {out_takes:?}")?;
        assert_end(&rt, &end, status, out, err, row.as_str());
    }
    Ok(())
}
