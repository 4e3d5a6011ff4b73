//! Scripts over lists, whose values were worked out by hand from the definitions.
use crate::runs::{RUN, assert_answer, assert_end, lines_of, run_sure};
use std::test::Fail;

// Scripts, data, and what is printed.
const ANSWERED: &str = "\
input x list / let a = reduce add x / let b = reduce mul x / let c = reduce min x / let e = scan add x / print a / print b / print c / print e => x list 0 => a value 0 / b value 1 / c value 9223372036854775807 / e list 0
input x list / let a = reduce add x / let b = reduce mul x / print a / print b => x list 2 9223372036854775807 9223372036854775807 => a value 18446744073709551614 / b value 1
input x list / let s = scan add x / let u = scan add s / let v = scanr add x / print u / print v => x list 3 1 2 3 => u list 3 1 4 10 / v list 3 6 5 3
input x list / let r = reduce mss x / print r => x list 6 3 -4 2 -1 6 -3 => r value 7
input a list / input b list like a / let p = zip a b / let f = reduce affine p / let q = rev p / let g = reduce affine q / print f / print g => a list 3 2 3 1 b list 3 1 0 5 => f value (6,8) / g value (6,31)
input x list / let e = filter (= (and #0 1) 0) x / let s = map (* #0 #0) e / let r = reduce add s / print r => x list 6 1 2 3 4 5 6 => r value 56
input x list / let e = filter (= (and #0 1) 0) x / let s = map (* #0 #0) e / let r = reduce add s / print e / print r => x list 6 1 2 3 4 5 6 => e list 3 2 4 6 / r value 56
input x list / input y list like x / let z = zip x y / let m = map (* #0 #1) z / let r = reduce add m / print r => x list 3 2 3 4 y list 3 5 6 7 => r value 56
input x list / let e = filter 0 x / let r = reduce mul e / print r => x list 6 1 2 3 4 5 6 => r value 1
input x list / let e = filter 0 x / let s = scan add e / let m = map (+ #0 1) e / print s / print m / print e => x list 3 1 2 3 => s list 0 / m list 0 / e list 0
input x list / print x => x list 3 -1 0 9223372036854775807 => x list 3 -1 0 9223372036854775807
input x list / input y list / print y / print x => x list 1 1 y list 2 2 3 => y list 2 2 3 / x list 1 1
input x list / let p = zip x x / print p => x list 2 5 -6 => p list 2 (5,5) (-6,-6)
input x list / let r = rev x / let s = rev r / print r / print s => x list 3 1 2 3 => r list 3 3 2 1 / s list 3 1 2 3
input x list / let i = iota x / let r = rev i / let m = map (tuple #0 (* #0 #0)) r / print m => x list 3 7 7 7 => m list 3 (2,4) (1,1) (0,0)
input x list / let y = plain x / let z = plain y / print y / print z => x list 2 4 5 => y list 2 4 5 / z list 2 4 5
input x list / let s = scan max x / let t = scanr min x / print s / print t => x list 5 2 1 3 0 4 => s list 5 2 2 3 3 4 / t list 5 0 0 0 0 4
input x list / let f = scan first x / let l = scanr last x / print f / print l => x list 3 7 8 9 => f list 3 7 7 7 / l list 3 9 9 9
input x list / let s = scan add x / let e = filter (< 3 #0) s / let r = reduce add e / print r => x list 4 1 2 3 4 => r value 16
input x list / let e = filter (< 2 #0) x / let s = scan add e / print s => x list 5 1 5 2 3 4 => s list 3 5 8 12
input x list / let y = map (+ #0 1) x / let unused = scan add y / print x => x list 2 1 2 => x list 2 1 2
input x list / let a = rev x / let p = zip x a / let d = map (* #0 #1) p / let s = scanr add d / print s => x list 3 1 2 3 => s list 3 10 7 3
 =>  =>";

// Ways to cut a run: each size of block and number of workers that matters to six elements.
const SETTINGS: &str = "\
run s d
run s d --block 1 --workers 1
run s d --block 1 --workers 64
run s d --block 2 --workers 1
run s d --block 2 --workers 2
run s d --block 3 --workers 64
run s d --block 6 --workers 2
run s d --block 4294967295 --workers 64 --m 1";

#[test]
fn list_scripts_answer_for_every_cut(rt: HostRuntime) -> Result<(), Fail> {
    let alloc = rt.alloc();
    let mut rows = 0u64;
    for row in ANSWERED.lines() {
        let Some((script, rest)) = row.split_once(" =>") else {
            continue;
        };
        let Some((data, out)) = rest.split_once(" =>") else {
            continue;
        };
        rows = rows.saturating_add(1);
        let (script, out) = (lines_of(alloc, script)?, lines_of(alloc, out.trim())?);
        let (script, out) = (script.as_str(), out.as_str().trim_start());
        for line in SETTINGS.lines() {
            let end = run_sure(&rt, line, Some(script), Some(data))?;
            assert_end(&rt, &end, 0, out, "", row);
        }
        assert_answer(&rt, script, data, out)?;
    }
    assert_eq!(rt; rows, 23);
    Ok(())
}

// Scripts, data, and the line that tells how it doesn't fit.
const UNFIT: &str = "\
input x list / input y list like x / let z = zip x y / print z => x list 1 1 y list 2 1 2 => y: not like x
input x list / input y list like x / input z list like y / print z => x list 1 1 y list 1 2 z list 0 => z: not like y
input x list / input y list / print x => x list 1 1 => y: not there
input x list / input y list like x / print x => y list 1 1 => x: not there
input x list / print x => x value 1 => x: wrong kind
input x list / input y list like x / print x => x list 1 1 y tree 1 L 5 => y: wrong kind
input x list / input y list like x / input z list / print x => x list 1 1 y list 2 1 2 => y: not like x";

#[test]
fn data_that_does_not_fit_is_told_by_its_input(rt: HostRuntime) -> Result<(), Fail> {
    let alloc = rt.alloc();
    let mut rows = 0u64;
    for row in UNFIT.lines() {
        let Some((script, rest)) = row.split_once(" => ") else {
            continue;
        };
        let Some((data, told)) = rest.split_once(" => ") else {
            continue;
        };
        rows = rows.saturating_add(1);
        let script = lines_of(alloc, script)?;
        let told = format!(in alloc; "data: d: {told}\n")?;
        let end = run_sure(&rt, RUN, Some(script.as_str()), Some(data))?;
        assert_end(&rt, &end, 4, "", told.as_str(), row);
    }
    assert_eq!(rt; rows, 7);
    Ok(())
}
