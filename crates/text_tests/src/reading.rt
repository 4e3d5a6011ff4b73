//! What no clause says: that calls answer with ample memory, and that the definition of the data format
//! says what was meant. The answers in the tables were worked out by hand.
use data_text::{
    DataFault, MemShelf, MemSink, Name, Named, Outlet, Sections, SureShelf, Value, is_name,
    read_data, write_value,
};
use op_laws::List;
use std::alloc::{AllocError, Global};
use std::test::Fail;

// One file named d.
fn file(alloc: Global, content: &[u8]) -> Result<Vec<(String, Vec<u8>)>, AllocError> {
    let mut files = Vec::new(alloc);
    files.push((String::from_str(alloc, "d")?, content.to_vec(alloc)?))?;
    Ok(files)
}

// What an answer is, as text: the lines of the sections without the last line feed, or the fault.
fn told(alloc: Global, answer: Result<Sections, DataFault>) -> Result<Vec<u8>, AllocError> {
    match answer {
        Err(fault) => Ok(format!(in alloc; "{fault}")?.into_bytes()),
        Ok(sections) => {
            let mut sink = MemSink::new(alloc, 2_000, Vec::new(alloc))?;
            let mut outlet = Outlet::new();
            for i in 0..sections.len() {
                let _given = write_value(sections.at(i), &mut outlet, &mut sink);
            }
            let _whole = outlet.finish(&mut sink);
            let text = sink.bytes();
            text.strip_suffix(b"\n").unwrap_or(text).to_vec(alloc)
        }
    }
}

// Whether the content is answered by this text over each kind of shelf, however it is cut: in pieces of one byte each,
// and of so many that a piece ends at a fault, before it or behind it.
fn all_are(alloc: Global, content: &[u8], want: &str) -> Result<bool, AllocError> {
    let mut sure = SureShelf::new(alloc, file(alloc, content)?);
    let mut good = told(alloc, read_data(alloc, &mut sure, "d"))?.as_slice() == want.as_bytes();
    for piece in [1, 2, 3, 5, 7, 8, 9, 11, 13, 4096] {
        let mut shelf = MemShelf::new(alloc, file(alloc, content)?, piece, Vec::new(alloc))?;
        good = good
            && told(alloc, read_data(alloc, &mut shelf, "d"))?.as_slice() == want.as_bytes();
    }
    Ok(good)
}

// Data, and what it comes to, without the line feed at the end. Other lines are comments.
const ROWS: &str = "\
; what is well formed, of each kind
v value -3 = v value -3
x list 5 1 2 3 4 5 = x list 5 1 2 3 4 5
x list 0 = x list 0
a_1Z list 1 -0 = a_1Z list 1 0
a matrix 2 3 1 2 3 4 5 6 = a matrix 2 3 1 2 3 4 5 6
t tree 5 N 1 L 2 N 3 L 4 L 5 = t tree 5 N 1 L 2 N 3 L 4 L 5
t tree 1 L -9 = t tree 1 L -9
r rose 4 1 2 2 0 3 01 4 0 = r rose 4 1 2 2 0 3 1 4 0
x list 2 9223372036854775807 -9223372036854775808 = x list 2 9223372036854775807 -9223372036854775808
x list 0000000000000000000000000000000000000001 -000000000000000000000000000000000000005 = x list 1 -5
abcdefghijklmnopqrstuvwxyzABCDEF list 1 3 = abcdefghijklmnopqrstuvwxyzABCDEF list 1 3
; names and kinds
1x list 0 = byte 0: bad word
_ list 0 = byte 0: bad word
x list 1 5 6 = byte 11: bad word
abcdefghijklmnopqrstuvwxyzABCDEFG list 0 = byte 0: bad word
x list 0 x list 0 = byte 9: name used twice
x lust 0 = byte 2: unknown kind
t t = byte 2: unknown kind
; numbers and counts
x list 1 9223372036854775808 = byte 9: bad number
x list 1 -9223372036854775809 = byte 9: bad number
x list 1 99999999999999999999999999999999999999 = byte 9: bad number
x list 1 +1 = byte 9: bad number
x list 1 - = byte 9: bad number
x list 1 --1 = byte 9: bad number
x list -0 = byte 7: bad number
v value L = byte 8: bad number
x list 4294967296 = byte 7: too many
x list 99999999999999999999999999999999999999 = byte 7: too many
x list 4294967295 1 = byte 19: short
x matrix 4294967296 0 = byte 9: too many
x matrix 65536 65536 = byte 15: too many
x matrix 65535 65537 = byte 20: short
t tree 4294967296 = byte 7: too many
r rose 2147483648 = byte 7: too many
r rose 2147483647 = byte 17: short
; words of more than 40 bytes
x list 1 00000000000000000000000000000000000000001 = byte 9: long word
x list 1 -0000000000000000000000000000000000000001 = byte 9: long word
t tree 3 L 1 Q2345678901234567890123456789012345678901 = byte 13: long word
; shapes
x matrix 0 4294967296 = byte 9: wrong shape
x matrix 2 0 = byte 11: wrong shape
t tree 0 = byte 7: wrong shape
r rose 0 = byte 7: wrong shape
t tree 3 N 1 L 2 = byte 16: short
t tree 3 L 1 L 2 L 3 = byte 13: wrong shape
t tree 3 L 1 Q 2 = byte 13: wrong shape
t tree 3 N 1 Q 2 = byte 13: bad word
t tree 2 N 1 L 2 = byte 9: wrong shape
t tree 3 N 1 N 2 L 3 = byte 13: wrong shape
r rose 2 1 0 zz = byte 13: wrong shape
r rose 2 1 1 zz = byte 13: bad number
r rose 2 1 2 5 0 = byte 11: wrong shape
r rose 2 1 99999999999999999999999999 = byte 11: wrong shape
r rose 2 1 -1 = byte 11: bad number
; what ends too early
x = byte 1: short
x list = byte 6: short
x matrix 2 = byte 10: short
t tree 1 L = byte 10: short
r rose 1 5 = byte 10: short";

#[test]
fn data_is_read_or_refused_at_its_first_fault_however_it_is_cut(
    rt: HostRuntime,
) -> Result<(), Fail> {
    let alloc = rt.alloc();
    let mut count = 0u64;
    for row in ROWS.lines() {
        let Some((content, want)) = row.split_once(" = ") else {
            continue;
        };
        count = count.saturating_add(1);
        let good = all_are(alloc, content.as_bytes(), want)?;
        assert!(rt; good, "{content}");
    }
    assert_eq!(rt; count, 58);
    Ok(())
}

#[test]
fn blanks_of_each_kind_stand_between_words(rt: HostRuntime) -> Result<(), Fail> {
    let alloc = rt.alloc();
    for (content, want) in [
        ("", ""),
        (" \n", ""),
        ("\n\tx \r list\n2   -7\t007\n", "x list 2 -7 7"),
        (
            "x list 1 5 t tree 1 L 7 y list 0 r rose 1 8 0 m matrix 1 1 9 u tree 3 N 1 L 2 L 3 v value 4",
            "x list 1 5\nt tree 1 L 7\ny list 0\nr rose 1 8 0\nm matrix 1 1 9\nu tree 3 N 1 L 2 L 3\nv value 4",
        ),
        ("x list\u{b}0", "byte 2: unknown kind"),
        ("x list 1 \n", "byte 10: short"),
    ] {
        let good = all_are(alloc, content.as_bytes(), want)?;
        assert!(rt; good, "{content}");
    }
    Ok(())
}

// So many sections, and then this text.
fn sections_then(alloc: Global, count: u8, last: &str) -> Result<Vec<u8>, AllocError> {
    let mut content = Vec::new(alloc);
    for i in 0..count {
        content.extend_from_slice(&[b'a' + i % 26, b'0' + i / 26])?;
        content.extend_from_slice(b" list 0 ")?;
    }
    content.extend_from_slice(last.as_bytes())?;
    Ok(content)
}

// So many blanks between two texts.
fn gap(alloc: Global, before: &str, blanks: usize, after: &str) -> Result<Vec<u8>, AllocError> {
    let mut content = before.as_bytes().to_vec(alloc)?;
    content.extend_from_slice(&vec![in alloc; b' '; blanks]?)?;
    content.extend_from_slice(after.as_bytes())?;
    Ok(content)
}

// How many sections, then a text, and what the data comes to.
const SECTION_ROWS: &str = "\
64 b3 list 0 = byte 640: too many sections
64 a0 list 0 = byte 640: too many sections
64 - list 0 = byte 640: bad word
63 a0 list 0 = byte 630: name used twice";

#[test]
fn at_most_64_sections_are_read(rt: HostRuntime) -> Result<(), Fail> {
    let alloc = rt.alloc();
    let mut count = 0u64;
    for row in SECTION_ROWS.lines() {
        let Some((content, want)) = row.split_once(" = ") else {
            continue;
        };
        let Some((sections, last)) = content.split_once(' ') else {
            continue;
        };
        count = count.saturating_add(1);
        let content = sections_then(alloc, sections.parse::<u8>()?, last)?;
        let good = all_are(alloc, &content, want)?;
        assert!(rt; good, "{want}");
    }
    assert_eq!(rt; count, 4);
    let many = sections_then(alloc, 64, "")?;
    let mut shelf = MemShelf::new(alloc, file(alloc, &many)?, 7, Vec::new(alloc))?;
    assert_eq!(rt;
        told(alloc, read_data(alloc, &mut shelf, "d"))?.len(),
        many.len().saturating_sub(1)
    );
    Ok(())
}

// How many blanks, after and before which texts, and what the data comes to.
const GAP_ROWS: &str = "\
65536||v value 1 = v value 1
65535|v value |1 = v value 1
65536|v value 1| = v value 1
65537||v value 1 = byte 65536: long gap
65536|v value |1 = byte 65543: long gap
65537|v value 1| = byte 65545: long gap
65536|x list 1 | = byte 65544: long gap";

#[test]
fn at_most_65536_blanks_stand_in_a_row(rt: HostRuntime) -> Result<(), Fail> {
    let alloc = rt.alloc();
    let mut count = 0u64;
    for row in GAP_ROWS.lines() {
        let Some((content, want)) = row.split_once(" = ") else {
            continue;
        };
        let Some((blanks, texts)) = content.split_once('|') else {
            continue;
        };
        let Some((before, after)) = texts.split_once('|') else {
            continue;
        };
        count = count.saturating_add(1);
        let content = gap(alloc, before, blanks.parse::<usize>()?, after)?;
        let good = all_are(alloc, &content, want)?;
        assert!(rt; good, "{row}");
    }
    assert_eq!(rt; count, 7);
    Ok(())
}

#[test]
fn a_failing_shelf_is_told_from_bad_data(rt: HostRuntime) -> Result<(), Fail> {
    let alloc = rt.alloc();
    // Calls are numbered from the start, which is 0. Each read gives one byte.
    for (content, name, fails, want) in [
        ("x list 1 5", "d", [99u32, 99], None),
        ("x list 1 5", "e", [99, 99], Some(DataFault::Read)),
        ("x list 1 5", "d", [0, 99], Some(DataFault::Read)),
        ("x list 1 5", "d", [1, 99], Some(DataFault::Read)),
        ("x list 1 5", "d", [11, 99], Some(DataFault::Read)),
        ("x list 1 5", "d", [12, 13], None),
        ("x list 1 a 5", "d", [11, 99], Some(DataFault::Read)),
        ("x list 1 a 5", "d", [12, 13], Some(DataFault::BadNumber(9))),
    ] {
        let files = file(alloc, content.as_bytes())?;
        let mut shelf = MemShelf::new(alloc, files, 1, fails.to_vec(alloc)?)?;
        let fault = read_data(alloc, &mut shelf, name).err();
        assert_eq!(rt; fault, want, "{content} under {name}, {fails:?} fail");
    }
    Ok(())
}

#[test]
fn a_name_keeps_its_bytes(rt: HostRuntime) -> Result<(), Fail> {
    let alloc = rt.alloc();
    for (text, want) in [
        ("x", true),
        ("Z_9", true),
        ("abcdefghijklmnopqrstuvwxyzABCDEF", true),
        ("abcdefghijklmnopqrstuvwxyzABCDEFG", false),
        ("", false),
        ("9x", false),
        ("_x", false),
        ("x y", false),
        ("\u{e9}t", false),
    ] {
        assert_eq!(rt; is_name(text.as_bytes()), want, "{text}");
        if is_name(text.as_bytes()) {
            let name = Name::of(alloc, text.as_bytes())?;
            assert_eq!(rt; name.bytes(), text.as_bytes());
        }
    }
    Ok(())
}

// A list of 10,000 ones.
fn ones(alloc: Global) -> Result<Named, AllocError> {
    let numbers = vec![in alloc; 1i64; 10_000]?;
    Ok(Named {
        name: Name::of(alloc, b"x")?,
        value: Value::List(List::of_w64(numbers)),
    })
}

// Prints a value to a sink that fails as it is told.
fn printed(
    alloc: Global,
    value: &Named,
    fails: Vec<(u32, u32)>,
) -> Result<(bool, Vec<u8>), AllocError> {
    let mut sink = MemSink::new(alloc, 30_000, fails)?;
    let mut outlet = Outlet::new();
    let is_given = write_value(value, &mut outlet, &mut sink).is_ok();
    let is_whole = outlet.finish(&mut sink).is_ok();
    Ok((is_given && is_whole, sink.bytes().to_vec(alloc)?))
}

#[test]
fn a_value_goes_out_in_pieces_of_4096_bytes(rt: HostRuntime) -> Result<(), Fail> {
    let alloc = rt.alloc();
    let list = ones(alloc)?;
    let (is_whole, text) = printed(alloc, &list, Vec::new(alloc))?;
    assert!(rt; is_whole);
    assert_eq!(rt; text.len(), 20_013);
    let mut fails = Vec::new(alloc);
    fails.push((2, 5))?;
    let (is_whole, front) = printed(alloc, &list, fails)?;
    assert!(rt; !is_whole);
    assert_eq!(rt; front.len(), 8_197);
    assert!(rt; text.starts_with(&front));
    Ok(())
}
