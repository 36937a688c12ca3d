// Texts of certificates: their first fault, and what is printed of those that have none.
ghost use Rattle.std.specs.Prelude.{◌<◌};

use cgm_cert::{CertKind, CertStop, print_cert, read_cert};
use std::alloc::Global;
use std::test::Fail;

/// The text of the best `[1, 1]`, the lemma `0<=0`, the best `[0, 0]` and the empty lemma.
const ONE: &str =
    "cgm-cert 1\nbest 0 1 1\nlemma 0 1 0<=0 : b1.0 r0\nbest 0 0 0\nlemma 0 2 : b2.0\n";

/// Whether this line is the first faulty one, and what is wrong with it.
fn is_bad(alloc: Global, text: &str, at: u64, what: CertKind) -> bool {
    match read_cert(alloc, text.as_bytes()) {
        Err(CertStop::Bad { line, kind }) => line == at && kind == what,
        _ => false,
    }
}

/// The text of the entries that are read from a text.
fn printed_again(alloc: Global, text: &[u8]) -> Result<Vec<u8>, Fail> {
    let entries = read_cert(alloc, text)?;
    Ok(print_cert(alloc, entries.as_slice())?)
}

/// Whether what is read from a text is printed as the text.
pub(crate) fn is_printed_again(alloc: Global, text: &[u8]) -> Result<bool, Fail> {
    Ok(printed_again(alloc, text)?.as_slice() == text)
}

/// Whether the line is printed as it was, behind the header.
fn is_line_again(alloc: Global, line: &str) -> Result<bool, Fail> {
    let text = format!(in alloc; "cgm-cert 1\n{line}\n")?;
    is_printed_again(alloc, text.as_bytes())
}

/// Whether the line, behind the header, is no entry's.
fn is_no_entry(alloc: Global, line: &str) -> Result<bool, Fail> {
    let text = format!(in alloc; "cgm-cert 1\n{line}\n")?;
    Ok(is_bad(alloc, text.as_str(), 2, CertKind::Entry))
}

/// Texts, the number of their first faulty line, and what is wrong with it.
const FAULTS: &[(&str, u64, CertKind)] = &[
    ("", 1, CertKind::Header),
    ("\n", 1, CertKind::Header),
    ("cgm-cert 2\n", 1, CertKind::Header),
    ("cgm-cert 01\n", 1, CertKind::Header),
    ("cgm-cert  1\n", 1, CertKind::Header),
    ("cgm-cert 1 \n", 1, CertKind::Header),
    (" cgm-cert 1\n", 1, CertKind::Header),
    ("cgm-cert 1\r\n", 1, CertKind::Header),
    ("cgm-cert\n", 1, CertKind::Header),
    ("cgm 1\nbest 0 1 1\n", 1, CertKind::Header),
    ("best 0 1 1\n", 1, CertKind::Header),
    ("Cgm-cert 1\nbest 0 01", 1, CertKind::Header),
    ("x", 1, CertKind::Unfinished),
    ("cgm-cert 1", 1, CertKind::Unfinished),
    ("cgm-cert 2", 1, CertKind::Unfinished),
    ("cgm-cert 1\nbest 0 01", 2, CertKind::Unfinished),
    ("cgm-cert 1\nbest 0 1\nlemma 0 0 :", 3, CertKind::Unfinished),
    ("cgm-cert 1\nbest 0 1\n\r", 3, CertKind::Unfinished),
    ("cgm-cert 1\nbest 0 01\nlemma 0 0", 2, CertKind::Entry),
    ("cgm-cert 1\nbest 0 1\nbest 0 01\n", 3, CertKind::Entry),
    ("cgm-cert 1\nlemma 0 0 :\n\nbest 0 1\n", 3, CertKind::Entry),
    (
        "cgm-cert 1\nbest 0 1\nbest 0 1\ncgm-cert 1\n",
        4,
        CertKind::Entry,
    ),
];

/// Lines that are no entry's.
const NO_ENTRIES: &[&str] = &[
    // Spellings of numbers.
    "best 0 01 1",
    "best 0 -0 1",
    "best 0 +1",
    "best 0 1x",
    "best 00 1 1",
    "best -1 1",
    "lemma 0 -1 :",
    "lemma 0 01 :",
    "lemma 0 0 01>=0 :",
    "lemma 0 0 1>=00 :",
    "lemma 0 0 1<=-0 :",
    "lemma 0 0 : c01",
    "lemma 0 0 : c-1",
    "lemma 0 0 : b1.00",
    // Spaces.
    "",
    " ",
    "best 0  1 1",
    "best 0 1 1\r",
    "best 0 1 1 ",
    " best 0 1 1",
    "best 0 1\t1",
    "best\t0 1 1",
    "best 0 ",
    "lemma 0 0 : ",
    "lemma 0 0  :",
    "lemma 0 0:",
    "lemma 0 0 :c0",
    // Forms of entries.
    "best",
    "lemma",
    "lemma 0",
    "lemma 0 0",
    "lemma 0 :",
    "lemma 0 0 1>=0",
    "lemma 0 0 : :",
    "lemma 0 0 : 1>=0",
    "lemma 0 0 c0 :",
    "lemma 0 0 1>0 :",
    "lemma 0 0 1=0 :",
    "lemma 0 0 >=0 :",
    "lemma 0 0 1>= :",
    "lemma 0 0 : c",
    "lemma 0 0 : o1",
    "lemma 0 0 : b1",
    "lemma 0 0 : b1.",
    "lemma 0 0 : b.0",
    "Best 0 1",
    "worst 0 1",
    // Numbers past their ranges.
    "best 16 1 1",
    "lemma 16 0 :",
    "best 0 1000000000000001",
    "best 0 -1000000000000001",
    "lemma 0 18446744073709551616 :",
    "lemma 0 0 4294967296>=0 :",
    "lemma 0 0 0>=2000000000000001 :",
    "lemma 0 0 0<=-2000000000000001 :",
    "lemma 0 0 : c4294967296",
    "lemma 0 0 : r4294967296",
    "lemma 0 0 : e18446744073709551616",
    "lemma 0 0 : b18446744073709551616.0",
    "lemma 0 0 : b1.4294967296",
    "best 0 18446744073709551616",
];

#[test]
fn first_faults(rt: HostRuntime) -> Result<(), Fail> {
    for (text, line, kind) in FAULTS {
        assert!(rt; is_bad(rt.alloc(), text, *line, *kind), "at {text}");
    }
    Ok(())
}

#[test]
fn lines_of_no_entry(rt: HostRuntime) -> Result<(), Fail> {
    for line in NO_ENTRIES {
        assert!(rt; is_no_entry(rt.alloc(), line)?, "at {line}");
    }
    Ok(())
}

/// Lines of entries, some with numbers at the ends of their ranges, some that no problem accepts.
const LINES: &[&str] = &[
    "best 15 1000000000000000 -1000000000000000",
    "best 0 1",
    "best 0 2 1",
    "lemma 15 18446744073709551615 : e18446744073709551615",
    "lemma 0 0 4294967295>=2000000000000000 0<=-2000000000000000 :",
    "lemma 0 0 : c4294967295 r4294967295",
    "lemma 0 0 : b18446744073709551615.4294967295",
    "lemma 0 0 : e0 b0.0",
    "lemma 0 0 : e1",
    "lemma 0 0 1>=0 1>=0 : c0 c0",
    "lemma 0 0 :",
    "lemma 3 9 1>=-4 20<=6 : c5 r6 e7 b8.1",
    "best 15 -7 0 1000000000000000",
];

/// Whole certificates.
const WHOLE: &[&str] = &[
    "cgm-cert 1\n",
    "cgm-cert 1\nbest 0\nlemma 0 1 : b1.0\n",
    "cgm-cert 1\nlemma 0 0 : c4 c3 c0 c5\n",
    ONE,
    "cgm-cert 1\nbest 0 1 1\nlemma 0 1 0<=0 : b1.0 r0\nlemma 0 2 : b2.0\nbest 0 0 0\n",
    "cgm-cert 1\nbest 0 1 1\nlemma 0 1 0<=0 : b1.0 r0\nbest 0 0 0\nlemma 0 0 : b2.0\n",
    "cgm-cert 1\nbest 0 1 1\nlemma 0 1 0<=0 : b1.0 r0\nbest 0 0 0\n",
];

#[test]
fn printed_as_they_were(rt: HostRuntime) -> Result<(), Fail> {
    for line in LINES {
        assert!(rt; is_line_again(rt.alloc(), line)?, "at {line}");
    }
    for text in WHOLE {
        assert!(rt; is_printed_again(rt.alloc(), text.as_bytes())?, "at {text}");
    }
    Ok(())
}

/// Numbers of bytes: at the first of them so many lines end, at each after it up to the second one the
/// next line has begun.
const CUTS: &[(usize, usize, u64)] = &[
    (0, 10, 0),
    (11, 21, 1),
    (22, 46, 2),
    (47, 57, 3),
    (58, 74, 4),
];

/// Whether so many bytes of a text have the entries of their lines where they end with one, and else
/// end in an unfinished line.
fn is_cut(alloc: Global, text: &str, bytes: usize, from: usize, lines: u64) -> Result<bool, Fail>
    requires { lines < 100 }
{
    match text.get(0..bytes) {
        None => Ok(false),
        Some(front) => is_cut_at(alloc, front, bytes > from, lines),
    }
}

fn is_cut_at(alloc: Global, front: &str, is_open: bool, lines: u64) -> Result<bool, Fail>
    requires { lines < 100 }
{
    if is_open {
        return Ok(is_bad(alloc, front, lines + 1, CertKind::Unfinished));
    }
    has_entries(alloc, front, lines)
}

/// Whether a text has an entry for each of so many lines but the header, or nothing where it has none.
fn has_entries(alloc: Global, text: &str, lines: u64) -> Result<bool, Fail> {
    match lines.checked_sub(1) {
        None => Ok(text.is_empty()),
        Some(count) => Ok(read_cert(alloc, text.as_bytes())?.len() as u64 == count),
    }
}

#[test]
fn fronts(rt: HostRuntime) -> Result<(), Fail> {
    for (from, to, lines) in CUTS {
        assert!(rt; *lines < 100);
        for bytes in *from..=*to {
            assert!(rt;
                is_cut(rt.alloc(), ONE, bytes, *from, *lines)?,
                "at {bytes}"
            );
        }
    }
    Ok(())
}
