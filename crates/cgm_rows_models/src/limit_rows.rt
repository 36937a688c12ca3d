// Each limit that only a long text meets, at its number and one past it.
use crate::runs::prints;
use crate::texts::{padded, push_all_numbered, repeated};
use cgm_base::{OutOfMemory, Status};
use std::alloc::Global;
use std::test::Fail;

/// Whether `show` of the model ends with the status and prints these bytes.
fn shows(alloc: Global, model: &[u8], status: Status, printed: &[u8]) -> Result<bool, OutOfMemory> {
    prints(
        alloc,
        "show model.cgm",
        model,
        ("old.txt", b""),
        (status, printed),
    )
}

/// Whether a text is shown as it is, and with one line more a fault is told.
fn is_limited(
    alloc: Global,
    text: &mut Vec<u8>,
    line: &str,
    fault: &str,
) -> Result<bool, OutOfMemory> {
    if !shows(alloc, text.as_slice(), Status::Done, text.as_slice())? {
        return Ok(false);
    }
    text.extend_from_slice(line.as_bytes())?;
    shows(alloc, text.as_slice(), Status::Limit, fault.as_bytes())
}

/// A front, a line behind it, how often it stands there at most, and the fault of one more.
type RepeatedRow = (&'static str, &'static str, u32, &'static str);

const REPEATED: &[RepeatedRow] = &[
    (
        "cgm 1\ngoal G\ntask T\nrefine R G : T\n",
        "bind R R\n",
        999_997,
        "fault limit statements 1000000 1000002\n",
    ),
    (
        "cgm 1\ntask T\n",
        "require T\n",
        200_000,
        "fault limit formula-nodes 200000 200003\n",
    ),
];

/// Whether so many of a line are shown as they are, and one more is told.
fn is_repeated(alloc: Global, row: &RepeatedRow) -> Result<bool, OutOfMemory> {
    let (front, line, most, fault) = *row;
    let mut text = repeated(alloc, front, line, most)?;
    is_limited(alloc, &mut text, line, fault)
}

#[test]
fn statements_and_formula_nodes(rt: HostRuntime) -> Result<(), Fail> {
    for row in REPEATED {
        let fault = row.3;
        assert!(rt; is_repeated(rt.alloc(), row)?, "at {fault}");
    }
    Ok(())
}

/// A front, what stands around the number of each of 20,000 lines, one line more, and its fault.
type NumberedRow = (
    &'static str,
    (&'static str, &'static str),
    &'static str,
    &'static str,
);

const NUMBERED: &[NumberedRow] = &[
    (
        "cgm 1\n",
        ("task TaskOfManyTasks", "\n"),
        "task TaskOfManyTasks20000\n",
        "fault limit elements 20000 20002\n",
    ),
    (
        "cgm 1\ngoal G\ntask T\n",
        ("refine R", " G : T\n"),
        "refine R20000 G : T\n",
        "fault limit refinements 20000 20004\n",
    ),
];

/// Whether 20,000 numbered lines are shown as they are, and one more is told.
fn is_numbered(alloc: Global, row: &NumberedRow) -> Result<bool, OutOfMemory> {
    let (front, around, line, fault) = *row;
    let mut text = Vec::from_slice(alloc, front.as_bytes())?;
    push_all_numbered(alloc, &mut text, around, 20_000)?;
    is_limited(alloc, &mut text, line, fault)
}

#[test]
fn elements_and_refinements(rt: HostRuntime) -> Result<(), Fail> {
    for row in NUMBERED {
        let fault = row.3;
        assert!(rt; is_numbered(rt.alloc(), row)?, "at {fault}");
    }
    Ok(())
}

/// The words of a run, the file that is long, its front, the byte that follows and how often, the
/// status, and what is printed.
type LongRow = (
    &'static str,
    &'static str,
    &'static str,
    u8,
    usize,
    Status,
    &'static str,
);

const SHOW: &str = "show model.cgm";

const SOLVE: &str = "solve model.cgm --earlier=old.txt";

const CHECK: &str = "check model.cgm c.txt";

const TOO_LONG: &str = "fault limit text-bytes 16777216 0\n";

/// A model and an earlier text at the limit on bytes and one past it, and files that are no
/// certificate, for which that is no limit.
const LONG: &[LongRow] = &[
    (
        SHOW,
        "model.cgm",
        "cgm 1\n",
        b'#',
        16_777_210,
        Status::Done,
        "cgm 1\n",
    ),
    (
        SHOW,
        "model.cgm",
        "cgm 1\n",
        b'#',
        16_777_211,
        Status::Limit,
        TOO_LONG,
    ),
    (
        SOLVE,
        "old.txt",
        "earlier 1\n",
        b'#',
        16_777_206,
        Status::Done,
        "realized\n",
    ),
    (
        SOLVE,
        "old.txt",
        "earlier 1\n",
        b'#',
        16_777_207,
        Status::Limit,
        TOO_LONG,
    ),
    (
        CHECK,
        "c.txt",
        "",
        b'x',
        1_000_000,
        Status::Certificate,
        "fault certificate line 1 unfinished\n",
    ),
    (
        CHECK,
        "c.txt",
        "",
        b'\n',
        1_000_000,
        Status::Certificate,
        "fault certificate line 1 header\n",
    ),
    (
        CHECK,
        "c.txt",
        "cgm-cert 1\nbest 0 ",
        b'1',
        1_000_000,
        Status::Certificate,
        "fault certificate line 2 unfinished\n",
    ),
    (
        CHECK,
        "c.txt",
        "cgm-cert 1\n",
        b'\n',
        1_000_000,
        Status::Certificate,
        "fault certificate line 2 entry\n",
    ),
    (
        CHECK,
        "c.txt",
        "",
        b'x',
        16_777_217,
        Status::Certificate,
        "fault certificate line 1 unfinished\n",
    ),
];

/// Whether a run over a long file ends with the status and prints this.
fn is_long(alloc: Global, row: &LongRow) -> Result<bool, OutOfMemory> {
    let (line, name, front, byte, count, status, printed) = *row;
    let bytes = padded(alloc, front, byte, count)?;
    prints(
        alloc,
        line,
        b"cgm 1\n",
        (name, bytes.as_slice()),
        (status, printed.as_bytes()),
    )
}

#[test]
fn long_files(rt: HostRuntime) -> Result<(), Fail> {
    for row in LONG {
        assert!(rt; is_long(rt.alloc(), row)?, "at {row:?}");
    }
    Ok(())
}

/// The header, 4,000 variables on the lines 2 to 4001, and a rule whose measure is 4·10^18 and the
/// size of `most`.
fn push_big_model(alloc: Global, text: &mut Vec<u8>, most: i64) -> Result<(), OutOfMemory> {
    text.extend_from_slice(b"cgm 1\n")?;
    push_all_numbered(alloc, text, ("var x", " -1000000000 1000000000\n"), 4_000)?;
    text.extend_from_slice(b"require (<= (+")?;
    push_all_numbered(alloc, text, (" (* 1000000 x", ")"), 4_000)?;
    let end = format!(in alloc; ") {most})\n")?;
    text.extend_from_slice(end.as_bytes())
}

/// The text of the problem of that model with the most value 0.
fn push_big_problem(alloc: Global, text: &mut Vec<u8>) -> Result<(), OutOfMemory> {
    text.extend_from_slice(b"cgm-problem 1\n")?;
    push_all_numbered(alloc, text, ("var ", " -1000000000 1000000000\n"), 4_000)?;
    text.extend_from_slice(b"var 4000 0 1\nclause 0 4000>=1\nrow 0 4000>=1 0")?;
    push_all_numbered(alloc, text, (" -1000000*", ""), 4_000)?;
    text.extend_from_slice(b"\nrow 1 4000<=0 1")?;
    push_all_numbered(alloc, text, (" 1000000*", ""), 4_000)?;
    text.extend_from_slice(b"\n")
}

/// Whether a run over the model ends with the status and prints this.
fn is_big(
    alloc: Global,
    line: &str,
    most: i64,
    status: Status,
    printed: &[u8],
) -> Result<bool, OutOfMemory> {
    let mut model = Vec::new(alloc);
    push_big_model(alloc, &mut model, most)?;
    prints(
        alloc,
        line,
        model.as_slice(),
        ("old.txt", b""),
        (status, printed),
    )
}

/// Whether `encode` prints the problem at the limit.
fn is_encoded(alloc: Global) -> Result<bool, OutOfMemory> {
    let mut problem = Vec::new(alloc);
    push_big_problem(alloc, &mut problem)?;
    is_big(
        alloc,
        "encode model.cgm",
        0,
        Status::Done,
        problem.as_slice(),
    )
}

const ROW: &[u8] = b"fault limit row 4000000000000000000 4002\n";

/// Whether the words of a line tell the fault of one more.
fn is_refused(alloc: Global, line: &str) -> Result<bool, OutOfMemory> {
    is_big(alloc, line, 1, Status::Limit, ROW)
}

// `encode` and `solve` tell the fault of one more.
#[test]
fn row_limit(rt: HostRuntime) -> Result<(), Fail> {
    assert!(rt; is_encoded(rt.alloc())?);
    assert!(rt; is_refused(rt.alloc(), "encode model.cgm")?);
    assert!(rt; is_refused(rt.alloc(), "solve model.cgm")?);
    Ok(())
}
