// What no text tells: faults that are counted, trails that are left, and two outputs that are alike.
use crate::runs::{Ended, FIRST, has_answered, run_printing, run_words, shelf_of};
use cgm_base::{OutOfMemory, Status};
use cgm_shelf::{MemShelf, MemSink};
use cgm_trail::{Trail, Work};
use std::alloc::Global;
use std::test::Fail;

/// Which read, which start or append, and which write of the report fails; none where it is 0.
type Failing = (u64, u64, u64);

/// The words of a run, what fails in it, its status, and how many faults the shelf and the sink count.
type FaultRow = (&'static str, Failing, Status, (u64, u64, u64));

/// Whether a run, where these calls fail, ends with this status, and these faults are counted. Calls
/// count from 1, so that none has the number 0.
fn is_counted(
    alloc: Global,
    line: &str,
    (read, write, print): Failing,
    status: Status,
    faults: (u64, u64, u64),
) -> Result<bool, OutOfMemory> {
    let reads = vec![in alloc; read]?;
    let writes = vec![in alloc; write]?;
    let prints = vec![in alloc; print]?;
    let mut shelf = MemShelf::new(alloc, 8, reads, writes);
    let sink = MemSink::new(alloc, 8, prints);
    is_counted_by(alloc, line, &mut shelf, sink, status, faults)
}

/// The same over a shelf, which gets a model.
fn is_counted_by(
    alloc: Global,
    line: &str,
    shelf: &mut MemShelf,
    sink: MemSink,
    status: Status,
    faults: (u64, u64, u64),
) -> Result<bool, OutOfMemory> {
    shelf.put("first.cgm", FIRST.as_bytes())?;
    let ended = run_printing(alloc, line, shelf, sink)?;
    Ok(has_counts(&ended, shelf, status, faults))
}

fn has_counts(
    ended: &Ended,
    shelf: &MemShelf,
    status: Status,
    (read, write, print): (u64, u64, u64),
) -> bool {
    ended.status == status
        && shelf.read_faults() == read
        && shelf.write_faults() == write
        && ended.sink.faults() == print
}

const FAULTS: &[FaultRow] = &[
    ("solve first.cgm", (0, 0, 0), Status::Done, (0, 0, 0)),
    ("solve nowhere.cgm", (0, 0, 0), Status::Read, (0, 0, 0)),
    ("show nowhere.cgm", (0, 0, 0), Status::Read, (0, 0, 0)),
    (
        "check first.cgm nowhere.txt",
        (0, 0, 0),
        Status::Read,
        (0, 0, 0),
    ),
    ("solve first.cgm", (2, 0, 0), Status::Read, (1, 0, 0)),
    (
        "solve first.cgm --cert=c.txt",
        (0, 1, 0),
        Status::Write,
        (0, 1, 0),
    ),
    (
        "solve first.cgm --cert=c.txt",
        (0, 2, 0),
        Status::Write,
        (0, 1, 0),
    ),
    ("solve first.cgm", (0, 0, 2), Status::Write, (0, 0, 1)),
];

// A name that isn't there is no fault of the shelf.
#[test]
fn faults_that_are_counted(rt: HostRuntime) -> Result<(), Fail> {
    for (line, failing, status, faults) in FAULTS {
        assert!(rt;
            is_counted(rt.alloc(), line, *failing, *status, *faults)?,
            "at {line} and {failing:?}"
        );
    }
    Ok(())
}

/// The words of a run, and the moves and restarts of the trail that it leaves, if it leaves one.
const LEFT: &[(&str, Option<(u64, u32)>)] = &[
    ("solve model.cgm", None),
    ("show model.cgm", None),
    ("encode model.cgm", None),
    ("check model.cgm c.txt", None),
    ("solve model.cgm --workers=3 --budget=0", Some((0, 0))),
    ("solve model.cgm --budget=2", Some((2, 0))),
];

/// Whether just this trail is left, or none.
fn leaves(work: &Work, wanted: Option<(u64, u32)>) -> bool {
    match work.trails() {
        [] => wanted.is_none(),
        [trail] => wanted == Some(counts(trail)),
        _ => false,
    }
}

/// The moves and restarts of a trail.
fn counts(trail: &Trail) -> (u64, u32) {
    (trail.moves(), trail.restarts())
}

/// Whether a run over a model leaves just this trail, or none.
fn is_left(alloc: Global, line: &str, wanted: Option<(u64, u32)>) -> Result<bool, OutOfMemory> {
    let mut shelf = shelf_of(alloc, FIRST.as_bytes(), "c.txt", b"cgm-cert 1\n")?;
    is_left_over(alloc, line, &mut shelf, wanted)
}

fn is_left_over(
    alloc: Global,
    line: &str,
    shelf: &mut MemShelf,
    wanted: Option<(u64, u32)>,
) -> Result<bool, OutOfMemory> {
    let ended = run_words(alloc, line, shelf)?;
    Ok(leaves(&ended.work, wanted))
}

// One worker works, and only a spent budget leaves its trail.
#[test]
fn trails_that_are_left(rt: HostRuntime) -> Result<(), Fail> {
    for (line, wanted) in LEFT {
        assert!(rt; is_left(rt.alloc(), line, *wanted)?, "at {line}");
    }
    Ok(())
}

const CHEAP: &str =
    "cgm 1\ngoal G must\ntask A\ntask B\nrefine R1 G : A\nrefine R2 G : B\nsum cost\nvalue cost A 7\nvalue cost B 5\nobjective min cost\n";

const CHEAP_REPORT: &str =
    "realized\nobjective min cost 5\ngoal G true\ntask A false\ntask B true\nrefine R1 false\nrefine R2 true\nsum cost 5\n";

/// Whether a search of this budget and a check of its certificate end alike.
fn is_alike(alloc: Global, budget: u64) -> Result<bool, OutOfMemory> {
    let line = format!(in alloc; "solve model.cgm --cert=c.txt --budget={budget}")?;
    let mut shelf = shelf_of(alloc, CHEAP.as_bytes(), "old.txt", b"earlier 1\n")?;
    is_alike_over(alloc, budget, line.as_str(), &mut shelf)
}

fn is_alike_over(
    alloc: Global,
    budget: u64,
    line: &str,
    shelf: &mut MemShelf,
) -> Result<bool, OutOfMemory> {
    let solved = run_words(alloc, line, shelf)?;
    is_checked_alike(alloc, budget, &solved, shelf)
}

fn is_checked_alike(
    alloc: Global,
    budget: u64,
    solved: &Ended,
    shelf: &mut MemShelf,
) -> Result<bool, OutOfMemory> {
    let checked = run_words(alloc, "check model.cgm c.txt", shelf)?;
    are_alike(alloc, budget, solved, &checked)
}

/// Whether both runs left it open and tell the same best, or none, after a search of this budget, or
/// both have the same report.
fn are_alike(
    alloc: Global,
    budget: u64,
    solved: &Ended,
    checked: &Ended,
) -> Result<bool, OutOfMemory> {
    if solved.status == Status::Open {
        return are_open_alike(alloc, budget, solved, checked);
    }
    Ok(
        has_answered(solved, Status::Done, CHEAP_REPORT.as_bytes())
            && has_answered(checked, Status::Done, CHEAP_REPORT.as_bytes()),
    )
}

fn are_open_alike(
    alloc: Global,
    budget: u64,
    solved: &Ended,
    checked: &Ended,
) -> Result<bool, OutOfMemory> {
    let front = format!(in alloc; "exhausted\nspent 0 {budget}\n")?;
    let best = solved.sink.written().strip_prefix(front.as_bytes());
    Ok(checked.status == Status::Open && has_open_best(checked.sink.written(), best))
}

/// Whether a report says that it is open, and then tells this best.
fn has_open_best(report: &[u8], best: Option<&[u8]>) -> bool {
    match (report.strip_prefix(b"open\n"), best) {
        (Some(other), Some(best)) => other == best,
        _ => false,
    }
}

// With a budget that is spent, `check` tells the best that `solve` tells; otherwise the same report.
#[test]
fn each_budget(rt: HostRuntime) -> Result<(), Fail> {
    for budget in 1..40_u64 {
        assert!(rt; is_alike(rt.alloc(), budget)?, "at {budget}");
    }
    Ok(())
}
