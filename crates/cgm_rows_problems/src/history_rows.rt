// What a core says of histories of one to three workers. The statements are those of `histories`.
use crate::drivers::{Driver, hold};
use std::test::Fail;

/// Two rows make variables 0 and 1 equal, and the second is the objective.
const ONE: &str = "vars 0..1 0..1; row 1*1 -1*0 >= 0; row -1*1 1*0 >= 0; objectives 1; ";

/// The second worker has seen nothing when it trades. A trade of a worker that isn't in is refused.
const REPLAY: &[&str] = &[
    "enter 0; enter 1; trade 0 offer 0 0; trade 1 offer 1 1; log best 0 0 0; seen 0 1; seen 1 1; seen 2 out",
    "enter 0; enter 1; trade 2 offer 0 0; illegal 3",
];

/// Who is in, and what it may do.
const SEATS: &[&str] = &[
    "log; seen 0 out; seen 15 out; seen 16 out",
    "enter 0; enter 0; illegal 2",
    "enter 15; enter 16; illegal 2",
    "leave 3; illegal 1",
    "look 0 0; illegal 1",
    "enter 0; leave 0; trade 0 offer 0 0; illegal 3",
    "enter 0; trade 0 offer 1 1; leave 0; seen 0 out; log best 0 1 1",
    // A worker that comes in again has seen nothing.
    "enter 0; trade 0 offer 1 1; leave 0; enter 0; seen 0 0",
    "enter 0; enter 1; trade 0 offer 1 1; look 1 0; look 1 1; log best 0 1 1; seen 0 1; seen 1 0",
    "enter 0; look 0 1; illegal 2",
    "enter 0; trade 0 offer 1 1; look 0 0; illegal 3",
    "enter 0; enter 1; trade 0 by 1 / offer 1 1; illegal 3",
];

/// Batches that come late: others have added entries since.
const LATE: &[&str] = &[
    "enter 0; enter 1; trade 0 offer 1 1; trade 1 offer 0 0; log best 0 1 1 / best 1 0 0; seen 0 1; seen 1 2",
    "enter 0; enter 1; trade 0 offer 1 1; trade 1 offer 1 1; log best 0 1 1; seen 1 1",
    "enter 0; enter 1; trade 0 offer 1 1; trade 1; log best 0 1 1; seen 1 1",
    // The cut of a best that isn't the last one any more.
    "enter 0; enter 1; trade 0 offer 1 1; trade 1; trade 0 offer 0 0; trade 1 lemma 1 0<=0 : b1.0 r0; \
     log best 0 1 1 / best 0 0 0 / lemma 1 1 0<=0 : b1.0 r0; seen 0 2; seen 1 3",
    // A lemma of the batch is hinted at, and lands one place further than its worker could know.
    "enter 0; enter 1; trade 0 offer 1 1; trade 1; trade 0 lemma 1 0<=0 : b1.0 r0; \
     trade 1 lemma 1 0<=0 : b1.0 r0 / lemma 1 1<=0 : o1 r1; \
     log best 0 1 1 / lemma 0 1 0<=0 : b1.0 r0 / lemma 1 1 0<=0 : b1.0 r0 / lemma 1 1 1<=0 : e3 r1; \
     seen 0 2; seen 1 4",
    // Three workers, two of which hint at an entry of another.
    "enter 0; enter 1; enter 2; trade 0 offer 1 1; trade 1; trade 1 lemma 1 0<=0 : b1.0 r0; trade 2; \
     trade 2 lemma 1 1<=0 : e2 r1; trade 0 offer 0 0; trade 1 lemma 1 1<=0 : e2 r1; \
     log best 0 1 1 / lemma 1 1 0<=0 : b1.0 r0 / lemma 2 1 1<=0 : e2 r1 / best 0 0 0 / lemma 1 1 1<=0 : e2 r1; \
     seen 0 4; seen 1 5; seen 2 3",
    "enter 0; enter 1; enter 2; trade 0 offer 1 1; trade 1; trade 2; trade 0 lemma 1 0<=0 : b1.0 r0; \
     trade 1 lemma 1 1<=0 : b1.0; trade 2 lemma 1 0<=0 : b1.0 r0 / lemma 1 1<=0 : o1 r1; \
     log best 0 1 1 / lemma 0 1 0<=0 : b1.0 r0 / lemma 1 1 1<=0 : b1.0 / lemma 2 1 0<=0 : b1.0 r0 / lemma 2 1 1<=0 : e4 r1; \
     seen 0 2; seen 1 3; seen 2 5",
    "enter 0; enter 1; enter 2; trade 0 offer 1 1; trade 1 offer 0 0; trade 2 offer 1 1; \
     log best 0 1 1 / best 1 0 0; seen 0 1; seen 1 2; seen 2 2",
    "enter 0; enter 1; enter 2; trade 0 offer 1 1; trade 1; trade 2; trade 1 offer 0 0; \
     trade 2 lemma 1 1<=0 : b1.0 / offer 0 0; log best 0 1 1 / best 1 0 0 / lemma 2 1 1<=0 : b1.0; seen 2 3",
    "enter 0; enter 1; trade 0 offer 1 1; leave 0; enter 2; look 2 1; trade 2; trade 2 lemma 1 0<=0 : b1.0 r0; \
     trade 1 offer 0 0; log best 0 1 1 / lemma 2 1 0<=0 : b1.0 r0 / best 1 0 0; seen 0 out; seen 1 3; seen 2 2",
];

/// Batches of a worker that has seen all.
const BATCHES: &[&str] = &[
    "enter 0; trade 0 offer 1 1; trade 0 lemma 1 0<=0 : b1.0 r0 / lemma 1 1<=0 : o1 r1; \
     log best 0 1 1 / lemma 0 1 0<=0 : b1.0 r0 / lemma 0 1 1<=0 : e2 r1; seen 0 3",
    "enter 0; trade 0 offer 1 1; trade 0 lemma 1 0<=0 : b1.0 r0 / offer 0 0; \
     log best 0 1 1 / lemma 0 1 0<=0 : b1.0 r0 / best 0 0 0; seen 0 3",
    "enter 0; trade 0 offer 1 1; trade 0 lemma 1 0<=0 : b1.0 r0; trade 0 lemma 1 1<=0 : e2 r1; \
     log best 0 1 1 / lemma 0 1 0<=0 : b1.0 r0 / lemma 0 1 1<=0 : e2 r1; seen 0 3",
    "enter 0; trade 0 offer 0 1; illegal 2",
    "enter 0; trade 0 offer 1 1; trade 0 lemma 0 0<=0 : b1.0 r0; illegal 3",
    "enter 0; trade 0 offer 1 1; trade 0 lemma 1 0<=0 : o1 r0; illegal 3",
    "enter 0; trade 0 offer 1 1; trade 0 lemma 1 0<=0 : o0 r0; illegal 3",
    // An entry that is there, but wasn't seen.
    "enter 0; enter 1; trade 0 offer 1 1; trade 1; trade 0 lemma 1 0<=0 : b1.0 r0; \
     trade 1 lemma 1 1<=0 : e2 r1; illegal 6",
    "enter 0; enter 1; enter 2; trade 0 offer 1 1; trade 1; trade 1 lemma 1 0<=0 : b1.0 r0; \
     trade 2 lemma 1 1<=0 : e2 r1; illegal 7",
    // Its hint reaches no conflict. One more hint, to the other's lemma, would, but that wasn't seen.
    "enter 0; enter 1; trade 0 offer 1 1; trade 1; trade 0 lemma 1 0<=0 : b1.0 r0; \
     trade 1 lemma 1 1<=0 : r1; illegal 6",
];

/// Logs that are closed.
const CLOSED: &[&str] = &[
    "enter 0; enter 1; trade 0 offer 0 0; trade 0 lemma 1 : b1.0; trade 1 offer 1 1; \
     log best 0 0 0 / lemma 0 1 : b1.0; seen 0 2; seen 1 2",
    "enter 0; enter 1; enter 2; trade 0 offer 0 0; trade 1; trade 0 lemma 1 : b1.0; trade 1 lemma 1 1<=0 : b1.0; \
     trade 2 offer 1 1; log best 0 0 0 / lemma 0 1 : b1.0; seen 0 2; seen 1 2; seen 2 2",
    "enter 0; trade 0 offer 0 0; trade 0 lemma 1 : b1.0; trade 0 offer 1 1; \
     log best 0 0 0 / lemma 0 1 : b1.0; seen 0 2",
    "enter 0; trade 0 offer 0 0; trade 0 lemma 1 : b1.0; trade 0 lemma 1 0<=0 : b1.0 r0; illegal 4",
    "enter 0; trade 0 offer 0 0; trade 0 lemma 1 : b1.0 / lemma 1 0<=0 : b1.0 r0; illegal 3",
    "enter 0; trade 0 offer 0 0; trade 0 lemma 1 : b1.0 / offer 0 0; illegal 3",
    "enter 0; enter 1; trade 0 offer 1 1; trade 1; trade 0 offer 0 0; trade 0 lemma 2 : b2.0; trade 1 offer 0 0; \
     log best 0 1 1 / best 0 0 0 / lemma 0 2 : b2.0; seen 0 3; seen 1 3",
];

/// Both workers find that there is no solution, the second too late.
const NONE: &[&str] = &[
    "enter 0; enter 1; trade 0 lemma 0 : c0 c1; trade 1 lemma 0 : c0 c1; \
     log lemma 0 0 : c0 c1; seen 0 1; seen 1 1",
];

#[test]
fn replay(rt: HostRuntime) -> Result<(), Fail> {
    hold(&rt, rt.alloc(), Driver::Histories, ONE, REPLAY)
}

#[test]
fn histories(rt: HostRuntime) -> Result<(), Fail> {
    for cases in [SEATS, LATE, BATCHES, CLOSED] {
        hold(&rt, rt.alloc(), Driver::Histories, ONE, cases)?;
    }
    hold(
        &rt,
        rt.alloc(),
        Driver::Histories,
        "vars 0..1; clause 0>=1; clause 0<=0; ",
        NONE,
    )
}
