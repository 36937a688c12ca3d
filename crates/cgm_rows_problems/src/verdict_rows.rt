// What lists of entries tell of problems. The statements are those of `verdicts`.
use crate::drivers::{Driver, hold};
use std::test::Fail;

/// Entries over the problem of `FRONT`.
const ONE: &[&str] = &[
    // one_certificate
    "best 1 1; lemma 1 0<=0 : b1.0 r0; best 0 0; lemma 2 : b2.0; verdict least 0 0",
    // one_certificate with the end before its best
    "best 1 1; lemma 1 0<=0 : b1.0 r0; lemma 2 : b2.0; best 0 0; verdict refused 3 hint 1",
    // one_certificate with another bound
    "best 1 1; lemma 1 0<=0 : b1.0 r0; best 0 0; lemma 0 : b2.0; verdict refused 4 bound 2",
    // one_certificate without its end
    "best 1 1; lemma 1 0<=0 : b1.0 r0; best 0 0; verdict open 0 0",
    "verdict open",
    "best 1 1; best 2 1; verdict refused 2 bounds 0",
    "best 1 1; best 0 -1; verdict refused 2 bounds 1",
    "best 1 1; best 1 0; verdict refused 2 row 0",
    "best 1 1; best 0 1; verdict refused 2 row 1",
    "best 1 1; best 1 1; verdict refused 2 not-less",
    "best 1 1; best 1; verdict refused 2 values 1",
    "best 1 1; lemma 0 : r1 c0; verdict refused 2 hint 2",
    "best 1 1; lemma 0 : r1 r2; verdict refused 2 hint 2",
    "best 1 1; lemma 0 : r1 o1; verdict refused 2 hint 2",
    "best 1 1; lemma 0 : r1 e0; verdict refused 2 hint 2",
    "best 1 1; lemma 0 : r1 e1; verdict refused 2 hint 2",
    "best 1 1; lemma 0 : r1 e2; verdict refused 2 hint 2",
    "best 1 1; lemma 0 : r1 b0.0; verdict refused 2 hint 2",
    "best 1 1; lemma 0 : r1 b1.1; verdict refused 2 hint 2",
    "best 1 1; lemma 0 : r1 b2.0; verdict refused 2 hint 2",
    "best 1 1; lemma 0 : r1 b18446744073709551615.0; verdict refused 2 hint 2",
    "best 1 1; lemma 0 0<=0 2<=0 : ; verdict refused 2 atom 2",
    "best 1 1; lemma 0 0>=9223372036854775807 : ; verdict refused 2 no-conflict",
    "best 1 1; lemma 0 0<=-9223372036854775808 : ; verdict refused 2 no-conflict",
    "best 1 1; lemma 0 0<=0 : ; verdict refused 2 no-conflict",
    // Atoms that are always true.
    "lemma 0 0>=-9223372036854775808 : ; lemma 0 1<=9223372036854775807 : ; verdict open",
];

/// Other problems.
const OTHERS: &[&str] = &[
    // Without objectives the cut of a best is the empty clause.
    "vars 0..1; best 1; lemma 1 : b1.0; verdict least 1",
    "vars 0..1; best 1; lemma 1 : b1.0; best 0; verdict refused 3 after-end",
    // Two equal open atoms are two, so a lemma with them makes none of them true.
    "vars 0..1; clause 0>=1; objectives 0; best 1; lemma 1 0<=0 : b1.0; lemma 1 : e2 c0; verdict least 1",
    "vars 0..1; clause 0>=1; objectives 0; best 1; lemma 1 0<=0 0<=0 : b1.0; lemma 1 : c0 e2; verdict least 1",
    "vars 0..1; clause 0>=1; objectives 0; best 1; lemma 1 0<=0 0<=0 : b1.0; lemma 1 : e2 c0; verdict refused 3 no-conflict",
    // The first part of a cut keeps the first objective where it is at most, and the second part is that the
    // first is less or the second is.
    "vars 0..9 0..9; objectives 0 1; best 3 4; lemma 1 0<=3 : b1.0; verdict open 3 4",
    "vars 0..9 0..9; objectives 0 1; best 3 4; lemma 1 0<=3 : b1.1; verdict refused 2 no-conflict",
    "vars 0..9 0..9; objectives 0 1; best 3 4; lemma 1 0<=2 1<=3 : b1.1; verdict open 3 4",
    "vars 0..9 0..9; objectives 0 1; best 3 4; lemma 1 0<=2 1<=3 : b1.0; verdict refused 2 no-conflict",
    "vars 0..1; clause 0>=1; clause 0<=0; lemma 0 : c0 c1; verdict none",
    "vars 0..1; clause 0>=1; best 0; verdict refused 1 clause 0",
];

/// Two rows make variables 0 and 1 equal, and the second is the objective.
const FRONT: &str = "vars 0..1 0..1; row 1*1 -1*0 >= 0; row -1*1 1*0 >= 0; objectives 1; ";

#[test]
fn one_certificate(rt: HostRuntime) -> Result<(), Fail> {
    hold(&rt, rt.alloc(), Driver::Verdicts, FRONT, ONE)
}

#[test]
fn verdicts(rt: HostRuntime) -> Result<(), Fail> {
    hold(&rt, rt.alloc(), Driver::Verdicts, "", OTHERS)
}
