// Whole runs of one worker. The statements are those of `runs`.
use crate::drivers::{Driver, hold};
use std::test::Fail;

const CASES: &[&str] = &[
    // A variable that two clauses ask to be 1 and to be 0.
    "vars 0..1; clause 0>=1; clause 0<=0; budget 1000; ends none",
    // The first or the second of three variables is at most 1, their sum at least 5, and the last one is
    // the objective.
    "vars 0..2 0..2 0..2; row 1*0 1*1 1*2 >= 5; clause 0<=1 1<=1; objectives 2; budget 1000; \
     ends least 2",
    // A budget is spent to the last move, and no trade is left out for it.
    "vars 0..9 0..9; row 1*0 1*1 >= 7; budget 0; ends spent 0",
    "vars 0..9 0..9; row 1*0 1*1 >= 7; budget 1; ends spent 1",
    "vars 0..9 0..9; row 1*0 1*1 >= 7; budget 5; ends spent 5",
];

#[test]
fn runs(rt: HostRuntime) -> Result<(), Fail> {
    hold(&rt, rt.alloc(), Driver::Runs, "", CASES)
}
