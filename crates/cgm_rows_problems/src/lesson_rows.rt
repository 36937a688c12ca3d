// What the analysis of conflicts teaches, what trades with a log answer, and where lemmas land.
use crate::drivers::{Driver, hold};
use crate::trades::failing;
use cgm_atom::Hint;
use std::test::Fail;

const LESSONS: &[&str] = &[
    // none_realizable
    "vars 0..1 0..1 0..1; clause 2<=0 1>=1; clause 1<=0 2>=1; clause 2<=0 0>=1; clause 0<=0 2>=1; \
     clause 0>=1; clause 1<=0; follow c4 0>=1; follow c3 2>=1; follow c0 1>=1; conflict c5; \
     lemma : c4 c3 c0 c5; back 0 0",
    // From 2 follows 3, from 3 both 4 and 5, and these two are against 0. Of the third level variable 3
    // is enough, and the second level has no part in the conflict.
    "vars 0..1 0..1 0..1 0..1 0..1 0..1; clause 2<=0 3>=1; clause 3<=0 4>=1; clause 3<=0 5>=1; \
     clause 0<=0 4<=0 5<=0; decide 0>=1; decide 1>=1; decide 2>=1; follow c0 3>=1; follow c1 4>=1; \
     follow c2 5>=1; conflict c3; lemma 0<=0 3<=0 : c1 c2 c3; back 0 1",
    // Variables 0 and 1 are at most 12 together. Where 0 is above 5, 2 is above 0; where 1 is below 5, 2
    // is 0. Variable 1 below 5 is enough for the conflict, and follows where variable 0 is above 7.
    "vars 0..10 0..10 0..10; row -1*0 -1*1 >= -12; clause 0<=5 2>=1; clause 1>=5 2<=0; \
     decide 0>=9; follow r0 1<=3; follow c0 2>=1; conflict c1; lemma 0<=7 : r0 c0 c1; back 0 0",
];

#[test]
fn lessons(rt: HostRuntime) -> Result<(), Fail> {
    hold(&rt, rt.alloc(), Driver::Lessons, "", LESSONS)
}

const ONE: &str = "vars 0..1 0..1; row 1*1 -1*0 >= 0; row -1*1 1*0 >= 0; objectives 1; \
     offer 1 1 = kept 1 1; offer 1 1 = behind 1 1 1; offer 0 0 = kept 2 2; close 2 0 = landed 3; \
     offer 0 0 = closed; offer 1 1 = closed";

#[test]
fn trade_on_one(rt: HostRuntime) -> Result<(), Fail> {
    let failing = failing(rt.alloc(), ONE)?;
    assert!(rt; failing.is_none(), "at {failing:?}");
    Ok(())
}

#[test]
fn places_of_lemmas(rt: HostRuntime) {
    assert!(rt; Hint::Own(2).placed(10) == Hint::Entry(12));
    assert!(rt; Hint::Entry(12).pending(10) == Hint::Own(2));
    assert!(rt; Hint::Entry(10).pending(10) == Hint::Entry(10));
}
