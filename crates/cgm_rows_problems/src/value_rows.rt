// Which values are solutions of problems, and what no problem can have. The statements are those of
// `values`.
use crate::drivers::{Driver, hold};
use crate::values::is_stopped;
use std::test::Fail;

const CASES: &[&str] = &[
    "vars 0..1 0..1; row 1*1 -1*0 >= 0; row -1*1 1*0 >= 0; objectives 1; sizes 2 0 2; holds 0 0; holds 1 1; \
     breaks row 0 : 1 0; breaks row 1 : 0 1; breaks bound 0 : 2 0; breaks bound 1 : 1 2; \
     breaks count : 1",
    "vars 0..1; clause 0>=0 0<=3; row 1*0 >= 5 if 0>=1; holds 0; breaks row 0 : 1",
    "vars 0..1; clause 0>=1 0<=1 0>=1; sizes 1 1 0; atoms 0 0>=1 0<=1",
    "vars -1000000000000000..1000000000000000 0..1; row 4000*0 >= 4000000000000000001; \
     row -4000*0 >= -4000000000000000001; sizes 2 0 2",
    "vars 0..9 0..9; clause 0>=4 1<=3; clause 1<=8; holds 4 8; holds 0 3; breaks clause 0 : 3 4; \
     breaks clause 1 : 9 9",
];

#[test]
fn first_violations(rt: HostRuntime) -> Result<(), Fail> {
    hold(&rt, rt.alloc(), Driver::Values, "", CASES)
}

/// A variable, a row over it, and why the builder refuses one of them.
const REFUSED: &[&str] = &[
    "vars 0..1000000000000001; row >= 0; stop bound",
    "vars -1000000000000001..0; row >= 0; stop bound",
    "vars -1000000000000000..1000000000000000; row 4000*0 >= 4000000000000000001; stop none",
    "vars -1000000000000000..1000000000000000; row -4000*0 >= -4000000000000000001; stop none",
    "vars -1000000000000000..1000000000000000; row 4001*0 >= 0; stop row",
    "vars -1000000000000000..1000000000000000; row -4001*0 >= 0; stop row",
    "vars -1000000000000000..1000000000000000; row 4000*0 >= 4000000000000000002; stop row",
    "vars -1000000000000000..1000000000000000; row 4000*0 >= -4000000000000000002; stop row",
    "vars -1000000000000000..1000000000000000; row -9223372036854775808*0 >= 0; stop row",
    "vars -1000000000000000..1000000000000000; row 1*0 >= -9223372036854775808; stop row",
];

#[test]
fn past_the_limits(rt: HostRuntime) -> Result<(), Fail> {
    for case in REFUSED {
        assert!(rt; is_stopped(rt.alloc(), case)?, "at {case}");
    }
    Ok(())
}
