// What clauses and rows leave of boxes. The statements are those of `narrowing`.
use crate::drivers::{Driver, hold};
use std::test::Fail;

const CASES: &[&str] = &[
    // A row tightens after an assumption.
    "vars 0..1 0..1; row 1*1 -1*0 >= 0; row -1*1 1*0 >= 0; assume 1<=0 = yes; narrow r0 = tighter; box 0..0 0..0; narrow r0 = same; narrow r1 = same",
    // Assumptions.
    "vars 0..1 0..1; assume 1<=0 = yes; box 0..1 0..0; assume 1>=1 = no; box 0..1 0..0; reset; box 0..1 0..1",
    // An open guard becomes false.
    "vars 0..1 0..1; row 1*0 >= 2 if 1>=1; narrow r0 = tighter; box 0..1 0..0; narrow r0 = same; reset; assume 1>=1 = yes; narrow r0 = conflict; box 0..1 1..1",
    // A clause makes its last atom true.
    "vars 0..1 0..1; clause 0>=1 1<=0; narrow c0 = same; assume 0<=0 = yes; narrow c0 = tighter; box 0..0 0..0; reset; assume 0<=0 = yes; assume 1>=1 = yes; narrow c0 = conflict",
    // Hints to nothing.
    "vars 0..1; narrow c0 = same; narrow r0 = same; narrow e1 = same; narrow o1 = same; narrow b1.0 = same; box 0..1",
    // Rows at their limits.
    "vars -1000000000000000..1000000000000000; row 4000*0 >= 4000000000000000001; narrow r0 = conflict; box -1000000000000000..1000000000000000",
    "vars -1000000000000000..1000000000000000; row 4000*0 >= 4000000000000000000; narrow r0 = tighter; box 1000000000000000..1000000000000000",
    "vars -1000000000000000..1000000000000000; row 4000*0 >= -4000000000000000001; narrow r0 = same; box -1000000000000000..1000000000000000",
    "vars -1000000000000000..1000000000000000; row 4000*0 >= -4000000000000000000; narrow r0 = same; box -1000000000000000..1000000000000000",
    "vars -1000000000000000..1000000000000000; row 4000*0 >= -3999999999999999999; narrow r0 = tighter; box -999999999999999..1000000000000000",
    "vars -1000000000000000..1000000000000000; row -4000*0 >= 4000000000000000001; narrow r0 = conflict; box -1000000000000000..1000000000000000",
    "vars -1000000000000000..1000000000000000; row -4000*0 >= 4000000000000000000; narrow r0 = tighter; box -1000000000000000..-1000000000000000",
    "vars -1000000000000000..1000000000000000; row -4000*0 >= -4000000000000000001; narrow r0 = same; box -1000000000000000..1000000000000000",
    "vars -1000000000000000..1000000000000000; row -4000*0 >= -4000000000000000000; narrow r0 = same; box -1000000000000000..1000000000000000",
    "vars -1000000000000000..1000000000000000; row -4000*0 >= -3999999999999999999; narrow r0 = tighter; box -1000000000000000..999999999999999",
];

#[test]
fn boxes(rt: HostRuntime) -> Result<(), Fail> {
    hold(&rt, rt.alloc(), Driver::Narrowing, "", CASES)
}
