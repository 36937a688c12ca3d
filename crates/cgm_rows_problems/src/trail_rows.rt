// What steps, propagation and orders leave of trails. The statements are those of `trails`.
use crate::drivers::{Driver, hold};
use std::test::Fail;

/// Two rows make variables 0 and 1 equal, and the second is the objective.
const ONE: &[&str] = &[
    "vars 0..1 0..1; row 1*1 -1*0 >= 0; row -1*1 1*0 >= 0; objectives 1; \
     order 0 0 1<=0; decide 1<=0; by-row 0 10 quiet 9; counts 2 1 0 2; bounds 0..0 0..0; start 0 2; start 1 0; \
     change 0 1<=0 1 d; change 1 0<=0 1 r0; restart; counts 3 0 1 0; bounds 0..1 0..1",
];

/// Steps over three variables from 0 to 9.
const TRAILS: &[&str] = &[
    // Levels begin with their decisions, and changes keep what was.
    "decide 0<=4; follow c0 1>=2; decide 2<=3; decide 0>=3; follow o1 1<=5; \
     counts 5 3 0 5; bounds 3..4 2..5 0..3; start 0 5; start 1 0; start 2 2; start 3 3; \
     change 0 0<=4 9 d; change 1 1>=2 0 c0; change 2 2<=3 9 d; change 3 0>=3 0 d; \
     change 4 1<=5 9 o1",
    // A jump keeps the levels before it, and a later one cuts more.
    "decide 0<=4; follow c0 1>=2; decide 2<=3; decide 0>=3; follow o1 1<=5; jump 1 r0 2>=4; \
     counts 6 1 0 3; bounds 0..4 2..9 4..9; change 2 2>=4 0 r0; jump 0 e2 0>=5; \
     counts 7 0 0 1; bounds 5..9 0..9 0..9; change 0 0>=5 0 e2",
    // Restarts keep level 0.
    "follow r1 2<=8; decide 0<=4; follow c0 1>=2; decide 2<=3; decide 0>=3; follow o1 1<=5; \
     start 0 0; restart; restart; counts 8 0 2 1; bounds 0..9 0..9 0..8; change 0 2<=8 9 r1",
    // Lemmas land.
    "decide 0<=4; follow c0 1>=2; decide 2<=3; decide 0>=3; follow o1 1<=5; follow o3 2>=1; \
     land 10; counts 6 3 0 6; change 0 0<=4 9 d; change 1 1>=2 0 c0; change 4 1<=5 9 e10; \
     change 5 2>=1 0 e12",
];

#[test]
fn trail_and_rows_on_one(rt: HostRuntime) -> Result<(), Fail> {
    hold(&rt, rt.alloc(), Driver::Trails, "", ONE)
}

#[test]
fn trails(rt: HostRuntime) -> Result<(), Fail> {
    hold(
        &rt,
        rt.alloc(),
        Driver::Trails,
        "vars 0..9 0..9 0..9; ",
        TRAILS,
    )
}

/// Clauses that are false or tighten nothing, unit clauses, and clauses that become unit or false.
const CLAUSES: &[&str] = &[
    "clause; by-clauses 10 c0 10; counts 0 0 0 0; bounds 0..9 -5..5 0..1",
    "clause 0>=10; by-clauses 10 c0 10; counts 0 0 0 0; bounds 0..9 -5..5 0..1",
    "clause 0<=-2000000000000000; by-clauses 10 c0 10; counts 0 0 0 0; bounds 0..9 -5..5 0..1",
    "clause 0>=10 1<=-6 2>=2; by-clauses 10 c0 10; counts 0 0 0 0; bounds 0..9 -5..5 0..1",
    "clause 0>=0; by-clauses 10 quiet 10; counts 0 0 0 0; bounds 0..9 -5..5 0..1",
    "clause 0<=2000000000000000; by-clauses 10 quiet 10; counts 0 0 0 0; bounds 0..9 -5..5 0..1",
    "clause 0>=10 1<=5; by-clauses 10 quiet 10; counts 0 0 0 0; bounds 0..9 -5..5 0..1",
    "clause 0>=5 1<=5; by-clauses 10 quiet 10; counts 0 0 0 0; bounds 0..9 -5..5 0..1",
    "clause 0>=5 1<=0; by-clauses 10 quiet 10; counts 0 0 0 0; bounds 0..9 -5..5 0..1",
    "clause 0>=5 0<=4; by-clauses 10 quiet 10; counts 0 0 0 0; bounds 0..9 -5..5 0..1",
    "clause 2<=0 0>=5; by-clauses 10 quiet 10; counts 0 0 0 0; bounds 0..9 -5..5 0..1",
    "clause 2<=0 0>=10 1<=0; by-clauses 10 quiet 10; counts 0 0 0 0; bounds 0..9 -5..5 0..1",
    "clause 0>=5; by-clauses 10 quiet 9; counts 1 0 0 1; bounds 5..9 -5..5 0..1",
    "clause 0>=9; by-clauses 10 quiet 9; counts 1 0 0 1; bounds 9..9 -5..5 0..1",
    "clause 1<=-2; by-clauses 10 quiet 9; counts 1 0 0 1; bounds 0..9 -5..-2 0..1",
    "clause 1<=-5; by-clauses 10 quiet 9; counts 1 0 0 1; bounds 0..9 -5..-5 0..1",
    "clause 0>=10 1<=3; by-clauses 10 quiet 9; counts 1 0 0 1; bounds 0..9 -5..3 0..1",
    "clause 0<=-1 2>=1 1>=6; by-clauses 10 quiet 9; counts 1 0 0 1; bounds 0..9 -5..5 1..1",
    "clause 2<=0 0>=10; by-clauses 10 quiet 9; counts 1 0 0 1; bounds 0..9 -5..5 0..0",
    "clause 0>=5 0>=5; by-clauses 10 quiet 9; counts 1 0 0 1; bounds 5..9 -5..5 0..1",
    "clause 0>=5 1>=6 0>=5; by-clauses 10 quiet 9; counts 1 0 0 1; bounds 5..9 -5..5 0..1",
    "clause 0>=5; clause 0<=4 1>=2; by-clauses 10 quiet 8; counts 2 0 0 2; bounds 5..9 2..5 0..1",
    "clause 2<=0 0<=3; clause 2>=1; by-clauses 10 quiet 8; counts 2 0 0 2; bounds 0..3 -5..5 1..1",
    "clause 0>=5; clause 0<=4 0<=3; by-clauses 10 c1 9; counts 1 0 0 1; bounds 5..9 -5..5 0..1",
    "clause 1>=1 1>=2; clause 1<=0; by-clauses 10 c0 9; counts 1 0 0 1; bounds 0..9 -5..0 0..1",
];

/// A goal that has to be reached, its task, which is false, and their refinement. Which clause is false
/// at the end depends on the order of the steps, but three of them come first.
const UNREALIZABLE: &[&str] = &[
    "clause 2<=0 1>=1; clause 1<=0 2>=1; clause 2<=0 0>=1; clause 0<=0 2>=1; clause 0>=1; clause 1<=0; by-clauses 10 clause 7; counts 3 0 0 3",
    "clause 2<=0 1>=1; clause 1<=0 2>=1; clause 2<=0 0>=1; clause 0<=0 2>=1; clause 0>=1; clause 1<=0; by-clauses 0 spent 0; counts 0 0 0 0; bounds 0..1 0..1 0..1",
    "clause 2<=0 1>=1; clause 1<=0 2>=1; clause 2<=0 0>=1; clause 0<=0 2>=1; clause 0>=1; clause 1<=0; by-clauses 1 spent 0; counts 1 0 0 1",
    "clause 2<=0 1>=1; clause 1<=0 2>=1; clause 2<=0 0>=1; clause 0<=0 2>=1; clause 0>=1; clause 1<=0; by-clauses 2 spent 0; counts 2 0 0 2",
    "clause 2<=0 1>=1; clause 1<=0 2>=1; clause 2<=0 0>=1; clause 0<=0 2>=1; clause 0>=1; clause 1<=0; by-clauses 3 clause 0; counts 3 0 0 3",
];

/// Rows without a guard, the last of them without terms.
const ROWS: &[&str] = &[
    "row 1*0 1*1 >= 15; by-row 0 10 r0 10; counts 0 0 0 0; bounds 0..9 -5..5 0..1",
    "row 1*0 1*1 >= 14; by-row 0 10 quiet 8; counts 2 0 0 2; bounds 9..9 5..5 0..1",
    "row 1*0 1*1 >= 6; by-row 0 10 quiet 8; counts 2 0 0 2; bounds 1..9 -3..5 0..1",
    "row 1*0 1*1 >= 5; by-row 0 10 quiet 9; counts 1 0 0 1; bounds 0..9 -4..5 0..1",
    "row 1*0 1*1 >= 4; by-row 0 10 quiet 10; counts 0 0 0 0; bounds 0..9 -5..5 0..1",
    "row 1*0 1*1 >= -5; by-row 0 10 quiet 10; counts 0 0 0 0; bounds 0..9 -5..5 0..1",
    "row 2*0 3*1 >= 20; by-row 0 10 quiet 8; counts 2 0 0 2; bounds 3..9 1..5 0..1",
    "row 10*0 1*1 >= 45; by-row 0 10 quiet 9; counts 1 0 0 1; bounds 4..9 -5..5 0..1",
    "row -2*0 3*1 >= 4; by-row 0 10 quiet 8; counts 2 0 0 2; bounds 0..5 2..5 0..1",
    "row -3*0 -4*1 >= 21; by-row 0 10 r0 10; counts 0 0 0 0; bounds 0..9 -5..5 0..1",
    "row -3*0 -4*1 >= 20; by-row 0 10 quiet 8; counts 2 0 0 2; bounds 0..0 -5..-5 0..1",
    "row -3*0 -4*1 >= 15; by-row 0 10 quiet 8; counts 2 0 0 2; bounds 0..1 -5..-4 0..1",
    "row -3*0 -4*1 >= -47; by-row 0 10 quiet 10; counts 0 0 0 0; bounds 0..9 -5..5 0..1",
    "row 3*0 -1*1 >= 31; by-row 0 10 quiet 8; counts 2 0 0 2; bounds 9..9 -5..-4 0..1",
    "row >= -1; by-row 0 10 quiet 10; counts 0 0 0 0; bounds 0..9 -5..5 0..1",
    "row >= 0; by-row 0 10 quiet 10; counts 0 0 0 0; bounds 0..9 -5..5 0..1",
    "row >= 1; by-row 0 10 r0 10; counts 0 0 0 0; bounds 0..9 -5..5 0..1",
];

/// Two times variable 0 and three times variable 1 are 33 at most. The guards that speak of variable 2,
/// from 0 to 1, are true, false, and open.
const GUARDED: &[&str] = &[
    "row 2*0 3*1 >= 34 if 2>=0; by-row 0 10 r0 10; counts 0 0 0 0; bounds 0..9 -5..5 0..1",
    "row 2*0 3*1 >= 33 if 2>=0; by-row 0 10 quiet 8; counts 2 0 0 2; bounds 9..9 5..5 0..1",
    "row 2*0 3*1 >= 20 if 2>=0; by-row 0 10 quiet 8; counts 2 0 0 2; bounds 3..9 1..5 0..1",
    "row 2*0 3*1 >= 34 if 2>=2; by-row 0 10 quiet 10; counts 0 0 0 0; bounds 0..9 -5..5 0..1",
    "row 2*0 3*1 >= 20 if 2>=2; by-row 0 10 quiet 10; counts 0 0 0 0; bounds 0..9 -5..5 0..1",
    "row 2*0 3*1 >= 34 if 2>=1; by-row 0 10 quiet 9; counts 1 0 0 1; bounds 0..9 -5..5 0..0; change 0 2<=0 1 r0",
    "row 2*0 3*1 >= 34 if 2<=0; by-row 0 10 quiet 9; counts 1 0 0 1; bounds 0..9 -5..5 1..1",
    "row 2*0 3*1 >= 33 if 2>=1; by-row 0 10 quiet 10; counts 0 0 0 0; bounds 0..9 -5..5 0..1",
    "row 2*0 3*1 >= 20 if 2<=0; by-row 0 10 quiet 10; counts 0 0 0 0; bounds 0..9 -5..5 0..1",
    "row 2*0 3*1 >= 34 if 0>=5; by-row 0 10 quiet 9; counts 1 0 0 1; bounds 0..4 -5..5 0..1",
];

/// Rows that want more steps than there are, where either of two may come first, and no more.
const STEPS: &[&str] = &[
    "row 2*0 3*1 >= 34; by-row 0 0 r0 0; counts 0 0 0 0; bounds 0..9 -5..5 0..1",
    "row 2*0 3*1 >= 33; by-row 0 0 spent 0; counts 0 0 0 0; bounds 0..9 -5..5 0..1",
    "row 2*0 3*1 >= 20; by-row 0 0 spent 0; counts 0 0 0 0; bounds 0..9 -5..5 0..1",
    "row 2*0 3*1 >= -15; by-row 0 0 quiet 0; counts 0 0 0 0; bounds 0..9 -5..5 0..1",
    "row 2*0 3*1 >= 34 if 2>=0; by-row 0 0 r0 0; counts 0 0 0 0; bounds 0..9 -5..5 0..1",
    "row 2*0 3*1 >= 20 if 2>=0; by-row 0 0 spent 0; counts 0 0 0 0; bounds 0..9 -5..5 0..1",
    "row 2*0 3*1 >= 34 if 2>=1; by-row 0 0 spent 0; counts 0 0 0 0; bounds 0..9 -5..5 0..1",
    "row 2*0 3*1 >= 20 if 2>=1; by-row 0 0 quiet 0; counts 0 0 0 0; bounds 0..9 -5..5 0..1",
    "row 2*0 3*1 >= 34 if 2>=2; by-row 0 0 quiet 0; counts 0 0 0 0; bounds 0..9 -5..5 0..1",
    "row 2*0 3*1 >= 20; by-row 0 1 spent 0; counts 1 0 0 1; bounds 3..9 -5..5 0..1 | 0..9 1..5 0..1",
    "row 2*0 3*1 >= 20; by-row 0 2 quiet 0; counts 2 0 0 2; bounds 3..9 1..5 0..1",
    "row 2*0 3*1 >= 20; by-row 0 3 quiet 1; counts 2 0 0 2; bounds 3..9 1..5 0..1",
    "row 2*0 3*1 >= 20; by-row 0 10 quiet 8; counts 2 0 0 2; bounds 3..9 1..5 0..1",
];

/// Bounds, coefficients and least sums at their limits.
const LIMITS: &[&str] = &[
    "vars -1000000000000000..1000000000000000; row 4000*0 >= 4000000000000000001; by-row 0 10 r0 10; counts 0 0 0 0; bounds -1000000000000000..1000000000000000",
    "vars -1000000000000000..1000000000000000; row 4000*0 >= 4000000000000000000; by-row 0 10 quiet 9; counts 1 0 0 1; bounds 1000000000000000..1000000000000000",
    "vars -1000000000000000..1000000000000000; row 4000*0 >= -3999999999999999999; by-row 0 10 quiet 9; counts 1 0 0 1; bounds -999999999999999..1000000000000000",
    "vars -1000000000000000..1000000000000000; row 4000*0 >= -4000000000000000000; by-row 0 10 quiet 10; counts 0 0 0 0; bounds -1000000000000000..1000000000000000",
    "vars -1000000000000000..1000000000000000; row 4000*0 >= -4000000000000000001; by-row 0 10 quiet 10; counts 0 0 0 0; bounds -1000000000000000..1000000000000000",
    "vars -1000000000000000..1000000000000000; row -4000*0 >= 4000000000000000001; by-row 0 10 r0 10; counts 0 0 0 0; bounds -1000000000000000..1000000000000000",
    "vars -1000000000000000..1000000000000000; row -4000*0 >= 4000000000000000000; by-row 0 10 quiet 9; counts 1 0 0 1; bounds -1000000000000000..-1000000000000000",
    "vars -1000000000000000..1000000000000000; row -4000*0 >= -3999999999999999999; by-row 0 10 quiet 9; counts 1 0 0 1; bounds -1000000000000000..999999999999999",
    "vars -1000000000000000..1000000000000000; row -4000*0 >= -4000000000000000000; by-row 0 10 quiet 10; counts 0 0 0 0; bounds -1000000000000000..1000000000000000",
    "vars -1000000000000000..1000000000000000; row -4000*0 >= -4000000000000000001; by-row 0 10 quiet 10; counts 0 0 0 0; bounds -1000000000000000..1000000000000000",
    "vars -1000000000000000..1000000000000000; row 1*0 >= 1000000000000000; by-row 0 10 quiet 9; counts 1 0 0 1; bounds 1000000000000000..1000000000000000",
    "vars -1000000000000000..1000000000000000; row 1*0 >= -4000000000000000001; by-row 0 10 quiet 10; counts 0 0 0 0; bounds -1000000000000000..1000000000000000",
    "vars -1000000000000000..1000000000000000; row -1*0 >= -4000000000000000001; by-row 0 10 quiet 10; counts 0 0 0 0; bounds -1000000000000000..1000000000000000",
    "vars -1..1; row 4000000000000000000*0 >= 1; by-row 0 10 quiet 9; counts 1 0 0 1; bounds 1..1",
    "vars -1..1; row 4000000000000000000*0 >= 0; by-row 0 10 quiet 9; counts 1 0 0 1; bounds 0..1",
    "vars -1..1; row 4000000000000000000*0 >= -3999999999999999999; by-row 0 10 quiet 9; counts 1 0 0 1; bounds 0..1",
    "vars -1..1; row 4000000000000000000*0 >= -4000000000000000000; by-row 0 10 quiet 10; counts 0 0 0 0; bounds -1..1",
    "vars -1..1; row -4000000000000000000*0 >= 1; by-row 0 10 quiet 9; counts 1 0 0 1; bounds -1..-1",
    "vars -1..1; row -4000000000000000000*0 >= -3999999999999999999; by-row 0 10 quiet 9; counts 1 0 0 1; bounds -1..0",
    "vars -1..1; row -4000000000000000000*0 >= -4000000000000000001; by-row 0 10 quiet 10; counts 0 0 0 0; bounds -1..1",
    "vars 0..0; row -9223372036854775808*0 >= 1; by-row 0 10 r0 10; counts 0 0 0 0; bounds 0..0",
    "vars 0..0; row -9223372036854775808*0 >= 0; by-row 0 10 quiet 10; counts 0 0 0 0; bounds 0..0",
    "vars 0..0; row -9223372036854775808*0 >= -4000000000000000001; by-row 0 10 quiet 10; counts 0 0 0 0; bounds 0..0",
    "vars 0..0; row 9223372036854775807*0 >= 1; by-row 0 10 r0 10; counts 0 0 0 0; bounds 0..0",
    "vars 0..0; row 9223372036854775807*0 >= -4000000000000000001; by-row 0 10 quiet 10; counts 0 0 0 0; bounds 0..0",
];

/// Clauses that are added, forgotten, and named anew. An added clause keeps its repeated atoms: two open
/// ones, though they are equal, tighten nothing.
const STORES: &[&str] = &[
    "add o1; by-clauses 10 o1 10; counts 0 0 0 0; bounds 0..9 -5..5 0..1",
    "add o1 0>=5; by-clauses 10 quiet 9; counts 1 0 0 1; bounds 5..9 -5..5 0..1",
    "add o1 0>=5 0>=5; by-clauses 10 quiet 10; counts 0 0 0 0; bounds 0..9 -5..5 0..1",
    "add o1 0>=5 0>=10; by-clauses 10 quiet 9; counts 1 0 0 1; bounds 5..9 -5..5 0..1",
    "clause 2>=1; add o1 0>=5; add o2 1>=2; forget o1; by-clauses 10 quiet 8; counts 2 0 0 2; bounds 0..9 2..5 1..1",
    "clause 2>=1; add o1 0>=5; add o2 1>=2; forget o2; by-clauses 10 quiet 8; counts 2 0 0 2; bounds 5..9 -5..5 1..1",
    "clause 2>=1; add o1 0>=5; add o2 1>=2; forget o3; by-clauses 10 quiet 7; counts 3 0 0 3; bounds 5..9 2..5 1..1",
    "clause 2>=1; add o1 0>=5; add o2 1>=2; forget c0; by-clauses 10 quiet 7; counts 3 0 0 3; bounds 5..9 2..5 1..1",
    "clause 2>=1; add o1 0>=5; add o2 1>=2; forget e1; by-clauses 10 quiet 7; counts 3 0 0 3; bounds 5..9 2..5 1..1",
    "add o1; names 1; by-clauses 0 e1 0",
    "add o1; names 10; by-clauses 0 e10 0",
    "add o3; names 10; by-clauses 0 e12 0",
    "add o1; names 18446744073709551615; by-clauses 0 e18446744073709551615 0",
    "add o4294967295; names 2; by-clauses 0 e4294967296 0",
    "add e7; names 10; by-clauses 0 e7 0",
    "add c3; names 10; by-clauses 0 c3 0",
    "add r2; names 10; by-clauses 0 r2 0",
    "add b4.1; names 10; by-clauses 0 b4.1 0",
    "add o2 0>=5; names 10; by-clauses 1 quiet 0; change 0 0>=5 0 e11",
];

/// Decisions of orders. The objectives come first, and then the lowest variable. Each order has each
/// variable once: of six variables from 0 to 1 each decision fixes one. Raised variables come first, later
/// raises weigh more (on the way weights are divided, since an increment passes 2^62 after some 8,200
/// raises), and fixed variables are passed over.
const ORDERS: &[&str] = &[
    "vars 5..5 -3..2 0..9 0..4; objectives 0 3; follow r0 1<=0; follow r0 2<=0; order 7 0 3<=2",
    "vars 5..5 -3..2 0..9 0..4; objectives 0 3; follow r0 3>=1; follow r0 2<=0; order 7 0 3<=2",
    "vars 5..5 -3..2 0..9 0..4; objectives 0 3; follow r0 3>=2; follow r0 3<=3; order 7 0 3<=2",
    "vars 5..5 -3..2 0..9 0..4; objectives 0 3; follow r0 3>=4; follow r0 2>=1; order 7 0 1<=-1",
    "vars 5..5 -3..2 0..9 0..4; objectives 0 3; follow r0 3>=4; follow r0 1<=-2; order 7 0 1<=-3",
    "vars 5..5 -3..2 0..9 0..4; objectives 0 3; follow r0 3>=4; follow r0 1>=2; order 7 0 2<=4",
    "vars 0..1 0..1 0..1 0..1 0..1 0..1; all 0 0 6",
    "vars 0..1 0..1 0..1 0..1 0..1 0..1; all 0 1 6",
    "vars 0..1 0..1 0..1 0..1 0..1 0..1; all 0 2 6",
    "vars 0..1 0..1 0..1 0..1 0..1 0..1; all 1 1 6",
    "vars 0..1 0..1 0..1 0..1 0..1 0..1; all 18446744073709551615 15 6",
    "vars 0..9 0..9 0..9; heaviest 0<=4; raise 2 1; heaviest 2<=4; raise 1 1; heaviest 1<=4; raise 2 1; heaviest 2<=4",
    "vars 0..9 0..9 0..9; raise 1 10000; heaviest 1<=4; raise 0 10000; heaviest 0<=4",
    "vars 0..9 0..9 0..9; raise 1 1; heaviest 1<=4; follow r0 1<=0; heaviest 0<=4; follow r0 0>=9; follow r0 2<=0; heaviest none",
];

#[test]
fn none_realizable(rt: HostRuntime) -> Result<(), Fail> {
    hold(
        &rt,
        rt.alloc(),
        Driver::Trails,
        "vars 0..1 0..1 0..1; ",
        UNREALIZABLE,
    )
}

#[test]
fn sweeps(rt: HostRuntime) -> Result<(), Fail> {
    for cases in [CLAUSES, ROWS, GUARDED, STEPS, STORES] {
        hold(
            &rt,
            rt.alloc(),
            Driver::Trails,
            "vars 0..9 -5..5 0..1; ",
            cases,
        )?;
    }
    Ok(())
}

#[test]
fn limits_and_orders(rt: HostRuntime) -> Result<(), Fail> {
    for cases in [LIMITS, ORDERS] {
        hold(&rt, rt.alloc(), Driver::Trails, "", cases)?;
    }
    Ok(())
}
