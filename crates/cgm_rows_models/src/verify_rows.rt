// What entries show of a model, and the lines of what is found.
use crate::models::{Asked, answers};
use crate::shown::Shown;
use std::test::Fail;

/// A model text, a certificate, and what its entries show.
const CASES: &[(&str, &str, Shown<'static>)] = &[
    // one_certificate
    (
        "cgm 1\ntask T\nobjective min sat_tasks\n",
        "cgm-cert 1\nbest 0 1 1\nlemma 0 1 0<=0 : b1.0 r0\nbest 0 0 0\nlemma 0 2 : b2.0\n",
        Shown::Least("objective min sat_tasks 0\ntask T false\n"),
    ),
    (
        "cgm 1\ntask T\nobjective min sat_tasks\n",
        "cgm-cert 1\nbest 0 1 1\n",
        Shown::Nothing,
    ),
    // none_realizable
    (
        "cgm 1\ngoal G must\ntask T\nrefine R G : T\nassert T false\n",
        "cgm-cert 1\nlemma 0 0 : c4 c3 c0 c5\n",
        Shown::Never,
    ),
];

#[test]
fn entries(rt: HostRuntime) -> Result<(), Fail> {
    for (model, certificate, wanted) in CASES {
        let asked = Asked::Entries(certificate, *wanted);
        answers(&rt, rt.alloc(), model, &asked)?;
    }
    Ok(())
}

/// A model text, an assignment, its vector, and the lines that show them.
const LINES: &[(&str, &str, &str, &str)] = &[
    (
        "cgm 1\ngoal G must\ntask A\ntask B\nrefine R1 G : A\nrefine R2 G : B\nsum cost\nvalue cost A 7\nvalue cost B 5\nobjective min cost\n",
        "101 01 -",
        "5",
        "objective min cost 5\ngoal G true\ntask A false\ntask B true\nrefine R1 false\nrefine R2 true\nsum cost 5\n",
    ),
    // The vector has the number with its sign changed.
    (
        "cgm 1\nvar x -3 3\nrequire (>= (* -2 x) 5)\nobjective max x\n",
        "- - -3",
        "3",
        "objective max x -3\nvar x -3\n",
    ),
];

#[test]
fn lines_of_what_is_found(rt: HostRuntime) -> Result<(), Fail> {
    for (model, words, vector, lines) in LINES {
        let asked = Asked::Lines(words, vector, lines);
        answers(&rt, rt.alloc(), model, &asked)?;
    }
    Ok(())
}
