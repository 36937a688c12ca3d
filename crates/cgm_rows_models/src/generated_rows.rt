// Generated models: their texts byte for byte, and how many goals are too many.
use cgm_gen::{GenStop, generate};
use std::alloc::Global;

/// Numbers of goals, and the text of the model of so many.
const TEXTS: &[(u32, &str)] = &[
    (
        0,
        "cgm 1\nsum cost\nrequire (<= cost 800)\nobjective min cost\n",
    ),
    (
        1,
        "cgm 1\ngoal G1 must\ntask B1\ntask A1\nrefine R1 G1 : A1\nrefine S1 G1 : B1\nsum cost\nvalue cost A1 50\nvalue cost B1 65\nrequire (<= cost 800)\nobjective min cost\n",
    ),
    (
        8,
        "cgm 1\ngoal G1 must\ntask B1\ntask A1\nrefine R1 G1 : A1\nrefine S1 G1 : B1\ngoal G2 must\ntask B2\ntask A2\nrefine R2 G2 : A2\nrefine S2 G2 : B2\ngoal G3 must\ntask B3\ntask A3\nrefine R3 G3 : A3\nrefine S3 G3 : B3\ngoal G4 must\ntask B4\ntask A4\nrefine R4 G4 : A4\nrefine S4 G4 : B4\ngoal G5 must\ntask B5\ntask A5\nrefine R5 G5 : A5\nrefine S5 G5 : B5\ngoal G6 must\ntask B6\ntask A6\nrefine R6 G6 : A6\nrefine S6 G6 : B6\ngoal G7 must\ntask B7\ntask A7\nrefine R7 G7 : A7\nrefine S7 G7 : B7\ngoal G8 must\ntask B8\ntask A8\nrefine R8 G8 : A8\nrefine S8 G8 : B8\nsum cost\nvalue cost A1 21\nvalue cost B1 58\nvalue cost A2 14\nvalue cost B2 83\nvalue cost A3 27\nvalue cost B3 67\nvalue cost A4 39\nvalue cost B4 68\nvalue cost A5 87\nvalue cost B5 88\nvalue cost A6 87\nvalue cost B6 33\nvalue cost A7 25\nvalue cost B7 2\nvalue cost A8 92\nvalue cost B8 87\nrequire (<= cost 800)\nobjective min cost\n",
    ),
    (
        9,
        "cgm 1\ngoal G1 must\ntask B1\ntask A1\nrefine R1 G1 : A1\nrefine S1 G1 : B1\ngoal G2 must\ntask B2\ntask A2\nrefine R2 G2 : A2\nrefine S2 G2 : B2\ngoal G3 must\ntask B3\ntask A3\nrefine R3 G3 : A3\nrefine S3 G3 : B3\ngoal G4 must\ntask B4\ntask A4\nrefine R4 G4 : A4\nrefine S4 G4 : B4\ngoal G5 must\ntask B5\ntask A5\nrefine R5 G5 : A5\nrefine S5 G5 : B5\ngoal G6 must\ntask B6\ntask A6\nrefine R6 G6 : A6\nrefine S6 G6 : B6\ngoal G7 must\ntask B7\ntask A7\nrefine R7 G7 : A7\nrefine S7 G7 : B7\ngoal G8 must\ntask B8\ntask A8\nrefine R8 G8 : A8\nrefine S8 G8 : B8\ngoal G9 must\ntask B9\ntask A9\nrefine R9 G9 : A9\nrefine S9 G9 : B9\nsum cost\nvalue cost A1 13\nvalue cost B1 18\nvalue cost A2 50\nvalue cost B2 66\nvalue cost A3 63\nvalue cost B3 16\nvalue cost A4 99\nvalue cost B4 38\nvalue cost A5 69\nvalue cost B5 88\nvalue cost A6 19\nvalue cost B6 37\nvalue cost A7 80\nvalue cost B7 3\nvalue cost A8 62\nvalue cost B8 48\nvalue cost A9 0\nvalue cost B9 36\nrequire (<= cost 800)\nobjective min cost\n",
    ),
    (
        10,
        "cgm 1\ngoal G1 must\ntask B1\ntask A1\nrefine R1 G1 : A1\nrefine S1 G1 : B1\ngoal G2 must\ntask B2\ntask A2\nrefine R2 G2 : A2\nrefine S2 G2 : B2\ngoal G3 must\ntask B3\ntask A3\nrefine R3 G3 : A3\nrefine S3 G3 : B3\ngoal G4 must\ntask B4\ntask A4\nrefine R4 G4 : A4\nrefine S4 G4 : B4\ngoal G5 must\ntask B5\ntask A5\nrefine R5 G5 : A5\nrefine S5 G5 : B5\ngoal G6 must\ntask B6\ntask A6\nrefine R6 G6 : A6\nrefine S6 G6 : B6\ngoal G7 must\ntask B7\ntask A7\nrefine R7 G7 : A7\nrefine S7 G7 : B7\ngoal G8 must\ntask B8\ntask A8\nrefine R8 G8 : A8\nrefine S8 G8 : B8\ngoal G9 must\ntask B9\ntask A9\nrefine R9 G9 : A9\nrefine S9 G9 : B9\ngoal G10 must\ntask B10\ntask A10\nrefine R10 G10 : A10\nrefine S10 G10 : B10\nsum cost\nvalue cost A1 51\nvalue cost B1 22\nvalue cost A2 39\nvalue cost B2 81\nvalue cost A3 61\nvalue cost B3 64\nvalue cost A4 20\nvalue cost B4 53\nvalue cost A5 53\nvalue cost B5 21\nvalue cost A6 65\nvalue cost B6 1\nvalue cost A7 62\nvalue cost B7 97\nvalue cost A8 41\nvalue cost B8 15\nvalue cost A9 0\nvalue cost B9 62\nvalue cost A10 0\nvalue cost B10 16\ncontrib B9 B10\nrequire (<= cost 800)\nobjective min cost\n",
    ),
];

/// Whether the text of the model of so many goals is this one.
fn has_text(alloc: Global, goals: u32, text: &str) -> bool {
    match generate(alloc, goals) {
        Ok(generated) => generated.as_slice() == text.as_bytes(),
        Err(_) => false,
    }
}

#[test]
fn generated_texts(rt: HostRuntime) {
    for (goals, text) in TEXTS {
        assert!(rt; has_text(rt.alloc(), *goals, *text), "at {goals}");
    }
}

/// Numbers of goals, and whether they are too many.
const COUNTS: &[(u32, bool)] = &[(1999, false), (2000, false), (2001, true), (u32::MAX, true)];

/// Whether so many goals are answered by the limit exactly where they are too many.
fn is_limited(alloc: Global, goals: u32, is_past: bool) -> bool {
    match generate(alloc, goals) {
        Ok(_) => !is_past,
        Err(stop) => is_past && stop == GenStop::Limit,
    }
}

#[test]
fn most_goals(rt: HostRuntime) {
    for (goals, is_past) in COUNTS {
        assert!(rt; is_limited(rt.alloc(), *goals, *is_past), "at {goals}");
    }
}
