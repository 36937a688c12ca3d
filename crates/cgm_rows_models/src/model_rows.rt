// Models, and what is asked of them. The questions are those of `questions`.
use crate::models::{Asked, answers};
use cgm_base::OutOfMemory;
use std::alloc::Global;
use std::test::Fail;

/// Model texts and their questions.
const CASES: &[(&str, &str)] = &[
    // The first rule that is broken, in a graph.
    (
        "cgm 1\ngoal G must\ngoal H\ntask T\ntask U\nrefine R G : H T\nrefine S H : T\nassert U false\n",
        "by 1110 11 - = none; by 1110 01 - = refinement 0; by 0110 11 - = refinement 0; \
         by 1110 10 - = refinement 1; by 1000 00 - = element 0; by 0100 00 - = element 1; \
         by 0000 00 - = must 0; by 1111 11 - = assert 0",
    ),
    // The first of several broken rules: each kind comes before the next.
    (
        "cgm 1\ngoal G\ngoal H\ntask T\ntask U\nrefine R G : T\nrefine S H : U\nrequire U\nassert T false\nconflict T G\ncontrib G T\ncontrib T U\n",
        "by 1010 10 - = contrib 1",
    ),
    (
        "cgm 1\ngoal G\ngoal H\ntask T\ntask U\nrefine R G : T\nrefine S H : U\nrequire U\nassert T false\nconflict U U\nconflict T G\n",
        "by 1010 10 - = conflict 1",
    ),
    (
        "cgm 1\ngoal G\ngoal H\ntask T\ntask U\nrefine R G : T\nrefine S H : U\nrequire U\nassert T true\nassert T false\n",
        "by 1010 10 - = assert 1",
    ),
    (
        "cgm 1\ngoal G\ngoal H\ntask T\ntask U\nrefine R G : T\nrefine S H : U\nrequire T\nrequire T\nrequire U\npre+ T U\n",
        "by 1010 10 - = rule 2",
    ),
    // A binding speaks only where both targets are true.
    (
        "cgm 1\ngoal G\ngoal H\ntask T\ntask U\ntask V\nrefine R G : T\nrefine S H : U\nrefine S2 H : V\nbind R S\n",
        "by 11111 111 - = none; by 11110 110 - = none; by 11101 101 - = bind 0; \
         by 10100 100 - = none; by 01011 011 - = none",
    ),
    // Assignments that fit and that don't.
    (
        "cgm 1\ntask T\ngoal G\nvar X -1 2\nrefine R G : T\n",
        "fits 11 1 -1 = yes; fits 01 1 2 = yes; fits 11 1 -2 = no; fits 11 1 3 = no; \
         fits 11 1 - = no; fits 11 1 0,0 = no; fits 11 - 0 = no; fits 11 11 0 = no; \
         fits 1 1 0 = no; fits 111 1 0 = no",
    ),
];

#[test]
fn models(rt: HostRuntime) -> Result<(), Fail> {
    for (text, questions) in CASES {
        answers(&rt, rt.alloc(), text, &Asked::Questions(questions))?;
    }
    Ok(())
}

/// A requirement that so many variables of 1000000000, each times 1000000, are at most the greatest
/// number of 64 bits.
fn text_of_a_great_sum(alloc: Global, count: u32) -> Result<String, OutOfMemory> {
    let mut text = String::from_str(alloc, "cgm 1\n")?;
    push_variables(alloc, &mut text, count)?;
    text.push_str("require (<= (+")?;
    push_terms(alloc, &mut text, count)?;
    text.push_str(") 9223372036854775807)\n")?;
    Ok(text)
}

fn push_variables(alloc: Global, text: &mut String, count: u32) -> Result<(), OutOfMemory> {
    for number in 1..=count {
        let line = format!(in alloc; "var X{number} 0 1000000000\n")?;
        text.push_str(line.as_str())?;
    }
    Ok(())
}

fn push_terms(alloc: Global, text: &mut String, count: u32) -> Result<(), OutOfMemory> {
    for number in 1..=count {
        let term = format!(in alloc; " (* 1000000 X{number})")?;
        text.push_str(term.as_str())?;
    }
    Ok(())
}

/// The question which rule so many such numbers break.
fn question_of_a_great_sum(alloc: Global, count: u32, wanted: &str) -> Result<String, OutOfMemory> {
    let mut question = String::from_str(alloc, "by - - 1000000000")?;
    for _ in 1..count {
        question.push_str(",1000000000")?;
    }
    question.push_str(" = ")?;
    question.push_str(wanted)?;
    Ok(question)
}

/// Counts of such numbers, and the rule that they break.
const GREAT: &[(u32, &str)] = &[(9223, "none"), (9224, "rule 0")];

// Terms are added up exactly past 64 bits.
#[test]
fn great_sums(rt: HostRuntime) -> Result<(), Fail> {
    for (count, wanted) in GREAT {
        let text = text_of_a_great_sum(rt.alloc(), *count)?;
        let question = question_of_a_great_sum(rt.alloc(), *count, wanted)?;
        let asked = Asked::Questions(question.as_str());
        answers(&rt, rt.alloc(), text.as_str(), &asked)?;
    }
    Ok(())
}
