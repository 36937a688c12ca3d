// A problem, a certificate and a log of many entries.
use crate::cert_rows::is_printed_again;
use crate::problems::{discard, problem_of};
use crate::verdicts::is_told_by;
use cgm_atom::Problem;
use cgm_base::OutOfMemory;
use cgm_cert::read_cert;
use std::alloc::Global;
use std::test::Fail;

const LENGTH: u32 = 300;

/// A chain: variable 0 is 1, each variable is 1 where the one before it is, and the last one is 0.
fn chain(alloc: Global) -> Result<String, OutOfMemory> {
    let mut text = String::from_str(alloc, "vars 0..1")?;
    push_chain(alloc, &mut text)?;
    Ok(text)
}

fn push_chain(alloc: Global, text: &mut String) -> Result<(), OutOfMemory> {
    push_variables(text)?;
    text.push_str("; clause 0>=1")?;
    push_links(alloc, text)?;
    let end = format!(in alloc; "; clause {}<=0", LENGTH - 1)?;
    text.push_str(end.as_str())
}

fn push_variables(text: &mut String) -> Result<(), OutOfMemory> {
    for _ in 1..LENGTH {
        text.push_str(" 0..1")?;
    }
    Ok(())
}

fn push_links(alloc: Global, text: &mut String) -> Result<(), OutOfMemory> {
    for x in 1..LENGTH {
        let clause = format!(in alloc; "; clause {}<=0 {x}>=1", x - 1)?;
        text.push_str(clause.as_str())?;
    }
    Ok(())
}

/// The lemmas that each variable of the chain is 1, in their order.
fn certificate(alloc: Global) -> Result<String, Fail> {
    let mut text = String::from_str(alloc, "cgm-cert 1\nlemma 0 0 0>=1 : c0\n")?;
    for x in 1..LENGTH {
        let lemma = format!(in alloc; "lemma 0 0 {x}>=1 : e{x} c{x}\n")?;
        text.push_str(lemma.as_str())?;
    }
    Ok(text)
}

/// Whether the entries of a text tell this of the chain.
fn is_told(alloc: Global, text: &str, wanted: &str) -> Result<bool, Fail> {
    let chain = chain(alloc)?;
    let p = problem_of(alloc, chain.as_str())?;
    let told = is_told_of(alloc, &p, text, wanted);
    discard(p);
    told
}

fn is_told_of(alloc: Global, problem: &Problem, text: &str, wanted: &str) -> Result<bool, Fail> {
    let entries = read_cert(alloc, text.as_bytes())?;
    is_told_by(alloc, problem, entries.as_slice(), wanted)
}

/// Whether the empty lemma, behind these lemmas, shows that the chain has no solution.
fn is_closed(alloc: Global, open: &str) -> Result<bool, Fail> {
    let closed = format!(in alloc; "{open}lemma 0 0 : e{LENGTH} c{LENGTH}\n")?;
    is_told(alloc, closed.as_str(), "none")
}

/// Whether the lemmas are printed as they were, leave the chain open, and are closed by one more.
fn are_right(alloc: Global, open: &str) -> Result<bool, Fail> {
    if !is_printed_again(alloc, open.as_bytes())? {
        return Ok(false);
    }
    if !is_told(alloc, open, "open")? {
        return Ok(false);
    }
    is_closed(alloc, open)
}

#[test]
fn long_log(rt: HostRuntime) -> Result<(), Fail> {
    let open = certificate(rt.alloc())?;
    assert!(rt; are_right(rt.alloc(), open.as_str())?);
    Ok(())
}
