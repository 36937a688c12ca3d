//! The cases of a transcript.
ghost use Rattle.std.specs.Prelude.{◌<◌, ◌≤◌, length, IfOk};

use crate::case::{Call, Case, FailingCall, NamedFile, Piece, Step};
use crate::content::content_of;
use crate::directive::{Directive, Keyword, directives_of};
use crate::flaw::{Fault, Flaw};
use crate::run_reader::run_of;
use crate::values::{name_of, no_content, no_text, positive_of};
use std::alloc::Global;
use std::mem::drop;

/// The cases of a text, in their order.
pub(crate) fn cases_of<'a>(alloc: Global, text: &'a [u8]) -> Result<Vec<Case<'a>>, Flaw> {
    match directives_of(alloc, text) {
        Ok(directives) => {
            let cases = cases_in(alloc, directives.as_slice());
            drop(directives);
            cases
        }
        Err(flaw) => Err(flaw),
    }
}

fn cases_in<'a>(alloc: Global, directives: &[Directive<'a>]) -> Result<Vec<Case<'a>>, Flaw> {
    let mut cases = Vec::new(alloc);
    match add_cases(alloc, directives, &mut cases) {
        Ok(()) => Ok(cases),
        Err(flaw) => {
            drop(cases);
            Err(flaw)
        }
    }
}

fn add_cases<'a>(
    alloc: Global,
    directives: &[Directive<'a>],
    cases: &mut Vec<Case<'a>>,
) -> Result<(), Flaw> {
    let mut at = 0;
    while at < directives.len() {
        at = add_case(alloc, directives, at, cases)?;
    }
    Ok(())
}

/// Adds the case that begins at a place. The place after it is answered.
fn add_case<'a>(
    alloc: Global,
    directives: &[Directive<'a>],
    first: usize,
    cases: &mut Vec<Case<'a>>,
) -> Result<usize, Flaw>
    requires { first < length directives.now }
    ensures { IfOk result (λ after. (first < after) × (after ≤ length directives.now)) }
{
    let name = case_name(&directives[first], cases.as_slice())?;
    let mut steps = Vec::new(alloc);
    match add_own_steps(alloc, directives, first, &mut steps) {
        Ok(after) => {
            cases.push(Case { name, steps })?;
            Ok(after)
        }
        Err(flaw) => {
            drop(steps);
            Err(flaw)
        }
    }
}

/// Adds the steps of the case that begins at a place, the last of which is a run. The place after
/// them is answered.
fn add_own_steps<'a>(
    alloc: Global,
    directives: &[Directive<'a>],
    first: usize,
    steps: &mut Vec<Step<'a>>,
) -> Result<usize, Flaw>
    requires { first < length directives.now }
    ensures { IfOk result (λ after. (first < after) × (after ≤ length directives.now)) }
{
    let after = add_steps(alloc, directives, first + 1, steps)?;
    end_with_run(directives[first].line, steps.as_slice())?;
    Ok(after)
}

/// The name of a new case, which no case before has.
fn case_name<'a>(directive: &Directive<'a>, cases: &[Case<'_>]) -> Result<&'a str, Flaw> {
    if directive.keyword != Keyword::Case {
        return Err(Flaw::Form {
            line: directive.line,
            fault: Fault::NoCase,
        });
    }
    no_content(directive)?;
    let name = name_of(directive)?;
    if is_taken(name, cases) {
        return Err(Flaw::Form {
            line: directive.line,
            fault: Fault::TakenName,
        });
    }
    Ok(name)
}

/// Refuses a case, which begins at this line, whose last step isn't a run: nothing would try it.
fn end_with_run(line: u64, steps: &[Step<'_>]) -> Result<(), Flaw> {
    match steps.last() {
        Some(Step::Run(_)) => Ok(()),
        _ => Err(Flaw::Form {
            line,
            fault: Fault::IdleEnd,
        }),
    }
}

fn is_taken(name: &str, cases: &[Case<'_>]) -> bool {
    for case in cases {
        if case.name == name {
            return true;
        }
    }
    false
}

/// Adds the steps from a place on up to the next case. The place of that case or of the end is
/// answered.
fn add_steps<'a>(
    alloc: Global,
    directives: &[Directive<'a>],
    from: usize,
    steps: &mut Vec<Step<'a>>,
) -> Result<usize, Flaw>
    requires { from ≤ length directives.now }
    ensures { IfOk result (λ after. (from ≤ after) × (after ≤ length directives.now)) }
{
    let mut at = from;
    while at < directives.len() {
        if directives[at].keyword == Keyword::Case {
            return Ok(at);
        }
        at = add_step(alloc, directives, at, steps)?;
    }
    Ok(at)
}

/// Adds the step of the directive at a place and of those that belong to it. The place after them is
/// answered.
fn add_step<'a>(
    alloc: Global,
    directives: &[Directive<'a>],
    at: usize,
    steps: &mut Vec<Step<'a>>,
) -> Result<usize, Flaw>
    requires { at < length directives.now }
    ensures { IfOk result (λ after. (at < after) × (after ≤ length directives.now)) }
{
    if directives[at].keyword == Keyword::Run {
        return add_run(alloc, directives, at, steps);
    }
    match lone_step(alloc, &directives[at]) {
        Ok(step) => {
            push_step(steps, step)?;
            Ok(at + 1)
        }
        Err(flaw) => Err(flaw),
    }
}

/// Adds the run of the directive at a place. The place after what belongs to it is answered.
fn add_run<'a>(
    alloc: Global,
    directives: &[Directive<'a>],
    at: usize,
    steps: &mut Vec<Step<'a>>,
) -> Result<usize, Flaw>
    requires { at < length directives.now }
    ensures { IfOk result (λ after. (at < after) × (after ≤ length directives.now)) }
{
    match run_of(alloc, directives, at) {
        Ok((run, after)) => {
            push_step(steps, Step::Run(run))?;
            Ok(after)
        }
        Err(flaw) => Err(flaw),
    }
}

fn push_step<'a>(steps: &mut Vec<Step<'a>>, step: Step<'a>) -> Result<(), Flaw> {
    match steps.push(step) {
        Ok(()) => Ok(()),
        Err(_) => Err(Flaw::Memory),
    }
}

/// The step of a directive that stands alone.
fn lone_step<'a>(alloc: Global, directive: &Directive<'a>) -> Result<Step<'a>, Flaw> {
    match directive.keyword {
        Keyword::File => file_step(alloc, directive),
        Keyword::Piece => piece_step(directive),
        Keyword::Alone => bare_step(directive, Step::Alone),
        Keyword::Together => bare_step(directive, Step::Together),
        keyword => match call_of(keyword) {
            Some(call) => call_step(call, directive),
            None => Err(Flaw::Form {
                line: directive.line,
                fault: Fault::NoRun,
            }),
        },
    }
}

fn file_step<'a>(alloc: Global, directive: &Directive<'a>) -> Result<Step<'a>, Flaw> {
    let name = name_of(directive)?;
    let bytes = content_of(alloc, directive.content.as_slice())?;
    Ok(Step::File(NamedFile { name, bytes }))
}

fn piece_step<'a>(directive: &Directive<'a>) -> Result<Step<'a>, Flaw> {
    let size = positive_of(directive)? as usize;
    Ok(Step::Piece(Piece { size }))
}

/// This step, where nothing follows its word.
fn bare_step<'a>(directive: &Directive<'a>, step: Step<'a>) -> Result<Step<'a>, Flaw> {
    no_content(directive)?;
    no_text(directive)?;
    Ok(step)
}

/// The kind of call that a directive has fail.
fn call_of(keyword: Keyword) -> Option<Call> {
    match keyword {
        Keyword::FailRead => Some(Call::Read),
        Keyword::FailStart => Some(Call::Start),
        Keyword::FailWrite => Some(Call::Write),
        Keyword::FailPrint => Some(Call::Print),
        _ => None,
    }
}

fn call_step<'a>(call: Call, directive: &Directive<'a>) -> Result<Step<'a>, Flaw> {
    let number = positive_of(directive)?;
    Ok(Step::Fail(FailingCall { call, number }))
}
