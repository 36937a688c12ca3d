// Models of texts, and what is asked of them.
use crate::shown::{Shown, are_lines, is_shown};
use crate::{encodings, questions};
use cgm_evolve::Earlier;
use cgm_model::Model;
use cgm_text::read;
use std::alloc::Global;
use std::process::Abort;
use std::test::Fail;

/// What is asked of a model.
#[derive(Clone, Copy)]
pub(crate) enum Asked<'t> {
    /// Questions of `questions`.
    Questions(&'t str),
    /// Questions of `encodings`.
    Encoded(&'t str),
    /// A certificate, and what its entries show.
    Entries(&'t str, Shown<'t>),
    /// An assignment, its vector, and the lines that show them.
    Lines(&'t str, &'t str, &'t str),
}

/// Asserts that a model is answered so.
pub(crate) fn answers(
    rt: &impl Abort,
    alloc: Global,
    text: &str,
    asked: &Asked<'_>,
) -> Result<(), Fail> {
    assert!(rt; is_answered(alloc, text, asked)?, "at {text}");
    Ok(())
}

fn is_answered(alloc: Global, text: &str, asked: &Asked<'_>) -> Result<bool, Fail> {
    let m = model_of(alloc, text)?;
    let answered = is_answered_by(alloc, &m, asked);
    discard(m);
    answered
}

fn model_of(alloc: Global, text: &str) -> Result<Model, Fail> {
    if text.len() > 16_777_216 {
        return Err(Fail::new("the text is too long"));
    }
    Ok(read(alloc, text.as_bytes())?.model)
}

/// Gives the memory of a model back.
fn discard(_model: Model) {}

/// Whether a model is answered so, where no earlier realization is known.
fn is_answered_by(alloc: Global, model: &Model, asked: &Asked<'_>) -> Result<bool, Fail> {
    let earlier = Earlier::unknown(alloc);
    is_answered_after(alloc, model, &earlier, asked)
}

fn is_answered_after(
    alloc: Global,
    model: &Model,
    earlier: &Earlier,
    asked: &Asked<'_>,
) -> Result<bool, Fail> {
    match asked {
        Asked::Questions(questions) => questions::are_answered(alloc, model, questions),
        Asked::Encoded(questions) => encodings::are_answered(alloc, model, earlier, questions),
        Asked::Entries(certificate, shown) => is_shown(alloc, model, earlier, certificate, shown),
        Asked::Lines(words, vector, lines) => are_lines(alloc, model, words, vector, lines),
    }
}
