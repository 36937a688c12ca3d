// What entries show of a model, and the lines of what is found.
ghost use Rattle.std.specs.Prelude.{IsTrue};
ghost use Rattle.cgm_model.specs.Model.{lists_of};
ghost use Rattle.cgm_report.specs.Shown.{IsShowable};

use crate::assignments::{assignment, numbers};
use cgm_atom::{Entry, Seq};
use cgm_cert::read_cert;
use cgm_encode::Found;
use cgm_evolve::Earlier;
use cgm_model::{Model, fits};
use cgm_report::found_lines;
use cgm_solve::{Answer, Verified, verify};
use std::alloc::Global;
use std::test::Fail;

/// What an answer shows: a least realization with a vector and its lines, no realization, or nothing.
#[derive(Clone, Copy)]
pub(crate) enum Shown<'t> {
    Least(&'t str),
    Nothing,
    Never,
}

/// Whether the entries of a certificate show this.
pub(crate) fn is_shown(
    alloc: Global,
    model: &Model,
    earlier: &Earlier,
    certificate: &str,
    wanted: &Shown<'_>,
) -> Result<bool, Fail> {
    let entries = read_cert(alloc, certificate.as_bytes())?;
    is_shown_by(alloc, model, earlier, entries.as_slice(), wanted)
}

fn is_shown_by(
    alloc: Global,
    model: &Model,
    earlier: &Earlier,
    entries: &[Entry],
    wanted: &Shown<'_>,
) -> Result<bool, Fail> {
    let verified = verify(alloc, model, earlier, entries)?;
    is_verified(alloc, model, &verified, wanted)
}

fn is_verified(
    alloc: Global,
    model: &Model,
    verified: &Verified,
    wanted: &Shown<'_>,
) -> Result<bool, Fail> {
    match verified {
        Verified::Refused { .. } => Ok(false),
        Verified::Shown(Answer::Realized { found, .. }) => match wanted {
            Shown::Least(lines) => has_lines(alloc, model, found, lines),
            _ => Ok(false),
        },
        Verified::Shown(Answer::Unrealizable { .. }) => Ok(matches!(wanted, Shown::Never)),
        Verified::Shown(_) => Ok(matches!(wanted, Shown::Nothing)),
    }
}

/// Whether what is found can be shown, and has these lines.
fn has_lines(alloc: Global, model: &Model, found: &Found, lines: &str) -> Result<bool, Fail> {
    if !can_show(model, found) {
        return Ok(false);
    }
    Ok(found_lines(alloc, model, found)?.as_slice() == lines.as_bytes())
}

fn can_show(model: &Model, found: &Found) -> bool
    ensures { IsTrue result → IsShowable (lists_of model.now) found.now }
{
    if !fits(model, &found.assignment) {
        return false;
    }
    found.vector.as_slice().len() == model.objectives.as_slice().len()
}

/// Whether an assignment and its vector are shown by these lines.
pub(crate) fn are_lines(
    alloc: Global,
    model: &Model,
    words: &str,
    vector: &str,
    lines: &str,
) -> Result<bool, Fail> {
    let found = found_of(alloc, words, vector)?;
    has_lines(alloc, model, &found, lines)
}

fn found_of(alloc: Global, words: &str, vector: &str) -> Result<Found, Fail> {
    let vector = numbers(alloc, vector)?;
    Ok(Found {
        assignment: assignment(alloc, words)?,
        vector: Seq::of(vector),
    })
}
