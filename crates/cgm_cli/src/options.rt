//! The words that each command takes, as options of the kit's parser of command lines.
ghost use Rattle.std.specs.Prelude.{◌≡◌, IfOk, true, [], ◌∷◌, codes, map, option_map};
ghost use Rattle.std.specs.String.{string_bytes};
ghost use Rattle.clap.specs.Words.{app_of, first_of, found_of, is_simple_and_free, rows_of, with_rule};
ghost use Rattle.cgm_cli.specs.Adding.{with_numbers};
ghost use Rattle.cgm_cli.specs.CommandLine.{check_options, encode_options, given, option, options_of, positional, show_options, solve_options, trial_options};

use cgm_base::OutOfMemory;
use clap::error::ErrorKind;
use clap::{Arg, ArgMatches, Command, Error};
use std::alloc::Global;

/// The options with one more word that is wanted in its place.
fn with_positional<'w>(
    alloc: Global,
    options: Command<'w>,
    id: &'w str,
) -> Result<Command<'w>, OutOfMemory>
    ensures { IfOk result
        (λ more. app_of more ≡ with_rule (app_of options.entry) (positional id.now)) }
{
    options.arg(Arg::new(alloc, id).required(true))
}

/// The options with `--NAME=VALUE`, which may be left out.
fn with_option<'w>(
    alloc: Global,
    options: Command<'w>,
    name: &'w str,
) -> Result<Command<'w>, OutOfMemory>
    ensures { IfOk result
        (λ more. app_of more ≡ with_rule (app_of options.entry) (option name.now)) }
{
    options.arg(Arg::new(alloc, name).long(name))
}

/// The options with `--workers=N --budget=N --restarts=N --seed=N`.
fn with_numbers<'w>(alloc: Global, options: Command<'w>) -> Result<Command<'w>, OutOfMemory>
    ensures { IfOk result (λ more. app_of more ≡ with_numbers (app_of options.entry)) }
{
    let with_workers = with_option(alloc, options, "workers")?;
    let with_budget = with_option(alloc, with_workers, "budget")?;
    let with_restarts = with_option(alloc, with_budget, "restarts")?;
    with_option(alloc, with_restarts, "seed")
}

/// `WORD MODEL`, with which each command begins.
fn model_options<'w>(alloc: Global, word: &'w str) -> Result<Command<'w>, OutOfMemory>
    ensures { IfOk result
        (λ options. app_of options ≡ options_of word.now (codes "model" ∷ []) []) }
{
    let options = Command::new(alloc, word).disable_help_flag(true);
    with_positional(alloc, options, "model")
}

/// `solve MODEL --earlier=FILE --cert=FILE --workers=N --budget=N --restarts=N --seed=N`
pub(crate) fn solve_options<'w>(alloc: Global) -> Result<Command<'w>, OutOfMemory>
    ensures { IfOk result (λ options. app_of options ≡ solve_options) }
{
    let with_model = model_options(alloc, "solve")?;
    let with_earlier = with_option(alloc, with_model, "earlier")?;
    let with_cert = with_option(alloc, with_earlier, "cert")?;
    with_numbers(alloc, with_cert)
}

/// `check MODEL CERT --earlier=FILE`
pub(crate) fn check_options<'w>(alloc: Global) -> Result<Command<'w>, OutOfMemory>
    ensures { IfOk result (λ options. app_of options ≡ check_options) }
{
    let with_model = model_options(alloc, "check")?;
    let with_cert = with_positional(alloc, with_model, "cert")?;
    with_option(alloc, with_cert, "earlier")
}

/// `show MODEL`
pub(crate) fn show_options<'w>(alloc: Global) -> Result<Command<'w>, OutOfMemory>
    ensures { IfOk result (λ options. app_of options ≡ show_options) }
{
    model_options(alloc, "show")
}

/// `encode MODEL --earlier=FILE`
pub(crate) fn encode_options<'w>(alloc: Global) -> Result<Command<'w>, OutOfMemory>
    ensures { IfOk result (λ options. app_of options ≡ encode_options) }
{
    let with_model = model_options(alloc, "encode")?;
    with_option(alloc, with_model, "earlier")
}

/// `trial N --workers=N --seed=N`
pub(crate) fn trial_options<'w>(alloc: Global) -> Result<Command<'w>, OutOfMemory>
    ensures { IfOk result (λ options. app_of options ≡ trial_options) }
{
    let options = Command::new(alloc, "trial").disable_help_flag(true);
    let with_goals = with_positional(alloc, options, "goals")?;
    let with_workers = with_option(alloc, with_goals, "workers")?;
    with_option(alloc, with_workers, "seed")
}

/// What the words, of which the first is the command's, give to each name; none where they aren't
/// what the command takes.
pub(crate) fn given<'w>(
    options: Command<'w>,
    words: &'w [String],
) -> Result<Option<ArgMatches<'w>>, OutOfMemory>
    requires { is_simple_and_free (app_of options) ≡ true }
    ensures { IfOk result (λ found. option_map (λ matches. rows_of (found_of matches)) found
        ≡ given (app_of options.entry) (map string_bytes words.now)) }
{
    match options.try_get_matches_from(words) {
        Ok(matches) => Ok(Some(matches)),
        Err(error) => match error.kind() {
            ErrorKind::OutOfMemory => Err(OutOfMemory),
            _ => Ok(None),
        },
    }
}

/// What the words gave to a name, if anything.
pub(crate) fn text_given<'w>(matches: &ArgMatches<'w>, name: &str) -> Option<&'w str>
    ensures { option_map (λ text. text.now) result ≡ first_of name.now (rows_of (found_of
        matches.now)) }
{
    matches.get_str(name)
}
