//! The command of the words of the command line.
ghost use Rattle.std.specs.Prelude.{◌≡◌, ◌≤◌, IfOk, IfSome, map, option_and_then, option_map};
ghost use Rattle.std.specs.String.{string_bytes};
ghost use Rattle.clap.specs.Words.{found_of, rows_of};
ghost use Rattle.cgm_atom.specs.Limits.{max_workers};
ghost use Rattle.cgm_crew.specs.Crews.{plan_of};
ghost use Rattle.cgm_search.specs.Searching.{IsPlan};
ghost use Rattle.cgm_cli.specs.CommandLine.{action_of, check_options, check_with, command_line, command_of, earlier_file, encode_options, encode_with, given, goals_given, model_file, number_given, plan_given, seed_given, show_options, show_with, solve_options, solve_with, trial_options, trial_plan, trial_with, workers_given};
ghost use Rattle.cgm_cli.specs.Commands.{HasActionPlan, HasPlan, asked_by, told_by};

use crate::numbers::{number_or, numeral_in};
use crate::options::{
    check_options, encode_options, given, show_options, solve_options, text_given, trial_options,
};
use cgm_base::OutOfMemory;
use cgm_search::{MAX_BUDGET, MAX_RESTARTS, Plan};
use cgm_solve::Crew;
use clap::ArgMatches;
use std::alloc::Global;

/// The most workers.
const MAX_WORKERS: u64 = 16;

/// How many workers search where no number is given.
const WORKERS: u64 = 4;

/// The budget of each worker where none is given.
const BUDGET: u64 = 1_000_000_000;

/// How many restarts each worker makes at most where no number is given.
const RESTARTS: u64 = 64;

/// The seed where none is given.
const SEED: u64 = 0;

/// `solve MODEL`, with the file of an earlier realization and that of the certificate where they are
/// given, by so many workers, each with this plan.
#[derive(Clone, Copy)]
pub(crate) struct SolveRequest<'w> {
    pub(crate) model: &'w str,
    pub(crate) earlier: Option<&'w str>,
    pub(crate) cert: Option<&'w str>,
    pub(crate) workers: u64,
    pub(crate) plan: Plan,
}

/// `check MODEL CERT`, with the file of an earlier realization where one is given.
#[derive(Clone, Copy)]
pub(crate) struct CheckRequest<'w> {
    pub(crate) model: &'w str,
    pub(crate) cert: &'w str,
    pub(crate) earlier: Option<&'w str>,
}

/// `encode MODEL`, with the file of an earlier realization where one is given.
#[derive(Clone, Copy)]
pub(crate) struct EncodeRequest<'w> {
    pub(crate) model: &'w str,
    pub(crate) earlier: Option<&'w str>,
}

/// `trial N`: the generated model of so many goals, solved by so many workers, each with this plan.
#[derive(Clone, Copy)]
pub(crate) struct TrialRequest {
    pub(crate) goals: u32,
    pub(crate) workers: u64,
    pub(crate) plan: Plan,
}

/// A command on files, with their names.
#[derive(Clone, Copy)]
pub(crate) enum Command<'w> {
    Solve(SolveRequest<'w>),
    Check(CheckRequest<'w>),
    /// `show MODEL`
    Show { model: &'w str },
    Encode(EncodeRequest<'w>),
}

/// So many workers, each with this plan.
fn crew_of(workers: u64, plan: Plan) -> Crew
    requires { workers ≤ max_workers }
    ensures workers { result.workers ≡ workers }
    ensures plan { plan_of result ≡ plan }
{
    Crew {
        workers: workers as u32,
        budget: plan.budget,
        restarts: plan.restarts,
        seed: plan.seed,
    }
}

impl<'w> SolveRequest<'w> {
    /// The workers that are asked for, and how each of them searches.
    pub(crate) fn crew(self) -> Crew
        requires { self.workers ≤ max_workers }
        ensures workers { result.workers ≡ self.entry.workers }
        ensures plan { plan_of result ≡ self.entry.plan }
    {
        crew_of(self.workers, self.plan)
    }
}

impl TrialRequest {
    /// The workers that are asked for, and how each of them searches.
    pub(crate) fn crew(self) -> Crew
        requires { self.workers ≤ max_workers }
        ensures workers { result.workers ≡ self.workers }
        ensures plan { plan_of result ≡ self.plan }
    {
        crew_of(self.workers, self.plan)
    }
}

impl<'w> Command<'w> {
    /// The file of the model.
    pub(crate) fn model(self) -> &'w str
        ensures { result.now ≡ model_file (told_by self.entry) }
    {
        match self {
            Command::Solve(request) => request.model,
            Command::Check(request) => request.model,
            Command::Show { model } => model,
            Command::Encode(request) => request.model,
        }
    }

    /// The file of the earlier realization, where one is named.
    pub(crate) fn earlier(self) -> Option<&'w str>
        ensures { option_map (λ file. file.now) result ≡ earlier_file (told_by self.entry) }
    {
        match self {
            Command::Solve(request) => request.earlier,
            Command::Check(request) => request.earlier,
            Command::Show { .. } => None,
            Command::Encode(request) => request.earlier,
        }
    }
}

/// What the words ask for.
#[derive(Clone, Copy)]
pub(crate) enum Action<'w> {
    /// A command on files.
    OnFiles(Command<'w>),
    Trial(TrialRequest),
}

/// What the words ask for; none where they are no command line.
pub(crate) fn action_in<'w>(
    alloc: Global,
    words: &'w [String],
) -> Result<Option<Action<'w>>, OutOfMemory>
    ensures command { IfOk result
        (λ found. option_map asked_by found ≡ command_line (map string_bytes words.now)) }
    ensures plan { IfOk result (λ found. IfSome found HasActionPlan) }
{
    match words {
        [] => Ok(None),
        [word, ..] => action_of(alloc, word.as_str(), words),
    }
}

/// What this word asks for, which the words begin with.
fn action_of<'w>(
    alloc: Global,
    word: &str,
    words: &'w [String],
) -> Result<Option<Action<'w>>, OutOfMemory>
    ensures command { IfOk result
        (λ found. option_map asked_by found ≡ action_of word.now (map string_bytes words.now)) }
    ensures plan { IfOk result (λ found. IfSome found HasActionPlan) }
{
    if word == "trial" {
        return trial_in(alloc, words);
    }
    match command_of(alloc, word, words)? {
        None => Ok(None),
        Some(command) => Ok(Some(Action::OnFiles(command))),
    }
}

/// The command on files of this word, which the words begin with.
fn command_of<'w>(
    alloc: Global,
    word: &str,
    words: &'w [String],
) -> Result<Option<Command<'w>>, OutOfMemory>
    ensures command { IfOk result
        (λ found. option_map told_by found ≡ command_of word.now (map string_bytes words.now)) }
    ensures plan { IfOk result (λ found. IfSome found HasPlan) }
{
    if word == "solve" {
        solve_in(alloc, words)
    } else if word == "check" {
        check_in(alloc, words)
    } else if word == "show" {
        show_in(alloc, words)
    } else if word == "encode" {
        encode_in(alloc, words)
    } else {
        Ok(None)
    }
}

fn solve_in<'w>(alloc: Global, words: &'w [String]) -> Result<Option<Command<'w>>, OutOfMemory>
    ensures command { IfOk result (λ found. option_map told_by found
        ≡ option_and_then solve_with (given solve_options (map string_bytes words.now))) }
    ensures plan { IfOk result (λ found. IfSome found HasPlan) }
{
    match given(solve_options(alloc)?, words)? {
        None => Ok(None),
        Some(matches) => Ok(solve_with(&matches)),
    }
}

fn solve_with<'w>(matches: &ArgMatches<'w>) -> Option<Command<'w>>
    ensures command { option_map told_by result ≡ solve_with (rows_of (found_of matches.now)) }
    ensures plan { IfSome result HasPlan }
{
    let model = text_given(matches, "model")?;
    let earlier = text_given(matches, "earlier");
    let cert = text_given(matches, "cert");
    let workers = workers_given(matches)?;
    let plan = plan_given(matches)?;
    Some(Command::Solve(SolveRequest {
        model,
        earlier,
        cert,
        workers,
        plan,
    }))
}

/// The number of an option, or its default; none where what is given is no number of its range.
fn number_given(
    matches: &ArgMatches<'_>,
    name: &str,
    least: u64,
    greatest: u64,
    default: u64,
) -> Option<u64>
    requires default { (least ≤ default) × (default ≤ greatest) }
    ensures number { result
        ≡ number_given name.now least greatest default (rows_of (found_of matches.now)) }
    ensures within { IfSome result (λ number. number ≤ greatest) }
    ensures at_least { IfSome result (λ number. least ≤ number) }
{
    number_or(least, greatest, default, text_given(matches, name))
}

fn workers_given(matches: &ArgMatches<'_>) -> Option<u64>
    ensures number { result ≡ workers_given (rows_of (found_of matches.now)) }
    ensures within { IfSome result (λ workers. (1 ≤ workers) × (workers ≤ max_workers)) }
{
    number_given(matches, "workers", 1, MAX_WORKERS, WORKERS)
}

/// How long and how each worker searches.
fn plan_given(matches: &ArgMatches<'_>) -> Option<Plan>
    ensures plan { result ≡ plan_given (rows_of (found_of matches.now)) }
    ensures within { IfSome result IsPlan }
{
    let budget = number_given(matches, "budget", 0, MAX_BUDGET, BUDGET)?;
    let restarts = number_given(matches, "restarts", 0, MAX_RESTARTS as u64, RESTARTS)?;
    let seed = seed_given(matches)?;
    Some(Plan {
        budget,
        restarts: restarts as u32,
        seed,
    })
}

fn check_in<'w>(alloc: Global, words: &'w [String]) -> Result<Option<Command<'w>>, OutOfMemory>
    ensures command { IfOk result (λ found. option_map told_by found
        ≡ option_and_then check_with (given check_options (map string_bytes words.now))) }
    ensures plan { IfOk result (λ found. IfSome found HasPlan) }
{
    match given(check_options(alloc)?, words)? {
        None => Ok(None),
        Some(matches) => Ok(check_with(&matches)),
    }
}

fn check_with<'w>(matches: &ArgMatches<'w>) -> Option<Command<'w>>
    ensures command { option_map told_by result ≡ check_with (rows_of (found_of matches.now)) }
    ensures plan { IfSome result HasPlan }
{
    let model = text_given(matches, "model")?;
    let cert = text_given(matches, "cert")?;
    let earlier = text_given(matches, "earlier");
    Some(Command::Check(CheckRequest {
        model,
        cert,
        earlier,
    }))
}

fn show_in<'w>(alloc: Global, words: &'w [String]) -> Result<Option<Command<'w>>, OutOfMemory>
    ensures command { IfOk result (λ found. option_map told_by found
        ≡ option_and_then show_with (given show_options (map string_bytes words.now))) }
    ensures plan { IfOk result (λ found. IfSome found HasPlan) }
{
    match given(show_options(alloc)?, words)? {
        None => Ok(None),
        Some(matches) => Ok(show_with(&matches)),
    }
}

fn show_with<'w>(matches: &ArgMatches<'w>) -> Option<Command<'w>>
    ensures command { option_map told_by result ≡ show_with (rows_of (found_of matches.now)) }
    ensures plan { IfSome result HasPlan }
{
    match text_given(matches, "model") {
        None => None,
        Some(model) => Some(Command::Show { model }),
    }
}

fn encode_in<'w>(alloc: Global, words: &'w [String]) -> Result<Option<Command<'w>>, OutOfMemory>
    ensures command { IfOk result (λ found. option_map told_by found
        ≡ option_and_then encode_with (given encode_options (map string_bytes words.now))) }
    ensures plan { IfOk result (λ found. IfSome found HasPlan) }
{
    match given(encode_options(alloc)?, words)? {
        None => Ok(None),
        Some(matches) => Ok(encode_with(&matches)),
    }
}

fn encode_with<'w>(matches: &ArgMatches<'w>) -> Option<Command<'w>>
    ensures command { option_map told_by result ≡ encode_with (rows_of (found_of matches.now)) }
    ensures plan { IfSome result HasPlan }
{
    match text_given(matches, "model") {
        None => None,
        Some(model) => {
            let earlier = text_given(matches, "earlier");
            Some(Command::Encode(EncodeRequest { model, earlier }))
        }
    }
}

fn trial_in<'w>(alloc: Global, words: &'w [String]) -> Result<Option<Action<'w>>, OutOfMemory>
    ensures command { IfOk result (λ found. option_map asked_by found
        ≡ option_and_then trial_with (given trial_options (map string_bytes words.now))) }
    ensures plan { IfOk result (λ found. IfSome found HasActionPlan) }
{
    match given(trial_options(alloc)?, words)? {
        None => Ok(None),
        Some(matches) => Ok(trial_with(&matches)),
    }
}

fn trial_with<'w>(matches: &ArgMatches<'w>) -> Option<Action<'w>>
    ensures command { option_map asked_by result ≡ trial_with (rows_of (found_of matches.now)) }
    ensures plan { IfSome result HasActionPlan }
{
    let goals = goals_given(matches)?;
    let workers = workers_given(matches)?;
    let seed = seed_given(matches)?;
    Some(Action::Trial(TrialRequest {
        goals,
        workers,
        plan: trial_plan(seed),
    }))
}

/// How many goals `trial` is given.
fn goals_given(matches: &ArgMatches<'_>) -> Option<u32>
    ensures { result ≡ goals_given (rows_of (found_of matches.now)) }
{
    let text = text_given(matches, "goals")?;
    let goals = numeral_in(0, u64::from(u32::MAX), text)?;
    Some(goals as u32)
}

fn seed_given(matches: &ArgMatches<'_>) -> Option<u64>
    ensures { result ≡ seed_given (rows_of (found_of matches.now)) }
{
    number_given(matches, "seed", 0, u64::MAX, SEED)
}

/// The plan of `trial`: the budget and the restarts are those where none are given.
fn trial_plan(seed: u64) -> Plan
    ensures plan { result ≡ trial_plan seed }
    ensures within { IsPlan result }
{
    Plan {
        budget: BUDGET,
        restarts: RESTARTS as u32,
        seed,
    }
}
