//! What the program makes of its arguments and of a status.
ghost use Rattle.std.specs.Prelude.{◌≡◌, ◌↔◌, [], drop, map, None, IfOk, IfErr, IsErr};
ghost use Rattle.std.specs.IoError.{error_kind};
ghost use Rattle.std.specs.Process.{exit_status};
ghost use Rattle.std.specs.declared.io.ErrorKind.TheVariants as kinds;
ghost use Rattle.std.specs.Vec.Iter.{into_iter_items};
ghost use Rattle.std.specs.String.{string_bytes};
ghost use Rattle.cgm_base.specs.Status.{code_of};
ghost use Rattle.cgm_base.specs.declared.status.Status.TheVariants as statuses;
ghost use Rattle.cgm_cli.specs.CommandLine.{as_asked, command_for};
ghost use Rattle.cgm_cli.specs.Effects.{world};
ghost use Rattle.cgm_cli.specs.Outcome.{Runs};

use crate::print::tell_memory;
use crate::runs::run;
use cgm_base::{OutOfMemory, Status};
use cgm_search::IdleGate;
use cgm_shelf::{Shelf, Sink};
use cgm_trail::Work;
use std::alloc::Global;
use std::env::Args;
use std::io;
use std::marker::Sync;
use std::process::ExitCode;
use std::sync::Wait;
use std::thread::Threads;

/// Does what the program does for its arguments: what `run` does for the words after the
/// program's own name. Arguments that can't be had because they aren't text are no command line; where
/// there is no memory for them, the answer is `Memory`.
pub fn run_program<R: Threads + Wait + Sync, F: Shelf, O: Sink>(
    rt: &R,
    alloc: Global,
    args: io::Result<Args>,
    shelf: &mut F,
    out: &mut O,
    work: &mut Work,
) -> Status
    ensures given { IfOk args
        (λ args. Runs (command_for as_asked (map string_bytes (drop 1 (into_iter_items args))))
        (world (F.state shelf.old) (O.state out.old) work.old)
        (world (F.state shelf.new) (O.state out.new) work.new) result) }
    ensures refused { IfErr args
        (λ error. Runs None
        (world (F.state shelf.old) (O.state out.old) work.old)
        (world (F.state shelf.new) (O.state out.new) work.new) result
        × (error_kind error ≡ kinds.OutOfMemory → result ≡ statuses.Memory)) }
{
    match words_after_name(alloc, args) {
        Ok(words) => run(rt, alloc, words.as_slice(), shelf, out, &IdleGate, work),
        Err(_) => tell_memory(out),
    }
}

/// The words after the program's own name, all in their order. Arguments that can't be had because
/// they aren't text give no words, which are no command line. Want of memory for the arguments stays
/// want of memory.
pub fn words_after_name(alloc: Global, args: io::Result<Args>) -> Result<Vec<String>, OutOfMemory>
    ensures words { IfOk args (λ args. IfOk result (λ words. words.items ≡ drop 1 (into_iter_items
        args))) }
    ensures none { IfErr args (λ _. IfOk result (λ words. words.items ≡ [])) }
    ensures memory { IfErr args (λ error. IsErr result ↔ (error_kind error ≡ kinds.OutOfMemory)) }
{
    match args {
        Ok(args) => rest_of(alloc, args),
        Err(error) => no_words(alloc, error.kind()),
    }
}

/// All arguments but the first.
fn rest_of(alloc: Global, mut args: Args) -> Result<Vec<String>, OutOfMemory>
    ensures { IfOk result (λ words. words.items ≡ drop 1 (into_iter_items args)) }
{
    let _program_name = args.next();
    let mut words = Vec::new(alloc);
    for word in args {
        words.push(word)?;
    }
    Ok(words)
}

/// No words, where the arguments were refused for another reason than want of memory.
fn no_words(alloc: Global, kind: io::ErrorKind) -> Result<Vec<String>, OutOfMemory>
    ensures none { IfOk result (λ words. words.items ≡ []) }
    ensures memory { IsErr result ↔ (kind ≡ kinds.OutOfMemory) }
{
    match kind {
        io::ErrorKind::OutOfMemory => Err(OutOfMemory),
        _ => Ok(Vec::new(alloc)),
    }
}

/// The exit code of a status: 0 to 10 in the order of the statuses.
pub fn exit_code(status: Status) -> ExitCode
    ensures { exit_status result ≡ code_of status }
{
    ExitCode::from(status.code())
}
