//! The program: `cgm solve MODEL`, `cgm check MODEL CERT`, `cgm show MODEL`, `cgm encode MODEL`.
#![tactic(auto)]

use cgm_cli::{exit_code, run_program};
use cgm_shelf::{FileShelf, OutSink};
use cgm_trail::Work;
use std::env;
use std::process::ExitCode;

fn main(rt: HostRuntime) -> ExitCode {
    let mut shelf = FileShelf::new(&rt);
    let mut out = OutSink::new(&rt);
    let mut work = Work::new(rt.alloc());
    let args = env::args(&rt);
    exit_code(run_program(&rt, rt.alloc(), args, &mut shelf, &mut out, &mut work))
}
