//! The program `mkcheck`: runs the command that its command line gives.
#![tactic(auto)]

use mk_core_since::Below;
use mkcheck_host::{Disk, HostFiles, Sink, conclude, keep_pages};
use mkcheck_run::run_arguments;
use std::env::Env;
use std::process::ExitCode;
use std::{env, io};

// The words of the command line after the program's name.
fn words<R: Env + AllocGlobal>(rt: &R) -> io::Result<Vec<String>> {
    let mut args = env::args(rt)?;
    let _ = args.next();
    Ok(args.collect(rt.alloc())?)
}

fn main(rt: HostRuntime) -> ExitCode {
    keep_pages(rt.alloc());
    let mut disk = Disk::new(HostFiles::new(rt.alloc(), &rt));
    let mut below = Below::new(rt.alloc(), Disk::new(HostFiles::new(rt.alloc(), &rt)));
    let ran = run_arguments(rt.alloc(), &mut disk, &mut below, words(&rt));
    conclude(
        &mut Sink::new(rt.stdout()),
        &mut Sink::new(rt.stderr()),
        &ran,
    )
}
