//! picatq: asks a goal of a Picat program and writes its answers.
#![tactic(auto)]

ghost use Rattle.std.specs.Prelude.{◌≡◌};
ghost use Rattle.std.specs.Process.{exit_status};

use pi_outside::{RealFiles, RealSink, RealSource};
use pi_top::{Outcome, picatq};
use std::alloc::AllocError;
use std::process::ExitCode;
use std::rt::Env;
use std::{env, io};

fn main(rt: HostRuntime) -> ExitCode {
    let Ok(words) = read_args(&rt) else {
        let _ = println!(rt; "want of memory");
        return ExitCode::from(9);
    };
    let mut files = RealFiles::new(&rt);
    let mut input = RealSource::new(&rt);
    let mut out = RealSink::new(&rt);
    let outcome = picatq(
        rt.alloc(),
        words.as_slice(),
        &mut files,
        &mut input,
        &mut out,
    );
    exit_code(&outcome)
}

/// The status with which the process ends: that of the run.
fn exit_code(outcome: &Outcome) -> ExitCode
    ensures { exit_status result ≡ outcome.now.status }
{
    ExitCode::from(outcome.status)
}

/// The words behind the program's name. Where one isn't UTF-8 there are none, which is a faulty command line too.
fn read_args<R: Env + AllocGlobal>(rt: &R) -> Result<Vec<String>, AllocError> {
    let mut words = Vec::new(rt.alloc());
    match env::args(rt) {
        Ok(args) => {
            for word in args.skip(1) {
                words.push(word)?;
            }
        }
        Err(e) if e.kind() == io::ErrorKind::InvalidData => {}
        Err(_) => return Err(AllocError),
    }
    Ok(words)
}
