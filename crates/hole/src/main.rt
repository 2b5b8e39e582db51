//! The program `hole`.
#![tactic(auto)]

use gopher_hole::run;
use gopher_text::Watched;
use std::env;
use std::process::ExitCode;

fn main(rt: HostRuntime) -> ExitCode {
    let mut input = Watched::new(rt.stdin());
    let mut output = Watched::new(rt.stdout());
    let mut error = Watched::new(rt.stderr());
    let arguments = match env::args(&rt) {
        Ok(arguments) => arguments.skip(1).collect(rt.alloc()),
        Err(_) => Ok(Vec::new(rt.alloc())),
    };
    let Ok(arguments) = arguments else {
        let _ = rt.eprintln("hole: 90");
        return ExitCode::FAILURE;
    };
    ExitCode::from(run(&rt, &arguments, &mut input, &mut output, &mut error))
}
