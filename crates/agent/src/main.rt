//! The remote agent's program: it hands the process's words, input and output to the commands.
#![tactic(auto)]

use ra_commands::run_plain;
use ra_ports::{StdSink, StdSource};
use std::env;
use std::process::ExitCode;

/// The words of the command line, without the program's name; none where they are no text.
fn words(rt: &(impl env::Env + AllocGlobal)) -> Vec<String> {
    let mut words = Vec::new(rt.alloc());
    if let Ok(args) = env::args(rt) {
        for word in args.skip(1) {
            if words.push(word).is_err() {
                return Vec::new(rt.alloc());
            }
        }
    }
    words
}

fn main(rt: HostRuntime) -> ExitCode {
    let words = words(&rt);
    let mut source = StdSource::new(rt.stdin());
    let mut sink = StdSink::new(rt.stdout());
    ExitCode::from(run_plain(rt.alloc(), &words, &mut source, &mut sink))
}
