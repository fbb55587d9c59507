//! The program of `agent audit`: it hands the process's words and output to the audit of a file of records.
#![tactic(auto)]

use ra_endpoint_commands::lines::USAGE;
use ra_ports::{StdSink, write_all};
use ra_record_commands::audit;
use std::env;
use std::process::ExitCode;

/// The words of the command line, without the program's name; none where they are no text.
fn words(rt: &(impl env::Env + AllocGlobal)) -> Vec<String> {
    let mut words = Vec::new(rt.alloc());
    if let Ok(args) = env::args(rt) {
        for word in args.skip(1) {
            if words.push(word).is_err() {
                return Vec::new(rt.alloc());
            }
        }
    }
    words
}

fn main(rt: HostRuntime) -> ExitCode {
    let words = words(&rt);
    let mut sink = StdSink::new(rt.stdout());
    if let [command, path] = words.as_slice() {
        if command.as_str() == "audit" {
            return ExitCode::from(audit(&rt, path.as_str(), &mut sink));
        }
    }
    match write_all(&mut sink, USAGE) {
        Ok(()) => ExitCode::from(2),
        Err(_) => ExitCode::from(4),
    }
}
