//! Nested transactions at the command line.
#![tactic(auto)]

use lt_call::{end_with, words};
use lt_io::{ReaderSource, WriterSink};
use lt_nest_lines::program;
use std::process::ExitCode;

fn main(rt: HostRuntime) -> ExitCode {
    let mut source = ReaderSource::new(rt.stdin());
    let mut sink = WriterSink::new(rt.stdout());
    let answer = program(rt.alloc(), &words(&rt), &mut source, &mut sink);
    end_with(&rt, &answer)
}
