//! The program `fastcat`: FAST 1.1 streams as lines of text, checked, and in canonical form.
//!
//! `fastcat show|check|canon --templates FILE [--hex] [--strict] [--blocks] [--json] [--explain] [FILE]` reads a stream of messages of any templates.
#![tactic(auto)]

use fast_host::Host;
use fast_io::Counted;
use fast_serve::serve::{TURNS, serve_words};
use std::process::ExitCode;
use std::{env, io};

/// The words of the process.
fn words(rt: &HostRuntime) -> io::Result<Vec<String>> {
    Ok(env::args(rt)?.collect(rt.alloc())?)
}

fn main(rt: HostRuntime) -> ExitCode {
    ExitCode::from(serve_words(
        rt.alloc(),
        words(&rt),
        &mut Host::new(&rt),
        &mut Counted::new(rt.stdout()),
        &mut Counted::new(rt.stderr()),
        TURNS,
    ))
}
