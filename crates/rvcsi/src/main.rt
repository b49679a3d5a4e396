// Reads the recording that its one argument names, or standard input where it has none, and writes its listing.
#![tactic(auto)]

use std::env::{Env, FillError};
use std::fmt::Display;
use std::rt::Files;
use std::{fs, str};

// The file of this name.
fn run_file(rt: &(impl Files + Print + Eprint), name: &str) {
    match fs::open(rt, name) {
        Ok(mut file) => rvcsi_run::run(rt, &mut file),
        Err(e) => {
            let _ = eprintln!(rt; "{name}: {e}");
        }
    }
}

// Why the argument names no file, on standard error.
fn bad_name(rt: &impl Eprint, why: impl Display + Drop) {
    let _ = eprintln!(rt; "rvcsi: the file's name: {why}");
}

// The file named by the argument, or standard input.
fn run_argument(rt: &HostRuntime) {
    let mut name = [0u8; 4096];
    match rt.arg(1, &mut name) {
        Ok(length) => match str::from_utf8(&name[..length]) {
            Ok(text) => run_file(rt, text),
            Err(e) => bad_name(rt, e),
        },
        Err(FillError::NotPresent) => rvcsi_run::run(rt, &mut rt.stdin()),
        Err(FillError::TooLong) => bad_name(rt, "File name too long"),
    }
}

fn main(rt: HostRuntime) {
    let mut second = [0u8; 1];
    match rt.arg(2, &mut second) {
        Err(FillError::NotPresent) => run_argument(&rt),
        _ => {
            let _ = eprintln!(rt; "usage: rvcsi [FILE]");
        }
    }
}
