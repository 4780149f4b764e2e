// The stored runs: answers each text of data/ that an argument names, as the desk does.
#![tactic(auto)]

use std::env::{Env, FillError};
use std::fs::Files;
use std::{fs, str};

// Answers the stored text of a name, or says why it could not be opened.
fn answer_text<R: Files + Print + Eprint>(rt: &R, name: &str) {
    match fs::open(rt, name) {
        Ok(mut file) => {
            clerk::answer(rt, &mut file, name);
        }
        Err(error) => {
            let _ = rt.eprintln(format_args!("{name}: {error}"));
        }
    }
}

// Prints a stored text's name and then its answer. What cannot be printed is left out.
fn answer_stored<R: Files + Print + Eprint>(rt: &R, name: &[u8]) {
    let _ = rt.write_all(name);
    let _ = rt.write_all(b"\n");
    match str::from_utf8(name) {
        Ok(path) => answer_text(rt, path),
        Err(error) => {
            let _ = rt.eprintln(format_args!("a name that is no text: {error}"));
        }
    }
}

// Answers the stored text that argument i names, one of more than 64 bytes as one of no name; answers whether there is an argument i.
fn answer_argument<R: Env + Files + Print + Eprint>(rt: &R, i: usize) -> bool {
    let mut name = [0u8; 64];
    match rt.arg(i, &mut name) {
        Ok(length) => answer_stored(rt, &name[..length]),
        Err(FillError::TooLong) => answer_stored(rt, b""),
        Err(FillError::NotPresent) => return false,
    }
    true
}

// Answers the stored texts, one after the other.
fn main(rt: HostRuntime) {
    for i in 1..usize::MAX {
        if !answer_argument(&rt, i) {
            return;
        }
    }
}
