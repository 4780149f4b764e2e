// The clerk: reads a table's text from an open file and answers it on standard output, for the programs that do so.
#![tactic(auto)]

ghost use Rattle.std.specs.Prelude.{◌≤◌, length};
ghost use Rattle.clerk.specs.Reading.{TakenWithin};

use std::fs::{Files, OpenOptions};
use std::io;
use std::io::{Read, Write};

// How the answering of a text ended, with its status: it was answered, it was refused, or it was not read or not written.
#[derive(Clone, Copy, Debug, PartialEq, Eq)]
pub enum Ending {
    Answered = 0,
    Refused = 1,
    Failed = 2,
}

// Reads a file to its end, or until the row is full, and says how many bytes it read. An end is told from a failure: a text that was not read whole is not answered.
pub fn read_whole<F: Read>(file: &mut F, row: &mut [u8]) -> io::Result<usize>
    ensures { TakenWithin (length row.new) result }
{
    let mut filled = 0;
    while filled < row.len() {
        let part: &mut [u8] = &mut row[filled..];
        let more = file.read(part)?;
        if more == 0 {
            break;
        }
        filled += more;
    }
    Ok(filled)
}

// Says on standard error what could not be read or written, and why. Where that cannot be written either, nobody can be told.
fn say<R: Eprint>(rt: &R, name: &str, error: io::Error) {
    let _ = rt.eprintln(format_args!("{name}: {error}"));
}

// Writes an answer to standard output, or says why it could not be written.
fn print<R: Print + Eprint>(rt: &R, answer: &[u8]) -> Ending {
    if let Err(error) = rt.write_all(answer) {
        say(rt, "standard output", error);
        return Ending::Failed;
    }
    if report::is_refusal(answer) {
        Ending::Refused
    } else {
        Ending::Answered
    }
}

// Prints the answer of a text. The row lent for it holds 65,536 bytes; no answer has more than 35,061 (counter's `desk_length`).
fn print_answer<R: Print + Eprint>(rt: &R, text: &[u8]) -> Ending {
    let mut out = [0u8; 65536];
    let wrote = counter::serve(text, &mut out);
    print(rt, &out[..wrote])
}

// Reads a table's text from an open file, at most 65,536 bytes and one more to see that it is too long, and prints its answer; or says why the file
// of that name could not be read, and answers nothing.
pub fn answer<R: Print + Eprint, F: Read>(rt: &R, file: &mut F, name: &str) -> Ending {
    let mut text = [0u8; 65537];
    match read_whole(file, &mut text) {
        Ok(length) => print_answer(rt, &text[..length]),
        Err(error) => {
            say(rt, name, error);
            Ending::Failed
        }
    }
}

// Writes the status, as a digit, to descriptor 3, where whoever started the program reads it; where nobody opened that, nothing is written.
pub fn tell<R: Files>(rt: &R, ending: Ending) {
    if let Ok(mut file) = OpenOptions::new().append(true).open(rt, "/dev/fd/3") {
        let _ = file.write_all(&[b'0' + ending as u8]);
    }
}
