//! where_is: tells on which lines of a program's file a part stands.
#![tactic(auto)]

mod stop;

use crate::stop::Stop;
use pi_where::{PartLines, lines_of_part};
use std::alloc::AllocError;
use std::io::Read;
use std::process::ExitCode;
use std::rt::{Env, Files};
use std::{env, fs, io};

/// One more than the most bytes of a program's text.
const MOST: u64 = 16_777_217;

fn main(rt: HostRuntime) -> ExitCode {
    let (told, status) = match lines_asked(&rt) {
        Ok(lines) => (println!(rt; "{} {}", lines.first, lines.last), 0),
        Err(stop) => (println!(rt; "{}", stop.line()), stop.status()),
    };
    match told {
        Ok(()) => ExitCode::from(status),
        Err(_) => ExitCode::from(8),
    }
}

/// The lines that the words ask for: a part's number and a file.
fn lines_asked<R: Env + Files + AllocGlobal>(rt: &R) -> Result<PartLines, Stop> {
    let words = read_words(rt)?;
    let [number, name] = words.as_slice() else {
        return Err(Stop::Words);
    };
    let Ok(number) = number.parse::<u64>() else {
        return Err(Stop::Words);
    };
    let text = read_text(rt, name)?;
    let lines = lines_of_part(rt.alloc(), &text, number)?;
    Ok(lines)
}

/// The words after the program's name. Where one isn't UTF-8 there are none.
fn read_words<R: Env + AllocGlobal>(rt: &R) -> Result<Vec<String>, AllocError> {
    let mut words = Vec::new(rt.alloc());
    match env::args(rt) {
        Ok(args) => {
            for word in args.skip(1) {
                words.push(word)?;
            }
        }
        Err(e) if e.kind() == io::ErrorKind::InvalidData => {}
        Err(_) => return Err(AllocError),
    }
    Ok(words)
}

/// A file's bytes, or so many of them that they are too long for a text.
fn read_text<R: Files + AllocGlobal>(rt: &R, name: &str) -> io::Result<Vec<u8>> {
    let mut text = Vec::new(rt.alloc());
    let file = fs::open(rt, name)?;
    file.take(MOST).read_to_end(&mut text)?;
    Ok(text)
}
