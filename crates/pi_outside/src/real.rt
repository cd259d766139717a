//! The trusted edge: real files, standard input and standard output. Nothing is told of their bytes.
ghost use Rattle.std.specs.Prelude.{◌≡◌, ◌<◌, ◌≤◌, None, Ok, length, drop, IfOk, OnOk, OnErr, is_err};
ghost use Rattle.pi_outside.specs.Faults.{CountsFault, NeverFalls, Rose};

use crate::schedule::count_fault;
use crate::{Failed, Files, Sink, Source};
use std::io::{self, Read, Seek, SeekFrom, Write};
use std::{fs, rt};

/// How many bytes a read asks of the system at most.
const PIECE: usize = 65536;

/// What the system answered. An error is a fault.
fn counted(answer: io::Result<usize>, faults: &mut u64) -> Result<usize, Failed>
    ensures fails { is_err result ≡ is_err answer }
    ensures ok { IfOk result (λ n. answer ≡ Ok n) }
    ensures no_fault { OnOk result (faults.new ≡ faults.old) }
    ensures never_falls { NeverFalls faults.old faults.new }
    ensures rose { OnErr result (Rose faults.old faults.new) }
{
    match answer {
        Ok(count) => Ok(count),
        Err(_) => Err(count_fault(faults)),
    }
}

/// Reads into the front of a slice, which stays as it was behind that.
fn read_front<R: Read>(reader: &mut R, into: &mut [u8]) -> io::Result<usize>
    ensures fits { IfOk result (λ n. n ≤ length into.old) }
    ensures behind { IfOk result (λ n. drop n into.new ≡ drop n into.old) }
{
    let mut piece = [0; PIECE];
    let most = into.len().min(PIECE);
    let count = reader.read(&mut piece[..most])?;
    into[..count].copy_from_slice(&piece[..count]);
    Ok(count)
}

/// Reads from one place of a file. An absent file is an error.
fn read_file_at<R: rt::Files>(rt: &R, name: &str, at: u64, into: &mut [u8]) -> io::Result<usize>
    ensures fits { IfOk result (λ n. n ≤ length into.old) }
    ensures behind { IfOk result (λ n. drop n into.new ≡ drop n into.old) }
{
    let mut file = fs::open(rt, name)?;
    file.seek(SeekFrom::Start(at))?;
    read_front(&mut file, into)
}

/// Prints the front of a piece. It is an error to print none of a piece that isn't empty.
fn print_front<P: Print>(rt: &P, bytes: &[u8]) -> io::Result<usize>
    ensures fits { IfOk result (λ n. n ≤ length bytes.now) }
    ensures moves { IfOk result (λ n. 0 < length bytes.now → 0 < n) }
{
    let mut out = io::writer(rt);
    let count = out.write(bytes)?;
    out.flush()?;
    if count == 0 && !bytes.is_empty() {
        return Err(io::ErrorKind::WriteZero.into());
    }
    Ok(count)
}

/// The files of the system.
#[derive(Drop)]
pub struct RealFiles<'a, R: rt::Files> {
    rt: &'a R,
    faults: u64,
}

impl<'a, R: rt::Files> RealFiles<'a, R> {
    /// No fault was counted.
    pub fn new(rt: &'a R) -> RealFiles<'a, R>
        ensures { ⟦<RealFiles<'a, R> as Files>⟧.faults result ≡ 0 }
    {
        RealFiles { rt, faults: 0 }
    }
}

impl<R: rt::Files> Files for RealFiles<'_, R> {
    ghost held = { λ _. None };

    ghost faults = { λ files. files.faults };

    ghost has_read = { λ before read after. CountsFault read.gave before.faults after.faults };

    /// Opens the file anew at each read.
    fn read_at(&mut self, name: &str, at: u64, into: &mut [u8]) -> Result<usize, Failed> {
        counted(read_file_at(self.rt, name, at, into), &mut self.faults)
    }
}

/// The standard input.
#[derive(Drop)]
pub struct RealSource<R: Input> {
    reader: R::Reader,
    faults: u64,
}

impl<R: Input> RealSource<R> {
    /// No fault was counted.
    pub fn new(rt: &R) -> RealSource<R>
        ensures { ⟦<RealSource<R> as Source>⟧.faults result ≡ 0 }
    {
        RealSource {
            reader: rt.reader(),
            faults: 0,
        }
    }
}

impl<R: Input> Source for RealSource<R> {
    ghost rest = { λ _. None };

    ghost faults = { λ source. source.faults };

    ghost has_read = { λ before read after. CountsFault read.gave before.faults after.faults };

    fn read(&mut self, into: &mut [u8]) -> Result<usize, Failed> {
        counted(read_front(&mut self.reader, into), &mut self.faults)
    }
}

/// The standard output. Each piece is written out at once.
#[derive(Drop)]
pub struct RealSink<'a, R: Print> {
    rt: &'a R,
    faults: u64,
}

impl<'a, R: Print> RealSink<'a, R> {
    /// No fault was counted.
    pub fn new(rt: &'a R) -> RealSink<'a, R>
        ensures { ⟦<RealSink<'a, R> as Sink>⟧.faults result ≡ 0 }
    {
        RealSink { rt, faults: 0 }
    }
}

impl<R: Print> Sink for RealSink<'_, R> {
    ghost taken = { λ _. None };

    ghost faults = { λ sink. sink.faults };

    ghost wrote = { λ before write after. CountsFault write.took before.faults after.faults };

    fn write(&mut self, bytes: &[u8]) -> Result<usize, Failed> {
        counted(print_front(self.rt, bytes), &mut self.faults)
    }
}
