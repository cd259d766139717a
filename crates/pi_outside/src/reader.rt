//! The reader of lines.
ghost use Rattle.std.specs.Prelude.{◌≡◌, ◌≤◌, [], length, vec_len, IfOk, IfErr, OnOk, OnErr};
ghost use Rattle.pi_outside.specs.Faults.{Rose};
ghost use Rattle.pi_outside.specs.Inputs.{ByInput};
ghost use Rattle.pi_outside.specs.Ahead.{at_start};
ghost use Rattle.pi_outside.specs.Finding.{ShowsFound, MeetsTheEnd};
ghost use Rattle.pi_outside.specs.Lines as spec;
ghost use Rattle.pi_outside.specs.Steps.{Moves, Refills, EndsBy};
ghost use Rattle.pi_outside.specs.declared.found.LineStop.TheVariants.{Fault, Memory};

use crate::failed::Failed;
use crate::found::{Found, LineStop};
use crate::keeping::keep;
use crate::source::Source;
use std::alloc::{AllocError, Global};
use std::marker::Model;

/// How many bytes are read at once, at most.
const PIECE: usize = 65_536;

/// Reads an input line by line. Nothing is read while a whole line is at hand.
#[derive(Drop)]
pub struct LineReader {
    alloc: Global,
    piece: Vec<u8>,
    from: usize,
    to: usize,
    left: u64,
    is_over: bool,
}

impl Model for LineReader {
    ghost use Rattle.std.specs.Prelude.{take, drop};
    ghost use Rattle.pi_outside.specs.Ahead.{Ahead};
    ghost use Rattle.pi_outside.specs.HeldLines.{IsHeld};

    ghost Value = { Ahead };

    ghost view = { λ r. record { bytes = drop r.from (take r.to r.piece.items); left = r.left; is_over = r.is_over } };

    ghost invariant = { λ r. IsHeld r.piece r.from r.to };
}

/// How many bytes stand before the first line feed, or at all where there is none.
fn line_len(bytes: &[u8]) -> usize
    ensures value { result ≡ spec.line_len bytes.now }
    ensures within { result ≤ length bytes.now }
{
    bytes.iter().take_while(|byte| **byte != b'\n').count()
}

/// Whether more was read.
enum Refill {
    More,
    /// The input is at its end.
    End,
    /// No more may be read.
    Over,
}

impl LineReader {
    /// A reader that has read nothing yet, of an input of which so many bytes may be read.
    pub fn new(alloc: Global, most: u64) -> Result<LineReader, AllocError>
        ensures { IfOk result (λ reader. reader ≡ at_start most) }
    {
        let piece = vec![in alloc; 0; PIECE]?;
        Ok(LineReader {
            alloc,
            piece,
            from: 0,
            to: 0,
            left: most,
            is_over: false,
        })
    }

    /// The next line, or what stands behind the last line feed at the input's end. Of a longer line the first bytes are
    /// given, so many as `longest` says.
    pub fn next<I: Source>(&mut self, input: &mut I, longest: usize) -> Result<Found, LineStop>
        ensures found { ByInput I.has_read I.rest input.old input.new (λ reads. ShowsFound longest self.old reads result self.new) }
        ensures end { IfOk result (MeetsTheEnd (I.rest input.new)) }
        ensures fault { IfErr result (λ e. e ≡ Fault → Rose (I.faults input.old) (I.faults input.new)) }
        ensures no_fault { OnOk result (I.faults input.new ≡ I.faults input.old) }
        ensures memory { IfErr result (λ e. e ≡ Memory → I.faults input.new ≡ I.faults input.old) }
    {
        let mut line = Vec::new(self.alloc);
        'piece: loop {
            let is_whole = self.take_front(&mut line, longest)?;
            if is_whole {
                return Ok(Found::Line(line));
            }
            let more = self.refill(input)?;
            match more {
                Refill::More => {}
                Refill::End => return Ok(Found::Last(line)),
                Refill::Over => return Ok(Found::TooLong),
            }
        }
    }

    /// Moves the bytes at hand to the end of a line, up to the first line feed, and says whether there is one.
    fn take_front(&mut self, line: &mut Vec<u8>, longest: usize) -> Result<bool, AllocError>
        requires { vec_len line.old ≤ longest }
        ensures moves { IfOk result (λ whole. Moves longest self.old line.old.items whole self.new line.new.items) }
        ensures within { OnOk result (vec_len line.new ≤ longest) }
    {
        let held = &self.piece[..self.to];
        let ahead = &held[self.from..];
        let count = line_len(ahead);
        keep(line, &ahead[..count], longest)?;
        let is_whole = count < ahead.len();
        self.from += count + usize::from(is_whole);
        Ok(is_whole)
    }

    /// Reads once where nothing is at hand, unless no more may be read.
    fn refill<I: Source>(&mut self, input: &mut I) -> Result<Refill, Failed>
        requires { self.old.bytes ≡ [] }
        ensures refills { ByInput I.has_read I.rest input.old input.new (λ reads. Refills self.old reads result self.new) }
        ensures end { IfOk result (EndsBy (I.rest input.new)) }
        ensures rose { OnErr result (Rose (I.faults input.old) (I.faults input.new)) }
        ensures no_fault { OnOk result (I.faults input.new ≡ I.faults input.old) }
    {
        if self.is_over {
            return Ok(Refill::Over);
        }
        self.from = 0;
        self.to = 0;
        let count = input.read(self.piece.as_mut_slice())?;
        if count == 0 {
            return Ok(Refill::End);
        }
        self.to = count.min(self.left as usize);
        self.is_over = self.left < count as u64;
        self.left = self.left.saturating_sub(count as u64);
        Ok(Refill::More)
    }
}
