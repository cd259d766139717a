//! Texts that are handed to a sink, and the line on a read that failed.
ghost use Rattle.std.specs.Prelude.{◌≡◌, OnErr, OnOk};
ghost use Rattle.pi_outside.specs.Faults.{NeverFalls, Rose};
ghost use Rattle.pi_outside.specs.Writes.{ByWrites};
ghost use Rattle.pi_top.specs.Handing.{HandsText};

use pi_outside::{Failed, Sink};

/// What is written where a read failed.
pub const READ_FAULT: &str = "read fault\n";

/// Hands a text to the sink as one piece, and what the sink leaves of it as the next.
pub fn write_text<O: Sink>(out: &mut O, text: &str) -> Result<(), Failed>
    ensures hands { ByWrites O.wrote O.taken out.old out.new (HandsText text.now result) }
    ensures never_falls { NeverFalls (O.faults out.old) (O.faults out.new) }
    ensures rose { OnErr result (Rose (O.faults out.old) (O.faults out.new)) }
    ensures no_fault { OnOk result (O.faults out.new ≡ O.faults out.old) }
{
    let bytes = text.as_bytes();
    let mut at = 0usize;
    while at < bytes.len() {
        at += out.write(&bytes[at..])?;
    }
    Ok(())
}
