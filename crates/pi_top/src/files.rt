//! Programs that are read from files.
ghost use Rattle.std.specs.Prelude.{◌≡◌, IfOk, IfErr, OnOk};
ghost use Rattle.pi_outside.specs.Faults.{Rose};
ghost use Rattle.pi_outside.specs.Reads.{ByReads};
ghost use Rattle.pi_top.specs.Reading.{ReadsFile};
ghost use Rattle.pi_top.specs.Texts.{IsRead};
ghost use Rattle.pi_top.specs.declared.files.FileStop.TheVariants.{Fault, Memory};

use pi_outside::Files;
use std::alloc::{AllocError, Global};

/// The most bytes of a program's text.
pub const MAX_TEXT: usize = 16_777_216;

const PIECE: usize = 65_536;

/// Why a file wasn't read.
#[derive(Clone, Copy)]
pub enum FileStop {
    Fault,
    Memory,
}

impl From<AllocError> for FileStop {
    ghost from_gives = { λ _ e. e ≡ Memory };

    fn from(_e: AllocError) -> FileStop {
        FileStop::Memory
    }
}

/// A file's bytes. No more is read once they are more than a text may have.
pub fn read_file<F: Files>(alloc: Global, files: &mut F, name: &str) -> Result<Vec<u8>, FileStop>
    ensures reads { ByReads F.has_read files.old files.new (ReadsFile name.now result) }
    ensures read { IfOk result (λ text. IsRead (F.held files.new) name.now text.items) }
    ensures fault { IfErr result (λ e. e ≡ Fault → Rose (F.faults files.old) (F.faults files.new)) }
    ensures no_fault { OnOk result (F.faults files.new ≡ F.faults files.old) }
    ensures memory { IfErr result (λ e. e ≡ Memory → F.faults files.new ≡ F.faults files.old) }
{
    let mut piece = [0u8; PIECE];
    let mut bytes = Vec::new(alloc);
    while bytes.len() <= MAX_TEXT {
        let at = bytes.len() as u64;
        let Ok(count) = files.read_at(name, at, &mut piece) else {
            return Err(FileStop::Fault);
        };
        if count == 0 {
            return Ok(bytes);
        }
        bytes.extend_from_slice(&piece[..count])?;
    }
    Ok(bytes)
}
