//! The first bytes of something that comes in pieces.
ghost use Rattle.std.specs.Prelude.{◌≡◌, ◌++◌, ◌≤◌, take, vec_len, OnOk};

use std::alloc::AllocError;

/// Keeps what has room of one more piece, where so many bytes are kept at most.
pub(crate) fn keep(kept: &mut Vec<u8>, piece: &[u8], longest: usize) -> Result<(), AllocError>
    requires { vec_len kept.old ≤ longest }
    ensures ok { OnOk result (kept.new.items ≡ take longest (kept.old.items ++ piece.now)) }
    ensures within { OnOk result (vec_len kept.new ≤ longest) }
{
    let room = longest - kept.len();
    let count = piece.len().min(room);
    kept.extend_from_slice(&piece[..count])?;
    Ok(())
}
