//! Writes into a caller's buffers.

ghost use Rattle.std.specs.Prelude.{◌≡◌, ◌<◌, ◌≤◌, IfErr, OnErr, OnOk, length};
ghost use Rattle.c_answers.specs.Buffers.{over};

use crate::answers::Refusal;

/// Copies bytes over the front of a buffer.
pub(crate) fn put_front(room: &mut [u8], bytes: &[u8])
    requires { length bytes.now ≤ length room.old }
    ensures { room.new ≡ over bytes.now room.old }
{
    room[..bytes.len()].copy_from_slice(bytes);
}

/// Copies bytes over the front of a buffer if there is room for all of them, and sets `needed` to their number.
pub fn answer_bytes(room: &mut [u8], needed: &mut usize, bytes: &[u8]) -> Result<(), Refusal>
    ensures needed { needed.new ≡ length bytes.now }
    ensures put { OnOk result (room.new ≡ over bytes.now room.old) }
    ensures refused { IfErr result (λ e. e ≡ Refusal.ShortBuffer) }
    ensures fits { OnOk result (length bytes.now ≤ length room.old) }
    ensures short { OnErr result (length room.old < length bytes.now) }
    ensures unchanged { OnErr result (room.new ≡ room.old) }
{
    *needed = bytes.len();
    if room.len() < bytes.len() {
        return Err(Refusal::ShortBuffer);
    }
    put_front(room, bytes);
    Ok(())
}
