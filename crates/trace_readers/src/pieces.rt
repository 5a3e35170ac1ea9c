//! The bytes of a source piece by piece, in one reused buffer.

ghost use Rattle.std.specs.Prelude.{◌≡◌, ◌≢◌, ◌<◌, ◌≤◌, ◌+◌, ◌-◌, ◌↔◌, ◌^◌, [], ℕ, List, Option, IfErr, IfOk, OnErr};
ghost use Rattle.std.specs.Prelude.{OnOk};
ghost use Rattle.std.specs.Prelude.{drop, false, length, take, true, vec_len, Err};
ghost use Rattle.std.specs.Io.KnownBytes.{Consumes};
ghost use Rattle.trace_readers.specs.Pieces.{CameAs, HasRead, PiecesState, pieces_state, wants_bytes};
ghost use Rattle.trace_codec.specs.Refusals.{Refuses, RefusesUnlessMemory};
ghost use Rattle.trace_codec.specs.Source.{IsOutside, SourceRefuses};

use std::alloc::{AllocError, Global};
use std::marker::Model;
use trace_codec::{MAX_LENGTH, Source, TraceError, read_behind};

/// How many bytes the buffer that pieces are read into has: many more than the longest record, and no more than stay in
/// a processor's cache.
pub(crate) const ROOM: usize = 262_144;

/// The bytes of a source that came and are not taken yet, and how many came at all. The buffer holds them from `start`
/// on and before `filled`, and has room for at most one more piece.
#[derive(Drop)]
pub(crate) struct Pieces {
    room: Vec<u8>,
    start: usize,
    filled: usize,
    count: usize,
}

impl Model for Pieces {
    ghost Value = { PiecesState };

    ghost view = { λ p. pieces_state (drop p.start (take p.filled p.room.items)) p.count };

    ghost invariant = { λ p. (p.start ≤ p.filled) × (p.filled ≤ vec_len p.room) × (262_144 ≤ vec_len p.room)
        × (vec_len p.room ≤ p.filled + 262_144) };
}

/// Returns whether more bytes may end this refusal.
fn wants_bytes(cause: TraceError) -> bool
    ensures { result ≡ wants_bytes cause }
{
    matches!(cause, TraceError::ShortHeader | TraceError::ShortRecord(_))
}

/// Returns a buffer of `size` zeros.
pub(crate) fn room_of(alloc: Global, size: usize) -> Result<Vec<u8>, AllocError>
    ensures { IfOk result (λ room. vec_len room ≡ size) }
{
    let mut room = Vec::new(alloc);
    room.resize(size, 0)?;
    Ok(room)
}

/// Moves the bytes from `start` on and before `filled` to the front of the buffer, which is cut to the usual size.
/// Returns how many there are.
fn move_to_front(room: &mut Vec<u8>, start: usize, filled: usize) -> usize
    requires order { start ≤ filled }
    requires bound { filled ≤ vec_len room.old }
    requires long { 262_144 ≤ vec_len room.old }
    requires few { filled - start < 262_144 }
    ensures count { result ≡ filled - start }
    ensures kept { take result room.new.items ≡ drop start (take filled room.old.items) }
    ensures len { vec_len room.new ≡ 262_144 }
{
    room.copy_within(start..filled, 0);
    room.truncate(ROOM);
    filled - start
}

/// Makes room for one more piece after the first `filled` bytes, if there is none.
fn grow(room: &mut Vec<u8>, filled: usize) -> Result<(), AllocError>
    requires bound { filled ≤ vec_len room.old }
    requires few { vec_len room.old ≤ filled + 262_144 }
    ensures kept { take filled room.new.items ≡ take filled room.old.items }
    ensures long { vec_len room.old ≤ vec_len room.new }
    ensures few { vec_len room.new ≤ filled + 262_144 }
    ensures some { OnOk result (filled < vec_len room.new) }
{
    if filled == room.len() {
        room.resize(filled + ROOM, 0)?;
    }
    Ok(())
}

impl Pieces {
    /// Returns pieces of which no bytes have come yet.
    pub(crate) fn new(alloc: Global) -> Result<Pieces, AllocError>
        ensures { IfOk result (λ pieces. pieces ≡ pieces_state [] 0) }
    {
        Ok(Pieces {
            room: room_of(alloc, ROOM)?,
            start: 0,
            filled: 0,
            count: 0,
        })
    }

    /// Returns the bytes that are not taken yet.
    pub(crate) fn rest(&self) -> &[u8]
        ensures { result.now ≡ self.now.rest }
    {
        let (came, _) = self.room.split_at(self.filled);
        let (_, rest) = came.split_at(self.start);
        rest
    }

    /// Returns how many bytes came.
    pub(crate) fn count(&self) -> usize
        ensures { result ≡ self.now.count }
    {
        self.count
    }

    /// Takes this many bytes from the front.
    pub(crate) fn take(&mut self, taken: usize)
        requires { taken ≤ length self.old.rest }
        ensures rest { self.new.rest ≡ drop taken self.old.rest }
        ensures count { self.new.count ≡ self.old.count }
    {
        self.start += taken;
    }

    /// Reads once after the bytes that are left, which move to the front. Returns false at the end of the source.
    pub(crate) fn read_more<S: Source>(&mut self, source: &mut S) -> Result<bool, TraceError>
        requires unfailed { S.has_failed source.old ≡ false }
        requires room { length self.old.rest < 262_144 }
        requires short { self.old.count ≤ 2 ^ 28 }
        ensures read { IfOk result (HasRead (S.remaining source.old) (S.remaining source.new) self.old self.new) }
        ensures unfailed { OnOk result (S.has_failed source.new ≡ false) }
        ensures refused { IfErr result (λ e. e ≡ TraceError.ReadFault) }
        ensures failed { OnErr result (S.has_failed source.new ≡ true) }
    {
        self.filled = move_to_front(&mut self.room, self.start, self.filled);
        self.start = 0;
        match read_behind(source, &mut self.room, self.filled) {
            None => Err(TraceError::ReadFault),
            Some(count) => {
                self.filled += count;
                self.count += count;
                Ok(count > 0)
            }
        }
    }

    /// Reads once after the bytes that are left, which stay where they are: the buffer grows if it is full. Returns
    /// false at the end of the source. The only errors are `E16` and `E17`.
    pub(crate) fn read_grown<S: Source>(&mut self, source: &mut S) -> Result<bool, TraceError>
        requires unfailed { S.has_failed source.old ≡ false }
        requires short { self.old.count ≤ 2 ^ 28 }
        ensures read { IfOk result (HasRead (S.remaining source.old) (S.remaining source.new) self.old self.new) }
        ensures left { OnErr result (self.new ≡ self.old) }
        ensures refused { IfErr result IsOutside }
        ensures failed { (result ≡ Err TraceError.ReadFault) ↔ (S.has_failed source.new ≡ true) }
    {
        grow(&mut self.room, self.filled)?;
        match read_behind(source, &mut self.room, self.filled) {
            None => Err(TraceError::ReadFault),
            Some(count) => {
                self.filled += count;
                self.count += count;
                Ok(count > 0)
            }
        }
    }

    /// Returns the bytes that are not taken yet, and takes the pieces apart.
    pub(crate) fn into_rest(self) -> Vec<u8>
        ensures { result.items ≡ self.rest }
    {
        let Pieces {
            mut room,
            start,
            filled,
            count: _,
        } = self;
        room.truncate(filled);
        if start > 0 {
            room.copy_within(start..filled, 0);
            room.truncate(filled - start);
        }
        room
    }

    /// Reads on to the end of the source after a cause was found in front of it. Returns that cause if the source ends
    /// well and is not too long.
    pub(crate) fn read_on<S: Source>(&mut self, source: &mut S, cause: TraceError) -> TraceError
        requires unfailed { S.has_failed source.old ≡ false }
        requires short { self.old.count ≤ 2 ^ 28 }
        requires fault { cause ≢ TraceError.ReadFault }
        requires some { wants_bytes cause ≡ false }
        ensures refused { (old : Option (List ℕ)) (text : List ℕ) → Consumes old (S.remaining source.old) text
            → self.old.count ≡ length text
            → Refuses text cause → SourceRefuses old result }
        ensures failed { (result ≡ TraceError.ReadFault) ↔ (S.has_failed source.new ≡ true) }
    {
        let mut count = self.count;
        while count <= MAX_LENGTH {
            match source.read(&mut self.room) {
                None => return TraceError::ReadFault,
                Some(0) => return cause,
                Some(more) => count += more,
            }
        }
        TraceError::TooLong
    }

    /// Continues after a refusal of the bytes that came: reads once more if more bytes may end the refusal, and returns
    /// it if they may not.
    pub(crate) fn read_after<S: Source>(
        &mut self,
        source: &mut S,
        cause: TraceError,
    ) -> Result<(), TraceError>
        requires unfailed { S.has_failed source.old ≡ false }
        requires room { wants_bytes cause ≡ true → length self.old.rest < 262_144 }
        requires short { self.old.count ≤ 2 ^ 28 }
        requires fault { cause ≢ TraceError.ReadFault }
        ensures read { OnOk result (HasRead (S.remaining source.old) (S.remaining source.new) self.old self.new true) }
        ensures refused { IfErr result (λ e. (old : Option (List ℕ)) (text : List ℕ)
            → CameAs old (S.remaining source.old) self.old.count text
            → RefusesUnlessMemory text cause → SourceRefuses old e) }
        ensures failed { (result ≡ Err TraceError.ReadFault) ↔ (S.has_failed source.new ≡ true) }
    {
        if matches!(cause, TraceError::Memory) {
            return Err(cause);
        }
        if !wants_bytes(cause) {
            return Err(self.read_on(source, cause));
        }
        if self.read_more(source)? {
            return Ok(());
        }
        Err(cause)
    }
}
