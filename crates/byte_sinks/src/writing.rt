//! Bytes that are written to a sink.

ghost use Rattle.std.specs.Prelude.{◌≡◌, IfErr, OnErr, OnOk, false, true};
ghost use Rattle.std.specs.Io.KnownBytes.{Appends, Keeps};
ghost use Rattle.byte_sinks.specs.Sink.{AppendsPart};

use crate::error::SinkError;
use crate::sink::Sink;

/// Writes all of some bytes.
pub(crate) fn write_all<K: Sink>(sink: &mut K, bytes: &[u8]) -> Result<(), SinkError>
    requires { K.has_failed sink.old ≡ false }
    ensures written { OnOk result (Appends (K.contents sink.old) (K.contents sink.new) bytes.now) }
    ensures unfailed { OnOk result (K.has_failed sink.new ≡ false) }
    ensures part { OnErr result (AppendsPart (K.contents sink.old) (K.contents sink.new) bytes.now) }
    ensures error { IfErr result (λ e. e ≡ SinkError.Write) }
    ensures failed { OnErr result (K.has_failed sink.new ≡ true) }
{
    let mut done = 0usize;
    while done < bytes.len() {
        let (_, rest) = bytes.split_at(done);
        match sink.write(rest) {
            None => return Err(SinkError::Write),
            Some(count) => done += count,
        }
    }
    Ok(())
}

/// Passes on all that was written.
pub(crate) fn flush<K: Sink>(sink: &mut K) -> Result<(), SinkError>
    requires { K.has_failed sink.old ≡ false }
    ensures kept { Keeps (K.contents sink.old) (K.contents sink.new) }
    ensures flushed { OnOk result (K.is_flushed sink.new ≡ true) }
    ensures unfailed { OnOk result (K.has_failed sink.new ≡ false) }
    ensures error { IfErr result (λ e. e ≡ SinkError.Write) }
    ensures failed { OnErr result (K.has_failed sink.new ≡ true) }
{
    if sink.flush() {
        Ok(())
    } else {
        Err(SinkError::Write)
    }
}

/// Writes all of some bytes and flushes. The only error is `Write`.
pub fn write_out<K: Sink>(sink: &mut K, bytes: &[u8]) -> Result<(), SinkError>
    requires { K.has_failed sink.old ≡ false }
    ensures written { OnOk result (Appends (K.contents sink.old) (K.contents sink.new) bytes.now) }
    ensures flushed { OnOk result (K.is_flushed sink.new ≡ true) }
    ensures unfailed { OnOk result (K.has_failed sink.new ≡ false) }
    ensures part { OnErr result (AppendsPart (K.contents sink.old) (K.contents sink.new) bytes.now) }
    ensures error { IfErr result (λ e. e ≡ SinkError.Write) }
    ensures failed { OnErr result (K.has_failed sink.new ≡ true) }
{
    write_all(sink, bytes)?;
    flush(sink)
}
