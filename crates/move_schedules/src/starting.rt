//! The program over words, a source and two sinks.

ghost use Rattle.std.specs.Prelude.{◌≡◌, ◌≢◌, ◌≤◌, ◌↔◌, ◌⊎◌, ◌^◌, Err, IfErr, IfOk, List, OnErr, OnOk, ℕ, length, map};
ghost use Rattle.std.specs.Prelude.{false, string_bytes, true};
ghost use Rattle.std.specs.Io.KnownBytes.{Appends};
ghost use Rattle.trace_codec.specs.Source.{ReadsWhole};
ghost use Rattle.byte_sinks.specs.Sink.{AppendsPart};
ghost use Rattle.move_schedules.specs.Ends.{Answers, HasFailed, IsRefused, RefusesBytes, WritesAnswer};
ghost use Rattle.move_schedules.specs.Ends.{WritesAnswerPart};
ghost use Rattle.move_schedules.specs.Faults.{cause_of};
ghost use Rattle.move_schedules.specs.Words.{AreRefusedWords, AskForHelp, AskForSchedules, TellsRefusal};
ghost use Rattle.job_commands.specs.Ends.{IsTold, NoneHasFailed, line_of, memory_line, write_line};

use crate::command::check_words;
use crate::error::TableError;
use crate::faults::table_fault;
use crate::plans::plans_of;
use crate::texts::told;
use byte_sinks::{Sink, write_out};
use job_commands::{Program, refuse};
use std::alloc::Global;
use trace_codec::{MAX_LENGTH, Source, TraceError, read_bytes};

/// Returns the text that answers a table.
fn answer_of(alloc: Global, bytes: &[u8]) -> Result<Vec<u8>, TableError>
    ensures told { IfOk result (λ text. Answers text.items bytes.now) }
    ensures few { OnOk result (length bytes.now ≤ 2 ^ 28) }
    ensures refused { IfErr result (RefusesBytes bytes.now) }
    ensures own { IfErr result (λ e. (e ≢ TableError.Read) × (e ≢ TableError.Write)) }
{
    if bytes.len() > MAX_LENGTH {
        return Err(TableError::TooLong);
    }
    let plans = plans_of(alloc, bytes)?;
    told(alloc, &plans)
}

/// Returns the bytes of a source to its end, or until there are too many.
fn bytes_of<S: Source>(alloc: Global, source: &mut S) -> Result<Vec<u8>, TableError>
    requires { S.has_failed source.old ≡ false }
    ensures whole { IfOk result (λ v. ReadsWhole (S.remaining source.old) (S.remaining source.new) v.items) }
    ensures refused { IfErr result (λ e. (e ≡ TableError.Memory) ⊎ (e ≡ TableError.Read)) }
    ensures failed { (result ≡ Err TableError.Read) ↔ (S.has_failed source.new ≡ true) }
{
    match read_bytes(alloc, source) {
        Ok(bytes) => Ok(bytes),
        Err(TraceError::ReadFault) => Err(TableError::Read),
        Err(_) => Err(TableError::Memory),
    }
}

/// Reads a table to the end of the source, makes the whole answer, and then writes it and flushes.
fn run<S: Source, K: Sink>(alloc: Global, source: &mut S, sink: &mut K) -> Result<(), TableError>
    requires unread { S.has_failed source.old ≡ false }
    requires unwritten { K.has_failed sink.old ≡ false }
    ensures written { OnOk result (WritesAnswer (S.remaining source.old) (K.contents sink.old) (K.contents sink.new)) }
    ensures flushed { OnOk result (K.is_flushed sink.new ≡ true) }
    ensures refused { IfErr result (IsRefused (S.remaining source.old)) }
    ensures part { result ≡ Err TableError.Write → WritesAnswerPart (S.remaining source.old) (K.contents sink.old)
        (K.contents sink.new) }
    ensures kept { IfErr result (λ e. e ≢ TableError.Write → sink.new ≡ sink.old) }
    ensures read_failed { (result ≡ Err TableError.Read) ↔ (S.has_failed source.new ≡ true) }
    ensures write_failed { (result ≡ Err TableError.Write) ↔ (K.has_failed sink.new ≡ true) }
{
    let bytes = bytes_of(alloc, source)?;
    let text = answer_of(alloc, &bytes)?;
    match write_out(sink, &text) {
        Ok(()) => Ok(()),
        Err(_) => Err(TableError::Write),
    }
}

/// Writes the answer of the table that a source holds, and returns the program's status.
fn answer<S: Source, K: Sink, E: Sink>(
    alloc: Global,
    source: &mut S,
    sink: &mut K,
    faults: &mut E,
) -> u8
    requires { NoneHasFailed (S.has_failed source.old) (K.has_failed sink.old) (E.has_failed faults.old) }
    ensures status { result ≤ 1 }
    ensures written { result ≡ 0 → WritesAnswer (S.remaining source.old) (K.contents sink.old) (K.contents sink.new) }
    ensures flushed { result ≡ 0 → K.is_flushed sink.new ≡ true }
    ensures untold { result ≡ 0 → faults.new ≡ faults.old }
    ensures failed { result ≡ 1 → HasFailed (S.remaining source.old) (S.has_failed source.new) (K.has_failed sink.new)
        (K.contents sink.old) (K.contents sink.new) (sink.new ≡ sink.old)
        (λ e. IsTold (line_of Program.PrecopySchedule (cause_of e)) (E.contents faults.old) (E.contents faults.new)
        (E.has_failed faults.new)) }
{
    match run(alloc, source, sink) {
        Ok(()) => 0,
        Err(error) => table_fault(&error, faults),
    }
}

/// Runs the program: `words` are its name and its arguments, and the table comes from `source`. What is told of its
/// plans and a request for help go to `sink`, and the line of a fault or the text of a refused command line to `faults`.
///
/// Returns the program's status: 0 is success, 1 a table that has no answer, or a read or write that failed, and 2 a
/// refused command line. A failure of `faults` is ignored.
pub fn start<S: Source, K: Sink, E: Sink>(
    alloc: Global,
    words: Vec<String>,
    source: &mut S,
    sink: &mut K,
    faults: &mut E,
) -> u8
    requires { NoneHasFailed (S.has_failed source.old) (K.has_failed sink.old) (E.has_failed faults.old) }
    ensures status { result ≤ 2 }
    // Nothing that was written is held back.
    ensures flushed { result ≡ 0 → K.is_flushed sink.new ≡ true }
    // What was written answers the table that was read; or else the words ask for help, and nothing was read.
    ensures written { result ≡ 0 → (AskForSchedules (map string_bytes words.items)
        × WritesAnswer (S.remaining source.old) (K.contents sink.old) (K.contents sink.new))
        ⊎ (AskForHelp (map string_bytes words.items) × (source.new ≡ source.old)
        × (text : List ℕ) × Appends (K.contents sink.old) (K.contents sink.new) text) }
    // The table has no answer, or a read or write failed; or else nothing was read: a write of help failed, or memory
    // ran out while the words were read, and nothing is written. Each of these is told.
    ensures failed { result ≡ 1 → (AskForSchedules (map string_bytes words.items)
        × HasFailed (S.remaining source.old) (S.has_failed source.new) (K.has_failed sink.new)
        (K.contents sink.old) (K.contents sink.new) (sink.new ≡ sink.old)
        (λ e. IsTold (line_of Program.PrecopySchedule (cause_of e)) (E.contents faults.old) (E.contents faults.new)
        (E.has_failed faults.new)))
        ⊎ ((source.new ≡ source.old) × ((AskForHelp (map string_bytes words.items) × (K.has_failed sink.new ≡ true)
        × IsTold (write_line Program.PrecopySchedule) (E.contents faults.old) (E.contents faults.new)
        (E.has_failed faults.new) × (text : List ℕ) × AppendsPart (K.contents sink.old) (K.contents sink.new) text)
        ⊎ ((sink.new ≡ sink.old) × IsTold (memory_line Program.PrecopySchedule) (E.contents faults.old)
        (E.contents faults.new) (E.has_failed faults.new)))) }
    // Words are refused before any byte of the table is read, and nothing is written then.
    ensures refused { result ≡ 2 → AreRefusedWords (map string_bytes words.items) × (source.new ≡ source.old)
        × (sink.new ≡ sink.old) }
    ensures told { result ≡ 2 → TellsRefusal (map string_bytes words.items) (E.contents faults.old)
        (E.contents faults.new) (E.has_failed faults.new) }
    ensures untold { result ≡ 0 → faults.new ≡ faults.old }
{
    match check_words(alloc, &words) {
        Ok(()) => answer(alloc, source, sink, faults),
        Err(error) => refuse(Program::PrecopySchedule, error, sink, faults),
    }
}
