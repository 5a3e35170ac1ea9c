//! What is told on standard output and standard error in place of a program's own output.

ghost use Rattle.std.specs.Prelude.{◌≡◌, ◌≤◌, ◌⊎◌, ◌↔◌, IfSome, List, codes, length, ℕ, false, true};
ghost use Rattle.std.specs.Io.KnownBytes.{Appends};
ghost use Rattle.byte_sinks.specs.Sink.{AppendsPart};
ghost use Rattle.job_commands.specs.Commands.{IsWordsRefusal};
ghost use Rattle.job_commands.specs.Ends.{IsHelpText, IsTold, IsWholeOrCut, TellsLine, TellsWords};
ghost use Rattle.job_commands.specs.Ends.{line_of, memory_line, write_line};

use crate::command::WordsError;
use crate::program::Program;
use arrayvec::ArrayString;
use byte_sinks::{Sink, write_out};
use std::fmt::{Display, Write};

/// Writes a text of faults. If that fails, nobody can be told.
fn tell<E: Sink>(faults: &mut E, text: &str)
    requires { E.has_failed faults.old ≡ false }
    ensures { IsTold text.now (E.contents faults.old) (E.contents faults.new) (E.has_failed faults.new) }
{
    let _ = write_out(faults, text.as_bytes());
}

/// Returns a fault line: the program's name, a cause, and a newline.
fn line_of(program: Program, cause: &str) -> ArrayString<160>
    requires { length cause.now ≤ 128 }
    ensures { result.bytes ≡ line_of program cause.now }
{
    let mut line = ArrayString::<160>::new();
    line.push_str(program.name());
    line.push_str(": ");
    line.push_str(cause);
    line.push_str("\n");
    line
}

/// Writes the fault line of a cause. It allocates nothing.
fn tell_cause<E: Sink>(program: Program, cause: &str, faults: &mut E)
    requires untold { E.has_failed faults.old ≡ false }
    requires short { length cause.now ≤ 128 }
    ensures { IsTold (line_of program cause.now) (E.contents faults.old) (E.contents faults.new)
        (E.has_failed faults.new) }
{
    let line = line_of(program, cause);
    tell(faults, line.as_str());
}

/// Fills a text with dots.
fn filled<const CAP: usize>(mut text: ArrayString<CAP>) -> ArrayString<CAP>
    ensures { length result.bytes ≡ CAP }
{
    let room = text.remaining_capacity();
    for _ in 0..room {
        text.push('.');
    }
    text
}

/// Returns the text of a cause. One that has no room in 128 bytes is cut, and filled with dots.
fn text_of<D: Display>(cause: &D) -> ArrayString<128>
    ensures { IfSome (D.output cause.now) (IsWholeOrCut result.bytes) }
{
    let mut text = ArrayString::<128>::new();
    match write!(text, "{cause}") {
        Ok(()) => text,
        Err(_) => filled(text),
    }
}

/// Writes a fault line: the program's name, a cause of at most 128 bytes, and a newline. It allocates nothing.
pub fn tell_line<E: Sink, D: Display>(program: Program, cause: &D, faults: &mut E)
    requires { E.has_failed faults.old ≡ false }
    ensures { TellsLine program (D.output cause.now) (E.contents faults.old) (E.contents faults.new)
        (E.has_failed faults.new) }
{
    let text = text_of(cause);
    tell_cause(program, text.as_str(), faults);
}

/// Writes the fault line of an error, and returns the error's status, 1.
pub fn fault<E: Sink, D: Display>(program: Program, error: &D, faults: &mut E) -> u8
    requires { E.has_failed faults.old ≡ false }
    ensures status { result ≡ 1 }
    ensures told { TellsLine program (D.output error.now) (E.contents faults.old) (E.contents faults.new)
        (E.has_failed faults.new) }
{
    tell_line(program, error, faults);
    1
}

/// Writes the fault line of an error whose text is known, at most 128 bytes, and returns the error's status, 1. It
/// allocates nothing.
pub fn known_fault<E: Sink>(program: Program, cause: &str, faults: &mut E) -> u8
    requires untold { E.has_failed faults.old ≡ false }
    requires short { length cause.now ≤ 128 }
    ensures status { result ≡ 1 }
    ensures told { IsTold (line_of program cause.now) (E.contents faults.old) (E.contents faults.new)
        (E.has_failed faults.new) }
{
    tell_cause(program, cause, faults);
    1
}

/// Writes the text of a request for help, and returns the program's status.
fn run_help<K: Sink, E: Sink>(program: Program, text: &str, sink: &mut K, faults: &mut E) -> u8
    requires unwritten { K.has_failed sink.old ≡ false }
    requires untold { E.has_failed faults.old ≡ false }
    ensures status { result ≤ 1 }
    ensures flushed { result ≡ 0 → K.is_flushed sink.new ≡ true }
    ensures written { result ≡ 0 → Appends (K.contents sink.old) (K.contents sink.new) text.now }
    ensures part { result ≡ 1 → AppendsPart (K.contents sink.old) (K.contents sink.new) text.now }
    ensures failed { result ≡ 1 → K.has_failed sink.new ≡ true }
    ensures told { result ≡ 1 → IsTold (write_line program) (E.contents faults.old) (E.contents faults.new)
        (E.has_failed faults.new) }
    ensures untold { result ≡ 0 → faults.new ≡ faults.old }
{
    match write_out(sink, text.as_bytes()) {
        Ok(()) => 0,
        Err(_) => known_fault(program, "write", faults),
    }
}

/// Writes why words make nothing that the program can run, and returns the program's status: 0 is help, 1 help that
/// could not be written or a want of memory, and 2 refused words.
pub fn refuse<K: Sink, E: Sink>(
    program: Program,
    error: WordsError,
    sink: &mut K,
    faults: &mut E,
) -> u8
    requires unwritten { K.has_failed sink.old ≡ false }
    requires untold { E.has_failed faults.old ≡ false }
    ensures status { result ≤ 2 }
    ensures flushed { result ≡ 0 → K.is_flushed sink.new ≡ true }
    ensures help { result ≡ 0 → (text : List ℕ) × IsHelpText error text
        × Appends (K.contents sink.old) (K.contents sink.new) text }
    ensures refused { (result ≡ 2) ↔ IsWordsRefusal error }
    ensures unwritten { result ≡ 2 → sink.new ≡ sink.old }
    ensures kept { ((text : List ℕ) → ¬ IsHelpText error text) → sink.new ≡ sink.old }
    // Each status but 0 is told.
    ensures told { (1 ≤ result) → TellsWords program error (E.contents faults.old) (E.contents faults.new)
        (E.has_failed faults.new) }
    ensures untold { result ≡ 0 → faults.new ≡ faults.old }
    // Help that could not be written, or memory that ran out.
    ensures failed { result ≡ 1 → ((K.has_failed sink.new ≡ true)
        × IsTold (write_line program) (E.contents faults.old) (E.contents faults.new) (E.has_failed faults.new)
        × (text : List ℕ) × IsHelpText error text × AppendsPart (K.contents sink.old) (K.contents sink.new) text)
        ⊎ ((error ≡ WordsError.Memory) × IsTold (memory_line program) (E.contents faults.old) (E.contents faults.new)
        (E.has_failed faults.new)) }
{
    match error {
        WordsError::Help(text) => run_help(program, text.as_str(), sink, faults),
        WordsError::Memory => known_fault(program, "memory", faults),
        WordsError::Usage(text) => {
            tell(faults, text.as_str());
            2
        }
        WordsError::Refused(refusal) => {
            tell_line(program, &refusal, faults);
            2
        }
    }
}
