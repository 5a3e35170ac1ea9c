//! The program over words, a source and two sinks.

ghost use Rattle.std.specs.Prelude.{◌≡◌, ◌≢◌, ◌≤◌, ◌↔◌, ◌⊎◌, Err, IfErr, IfOk, List, OnOk, ℕ, false, map};
ghost use Rattle.std.specs.Prelude.{string_bytes, true};
ghost use Rattle.std.specs.Io.KnownBytes.{Appends};
ghost use Rattle.byte_sinks.specs.Sink.{AppendsPart};
ghost use Rattle.job_commands.specs.Ends.{IsTold, NoneHasFailed, memory_line, write_line};
ghost use Rattle.precopy_view.specs.Ends.{FailsAs, IsHelp, IsRefusal, TellsRefusal, TellsShow};
ghost use Rattle.precopy_view.specs.Written.{HasFailed, MakesView, RefusesAskedView, WritesView, WritesViewPart};
ghost use Rattle.trace_codec.specs.declared.error.TraceError.TheVariants.{ReadFault};
ghost use Rattle.view_commands.specs.Views.{WordsAsk};

use crate::faults::{ShowError, check_scale, fault, refuse};
use byte_sinks::{Sink, write_out};
use job_commands::Program;
use predictions::Verdict;
use std::alloc::Global;
use std::thread::Threads;
use trace_codec::Source;
use trace_readers::TouchLog;
use trace_views::{ViewError, ViewText, view_text};
use view_commands::{AskedView, view_of};

/// Returns a view of the trace that a source holds, or why there is none.
fn text_of<R: Threads + Sync, S: Source>(
    rt: &R,
    alloc: Global,
    asked: &AskedView,
    source: &mut S,
) -> Result<ViewText, ShowError>
    requires { S.has_failed source.old ≡ false }
    ensures made { IfOk result (λ v. MakesView (S.remaining source.old) asked.now v.text.items v.kept) }
    ensures refused { IfErr result (RefusesAskedView (S.remaining source.old) asked.now) }
    ensures unwritten { IfErr result (λ e. e ≢ ShowError.Write) }
    ensures read_failed { (result ≡ Err (ShowError.Trace ReadFault))
        ↔ (S.has_failed source.new ≡ true) }
{
    let log = TouchLog::read(alloc, source)?;
    check_scale(&asked.scale, &log)?;
    match view_text(rt, alloc, &asked.view, &log) {
        Ok(shown) => Ok(shown),
        Err(ViewError::Memory) => Err(ShowError::Memory),
        Err(error) => Err(ShowError::View(error)),
    }
}

/// Reads a trace to the end of the source, makes the whole view of it, and then writes it and flushes. Each error but
/// `Write` leaves nothing written. Returns whether the view's limit is kept.
fn run_view<R: Threads + Sync, S: Source, K: Sink>(
    rt: &R,
    alloc: Global,
    asked: &AskedView,
    source: &mut S,
    sink: &mut K,
) -> Result<Verdict, ShowError>
    requires unread { S.has_failed source.old ≡ false }
    requires unwritten { K.has_failed sink.old ≡ false }
    ensures written { IfOk result (λ kept. WritesView (S.remaining source.old) asked.now kept (K.contents sink.old)
        (K.contents sink.new)) }
    ensures flushed { OnOk result (K.is_flushed sink.new ≡ true) }
    ensures refused { IfErr result (RefusesAskedView (S.remaining source.old) asked.now) }
    ensures part { result ≡ Err ShowError.Write → WritesViewPart (S.remaining source.old) asked.now
        (K.contents sink.old) (K.contents sink.new) }
    ensures kept { IfErr result (λ e. e ≢ ShowError.Write → sink.new ≡ sink.old) }
    ensures read_failed { (result ≡ Err (ShowError.Trace ReadFault))
        ↔ (S.has_failed source.new ≡ true) }
    ensures write_failed { (result ≡ Err ShowError.Write) ↔ (K.has_failed sink.new ≡ true) }
{
    let shown = text_of(rt, alloc, asked, source)?;
    write_out(sink, &shown.text)?;
    Ok(shown.kept)
}

/// Makes a view and writes it, and returns the program's status.
fn show<R: Threads + Sync, S: Source, K: Sink, E: Sink>(
    rt: &R,
    alloc: Global,
    asked: &AskedView,
    source: &mut S,
    sink: &mut K,
    faults: &mut E,
) -> u8
    requires { NoneHasFailed (S.has_failed source.old) (K.has_failed sink.old) (E.has_failed faults.old) }
    ensures status { (result ≡ 0) ⊎ ((result ≡ 1) ⊎ ((result ≡ 3) ⊎ ((result ≡ 4) ⊎ (result ≡ 5)))) }
    ensures flushed { (result ≡ 0) ⊎ (3 ≤ result) → K.is_flushed sink.new ≡ true }
    ensures written { result ≡ 0 → WritesView (S.remaining source.old) asked.now Verdict.Yes (K.contents sink.old)
        (K.contents sink.new) }
    ensures missed { result ≡ 3 → WritesView (S.remaining source.old) asked.now Verdict.No (K.contents sink.old)
        (K.contents sink.new) }
    ensures unknown { result ≡ 4 → WritesView (S.remaining source.old) asked.now Verdict.Unknown
        (K.contents sink.old) (K.contents sink.new) }
    ensures uncertain { result ≡ 5 → WritesView (S.remaining source.old) asked.now Verdict.Uncertain
        (K.contents sink.old) (K.contents sink.new) }
    ensures failed { result ≡ 1 → HasFailed (S.remaining source.old) asked.now (S.has_failed source.new)
        (K.has_failed sink.new) (K.contents sink.old) (K.contents sink.new) (sink.new ≡ sink.old)
        (λ e. TellsShow e (E.contents faults.old) (E.contents faults.new) (E.has_failed faults.new)) }
    ensures untold { (result ≡ 0) ⊎ (3 ≤ result) → faults.new ≡ faults.old }
{
    match run_view(rt, alloc, asked, source, sink) {
        Ok(Verdict::Yes) => 0,
        Ok(Verdict::No) => 3,
        Ok(Verdict::Unknown) => 4,
        Ok(Verdict::Uncertain) => 5,
        Err(error) => fault(faults, &error),
    }
}

/// Runs the program: `words` are its name and its arguments, and the trace comes from `source`. The view and a request
/// for help go to `sink`, which is a terminal or not, and the line of a fault or the text of a refused command line to
/// `faults`.
///
/// Returns the program's status: 0 is success, 1 a run that failed, 2 a refused command line, 3 a prediction whose
/// downtime is over its limit, 4 one of a migration that ends after the trace, and 5 one whose limit is kept or not as
/// chance or the start decides. A failure of `faults` is ignored.
pub fn start<R: Threads + Sync, S: Source, K: Sink, E: Sink>(
    rt: &R,
    alloc: Global,
    words: Vec<String>,
    is_terminal: bool,
    source: &mut S,
    sink: &mut K,
    faults: &mut E,
) -> u8
    requires { NoneHasFailed (S.has_failed source.old) (K.has_failed sink.old) (E.has_failed faults.old) }
    ensures status { result ≤ 5 }
    // Nothing that was written is held back.
    ensures flushed { (result ≡ 0) ⊎ (3 ≤ result) → K.is_flushed sink.new ≡ true }
    // What was written is the view of what was read that the words ask for, and its limit is kept; or else they ask for
    // help, and nothing was read.
    ensures written { result ≡ 0 → ((asked : AskedView) × WordsAsk is_terminal (map string_bytes words.items) asked
        × WritesView (S.remaining source.old) asked Verdict.Yes (K.contents sink.old) (K.contents sink.new))
        ⊎ (FailsAs IsHelp (map string_bytes words.items) × (source.new ≡ source.old)
        × (text : List ℕ) × Appends (K.contents sink.old) (K.contents sink.new) text) }
    // What was written is the view of what was read that the words ask for, and its limit is not kept.
    ensures missed { result ≡ 3 → (asked : AskedView) × WordsAsk is_terminal (map string_bytes words.items) asked
        × WritesView (S.remaining source.old) asked Verdict.No (K.contents sink.old) (K.contents sink.new) }
    // What was written is the view of what was read that the words ask for, and the trace ends before its migration.
    ensures unknown { result ≡ 4 → (asked : AskedView) × WordsAsk is_terminal (map string_bytes words.items) asked
        × WritesView (S.remaining source.old) asked Verdict.Unknown (K.contents sink.old) (K.contents sink.new) }
    // What was written is the view of what was read that the words ask for, and whether its limit is kept is not sure.
    ensures uncertain { result ≡ 5 → (asked : AskedView) × WordsAsk is_terminal (map string_bytes words.items) asked
        × WritesView (S.remaining source.old) asked Verdict.Uncertain (K.contents sink.old) (K.contents sink.new) }
    // Words are refused before any byte of the trace is read, and nothing is written then.
    ensures refused { result ≡ 2 → FailsAs IsRefusal (map string_bytes words.items) × (source.new ≡ source.old)
        × (sink.new ≡ sink.old) }
    // The view that the words ask for failed; or else nothing was read: a write of help failed, or memory ran out while
    // the words were read, and nothing is written. Each of these is told.
    ensures failed { result ≡ 1 → ((asked : AskedView) × WordsAsk is_terminal (map string_bytes words.items) asked
        × HasFailed (S.remaining source.old) asked (S.has_failed source.new) (K.has_failed sink.new)
        (K.contents sink.old) (K.contents sink.new) (sink.new ≡ sink.old)
        (λ e. TellsShow e (E.contents faults.old) (E.contents faults.new) (E.has_failed faults.new)))
        ⊎ ((source.new ≡ source.old) × ((FailsAs IsHelp (map string_bytes words.items)
        × (K.has_failed sink.new ≡ true) × IsTold (write_line Program.PrecopyView) (E.contents faults.old)
        (E.contents faults.new) (E.has_failed faults.new)
        × (text : List ℕ) × AppendsPart (K.contents sink.old) (K.contents sink.new) text)
        ⊎ ((sink.new ≡ sink.old) × IsTold (memory_line Program.PrecopyView) (E.contents faults.old)
        (E.contents faults.new) (E.has_failed faults.new)))) }
    ensures told { result ≡ 2 → TellsRefusal (map string_bytes words.items) (E.contents faults.old)
        (E.contents faults.new) (E.has_failed faults.new) }
    // A view or help that was written is not told.
    ensures untold { (result ≡ 0) ⊎ (3 ≤ result) → faults.new ≡ faults.old }
{
    match view_of(alloc, &words, is_terminal) {
        Ok(asked) => show(rt, alloc, &asked, source, sink, faults),
        Err(error) => refuse(error, sink, faults),
    }
}
