//! The memory after all writes of the trace being read.

ghost use Rattle.std.specs.Io.KnownBytes.{Consumes};
ghost use Rattle.std.specs.Prelude.{◌≡◌, ◌↔◌, ℕ, List, Option, IfErr, IfOk, Err, false, true};
ghost use Rattle.trace_codec.specs.declared.error.TraceError.TheVariants.{ReadFault};
ghost use Rattle.trace_readers.specs.Visits.{IsHeaderOf};
ghost use Rattle.migration_jobs.specs.Bytes.{bytes_in};
ghost use Rattle.migration_jobs.specs.Output.{IsImageOf, IsOtherJob, RefusesOutput, RefusesRun};

use crate::error::RunError;
use crate::output::Output;
use crate::written_memory::WrittenMemory;
use dealt_memory::DealtMemory;
use job_kinds::Job;
use std::alloc::Global;
use trace_codec::{Header, Source};
use trace_readers::IncomingTrace;

/// Up to this many bytes, `2^20`, memory is whole, however short the trace is.
const SMALL_MEMORY: usize = 1_048_576;

/// Memory is whole if the trace is likely to be at least this part of it, a quarter: then clearing all of it takes less
/// time than copying the writes, and copies would need as much memory.
const WHOLE_PART: usize = 4;

/// Returns whether memory is to be whole. The answer decides only how much time and memory the image takes.
fn is_whole(incoming: &IncomingTrace, header: Header) -> bool
    requires { IsHeaderOf incoming.now header }
{
    let size = (header.shape.pages as usize) << header.shape.shift;
    size <= SMALL_MEMORY || incoming.likely_length(header) >= size / WHOLE_PART
}

/// Returns the memory after all writes of a trace, made whole while the trace comes.
fn whole_image<S: Source>(
    alloc: Global,
    source: &mut S,
    incoming: IncomingTrace,
    header: Header,
) -> Result<Vec<u8>, RunError>
    requires unfailed { S.has_failed source.old ≡ false }
    requires header { IsHeaderOf incoming header }
    ensures made { IfOk result (λ v. (old : Option (List ℕ)) → Consumes old (S.remaining source.old) incoming
        → IsImageOf old v.items) }
    ensures refused { IfErr result (λ e. (old : Option (List ℕ)) → Consumes old (S.remaining source.old) incoming
        → RefusesRun old e) }
    ensures own { IfErr result (λ e. (job : Job) → IsOtherJob job → RefusesOutput job e) }
    ensures read_failed { (result ≡ Err (RunError.Trace ReadFault)) ↔ (S.has_failed source.new ≡ true) }
{
    let Ok(mut memory) = WrittenMemory::blank(alloc, header.shape) else {
        return Err(RunError::Memory);
    };
    incoming.visit(source, header, &mut memory)?;
    Ok(memory.into_bytes())
}

/// Returns the memory after all writes of a trace, as copies of them, dealt to pieces of memory while the trace comes.
fn dealt_image<S: Source>(
    alloc: Global,
    source: &mut S,
    incoming: IncomingTrace,
    header: Header,
) -> Result<DealtMemory, RunError>
    requires unfailed { S.has_failed source.old ≡ false }
    requires header { IsHeaderOf incoming header }
    ensures made { IfOk result (λ m. (old : Option (List ℕ)) → Consumes old (S.remaining source.old) incoming
        → IsImageOf old m.bytes) }
    ensures refused { IfErr result (λ e. (old : Option (List ℕ)) → Consumes old (S.remaining source.old) incoming
        → RefusesRun old e) }
    ensures own { IfErr result (λ e. (job : Job) → IsOtherJob job → RefusesOutput job e) }
    ensures read_failed { (result ≡ Err (RunError.Trace ReadFault)) ↔ (S.has_failed source.new ≡ true) }
{
    let Ok(mut memory) = DealtMemory::blank(alloc, header.shape) else {
        return Err(RunError::Memory);
    };
    incoming.visit(source, header, &mut memory)?;
    Ok(memory)
}

/// Returns the memory after all writes of the trace that a source holds.
pub(crate) fn image_output<S: Source>(alloc: Global, source: &mut S) -> Result<Output, RunError>
    requires { S.has_failed source.old ≡ false }
    ensures made { IfOk result (λ output. IsImageOf (S.remaining source.old) (bytes_in output)) }
    ensures refused { IfErr result (RefusesRun (S.remaining source.old)) }
    ensures own { IfErr result (λ e. (job : Job) → IsOtherJob job → RefusesOutput job e) }
    ensures read_failed { (result ≡ Err (RunError.Trace ReadFault)) ↔ (S.has_failed source.new ≡ true) }
{
    let (incoming, header) = IncomingTrace::with_header(alloc, source)?;
    if is_whole(&incoming, header) {
        return Ok(Output::Text(whole_image(alloc, source, incoming, header)?));
    }
    Ok(Output::Dealt(dealt_image(alloc, source, incoming, header)?))
}
