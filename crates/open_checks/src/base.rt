//! A check onto a destination that has the memory after some writes.

ghost use Rattle.std.specs.Prelude.{◌≡◌, length};
ghost use Rattle.open_checks.specs.Kept.{words_at};

use guest_log::WriteLog;
use open_traces::OpenTrace;

/// Makes the words of pages that came as they are after the first `count` writes: each page's version, plus 1. Memory
/// after these writes is kept by them: `memory_after_is_kept`.
pub fn put_words(trace: &OpenTrace<'_>, count: u32, greatest: &mut [u32])
    requires { length greatest.old ≡ trace.now.pages }
    ensures { greatest.new ≡ words_at trace.now count }
{
    // For the proof: `shape` promises that this is a trace.
    let _ = trace.shape();
    trace.put_versions(count, greatest);
    for page in 0..greatest.len() {
        greatest[page] += 1;
    }
}
