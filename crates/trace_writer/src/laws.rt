//! What the answers of a writer determine.
//!
//! A law is a function with an empty body: its contract is the law.

ghost use Rattle.std.specs.Prelude.{◌≡◌, ◌≤◌, ℕ, List, length, take};
ghost use Rattle.migration_model.specs.Trace.{GuestTrace, IsTrace, trace_text};
ghost use Rattle.trace_writer.specs.Recordings.{Records, RefusesRecording};
ghost use Rattle.trace_writer.specs.declared.error.RecordingError.{RecordingError as Refusal};
ghost use Rattle.trace_writer.specs.declared.recording.Recording.{Recording as State};

/// The recording of a trace is one alone, and so are the first bytes, which are the trace. Bytes and a recording are
/// those of one trace alone.
pub fn one_recording()
    ensures recording { (bytes other : List ℕ) (r s : State) (t : GuestTrace) → Records bytes r t → Records other s t
        → r ≡ s }
    ensures bytes { (bytes other : List ℕ) (r s : State) (t : GuestTrace) → Records bytes r t → Records other s t
        → take r.length bytes ≡ take s.length other }
    ensures trace { (bytes : List ℕ) (r : State) (t u : GuestTrace) → Records bytes r t → Records bytes r u → t ≡ u }
{}

/// A trace is refused for one cause alone, and none that fits is refused.
pub fn one_refusal()
    ensures one { (t : GuestTrace) (room : ℕ) (e f : Refusal) → RefusesRecording t room e
        → RefusesRecording t room f → e ≡ f }
    ensures none { (t : GuestTrace) (room : ℕ) (e : Refusal) → IsTrace t → length (trace_text t) ≤ room
        → RefusesRecording t room e → ⊥ }
{}
