//! The laws of what calls determine: each refuses for one thing, and flat memory has one end.
//!
//! A law is a function with an empty body: its contract is the law, and a call brings it into the caller's proof.

ghost use Rattle.std.specs.Prelude.{◌≡◌, ℕ, List, []};
ghost use Rattle.migration_model.specs.Frames.{GuestShape, IsGuestShape};
ghost use Rattle.migration_model.specs.Trace.{GuestTrace};
ghost use Rattle.page_message.specs.declared.error.FrameError.{FrameError};
ghost use Rattle.c_answers.specs.FlatMemory.{IsFirstMissing, RefusesFlat, StopsFlat, TakesFlat};
ghost use Rattle.c_answers.specs.Frames.{RefusesDecoding, RefusesEncoding};
ghost use Rattle.c_answers.specs.Plans.{LacksPlan, RefusesPlan};
ghost use Rattle.c_answers.specs.Predictions.{RefusesPrediction};
ghost use Rattle.c_answers.specs.Sweeps.{LacksSweep};
ghost use Rattle.c_answers.specs.declared.answers.Refusal.{Refusal};
ghost use Rattle.c_answers.specs.declared.flat_memory.PageState.{PageState};
ghost use Rattle.c_answers.specs.declared.flat_memory.StreamTaken.{StreamTaken};
ghost use Rattle.c_answers.specs.declared.questions.QuestionRefusal.{QuestionRefusal};
ghost use Rattle.c_answers.specs.declared.questions.SizedQuestion.{SizedQuestion};
ghost use Rattle.c_answers.specs.declared.settings.SizedSettings.{SizedSettings};
ghost use Rattle.c_answers.specs.declared.sizes.GuestSizes.{GuestSizes};

/// A plan or a report is refused for one thing. For want of memory it is only where nothing else is wrong.
pub fn one_refused_plan()
    ensures { (bytes : List ℕ) (s : SizedSettings) (a b : Refusal) → RefusesPlan bytes s a → RefusesPlan bytes s b
        → a ≡ b }
{}

/// So is one of an open trace.
pub fn one_lacking_plan()
    ensures { (s : SizedSettings) (a b : Refusal) → LacksPlan s a → LacksPlan s b → a ≡ b }
{}

/// A sweep is refused for one thing. For want of memory it is only where nothing else is wrong.
pub fn one_lacking_sweep()
    ensures { (cases : List SizedSettings) (a b : Refusal) → LacksSweep cases a → LacksSweep cases b → a ≡ b }
{}

/// A question over a trace is refused for one thing. For want of memory it is only where nothing else is wrong.
pub fn one_refused_prediction()
    ensures { (trace : GuestTrace) (asked : SizedQuestion) (a b : QuestionRefusal) → RefusesPrediction trace asked a
        → RefusesPrediction trace asked b → a ≡ b }
{}

/// A frame is not encoded for one thing. For want of memory it is only where nothing else is wrong.
pub fn one_refused_encoding()
    ensures { (sizes : GuestSizes) (page stamp : ℕ) (bytes : List ℕ) (a b : Refusal)
        → RefusesEncoding sizes page stamp bytes a → RefusesEncoding sizes page stamp bytes b → a ≡ b }
{}

/// Bytes are not decoded for one thing.
pub fn one_refused_decoding()
    ensures { (sizes : GuestSizes) (bytes : List ℕ) (room : ℕ) (a b : Refusal) → RefusesDecoding sizes bytes room a
        → RefusesDecoding sizes bytes room b → a ≡ b }
{}

/// Flat memory is refused for one thing.
pub fn one_refused_memory()
    ensures { (sizes : GuestSizes) (bytes states : ℕ) (a b : Refusal) → RefusesFlat sizes bytes states a
        → RefusesFlat sizes bytes states b → a ≡ b }
{}

/// A stream that comes to flat memory leaves one memory and one state of each page, and is taken as far, whether all of
/// it is taken or a frame is refused, which is then refused for one cause; it is not both.
pub fn one_flat_memory()
    ensures all_bytes { (shape : GuestShape) (old a b : List ℕ) (states s t : List PageState) (bytes : List ℕ)
        (taken other : StreamTaken) → IsGuestShape shape → TakesFlat shape old a states s bytes taken []
        → TakesFlat shape old b states t bytes other [] → a ≡ b }
    ensures all_states { (shape : GuestShape) (old a b : List ℕ) (states s t : List PageState) (bytes : List ℕ)
        (taken other : StreamTaken) → IsGuestShape shape → TakesFlat shape old a states s bytes taken []
        → TakesFlat shape old b states t bytes other [] → s ≡ t }
    ensures all_taken { (shape : GuestShape) (old a b : List ℕ) (states s t : List PageState) (bytes : List ℕ)
        (taken other : StreamTaken) → IsGuestShape shape → TakesFlat shape old a states s bytes taken []
        → TakesFlat shape old b states t bytes other [] → taken ≡ other }
    ensures stopped_bytes { (shape : GuestShape) (old a b : List ℕ) (states s t : List PageState) (bytes : List ℕ)
        (taken other : StreamTaken) (e f : FrameError) → IsGuestShape shape
        → StopsFlat shape old a states s bytes taken e → StopsFlat shape old b states t bytes other f → a ≡ b }
    ensures stopped_states { (shape : GuestShape) (old a b : List ℕ) (states s t : List PageState) (bytes : List ℕ)
        (taken other : StreamTaken) (e f : FrameError) → IsGuestShape shape
        → StopsFlat shape old a states s bytes taken e → StopsFlat shape old b states t bytes other f → s ≡ t }
    ensures stopped_taken { (shape : GuestShape) (old a b : List ℕ) (states s t : List PageState) (bytes : List ℕ)
        (taken other : StreamTaken) (e f : FrameError) → IsGuestShape shape
        → StopsFlat shape old a states s bytes taken e → StopsFlat shape old b states t bytes other f
        → taken ≡ other }
    ensures cause { (shape : GuestShape) (old a b : List ℕ) (states s t : List PageState) (bytes : List ℕ)
        (taken other : StreamTaken) (e f : FrameError) → IsGuestShape shape
        → StopsFlat shape old a states s bytes taken e → StopsFlat shape old b states t bytes other f → e ≡ f }
    ensures taken_or_stopped { (shape : GuestShape) (old a b : List ℕ) (states s t : List PageState) (bytes : List ℕ)
        (taken other : StreamTaken) (e : FrameError) → IsGuestShape shape
        → TakesFlat shape old a states s bytes taken [] → ¬ StopsFlat shape old b states t bytes other e }
{}

/// Of the pages that did not come one is the first.
pub fn one_first_missing()
    ensures { (states : List PageState) (m n : ℕ) → IsFirstMissing states m → IsFirstMissing states n → m ≡ n }
{}
