//! The definitions that every contract of the project cites, in `specs/`, and the laws of these definitions only.
//!
//! A law is a function with an empty body: its contract is the law, and a call brings it into the caller's proof.
#![tactic(auto)]

ghost use Rattle.std.specs.Prelude.{◌≡◌, ◌↔◌, ◌<◌, ◌≤◌, ◌*◌, ◌^◌, ℕ, ◌++◌, Bool, IsTrue, List, [], length};
ghost use Rattle.std.specs.Prelude.{slice_index_or, take};
ghost use Rattle.std.specs.List.{All, Contains};
ghost use Rattle.migration_model.specs.Frames.{GuestShape, IsGuestShape, IsFrame, PageFrame, SpellsFrame, SpellsStream};
ghost use Rattle.migration_model.specs.Frames.{IsFrameOf, content_of, frame_text};
ghost use Rattle.migration_model.specs.Final.{IsFinalCopy, shape_of_trace};
ghost use Rattle.migration_model.specs.Images.{AreCurrent, AreNotBeyond, HaveCurrent, HaveFirst, LacksFirst};
ghost use Rattle.migration_model.specs.Images.{memory_in};
ghost use Rattle.migration_model.specs.Memory.{GuestMemory, image_before, page_of};
ghost use Rattle.migration_model.specs.Parts.{Agree, FramesAgree, GuestPart, IsPart, join, join_all, part_of};
ghost use Rattle.migration_model.specs.Parts.{with_frame, with_frames};
ghost use Rattle.migration_model.specs.Resumed.{IsResumed};
ghost use Rattle.migration_model.specs.Trace.{GuestTrace, IsTrace, Spells};
ghost use Rattle.migration_model.specs.Touches.{ArePlacedBefore, GuestTouch, is_written, touches_of};
ghost use Rattle.migration_model.specs.Versions.{IsWritten, page_at, version_before};

/// A trace has one encoding.
pub fn one_spelling()
    ensures { (a b : List ℕ) (trace : GuestTrace) → Spells a trace → Spells b trace → a ≡ b }
{}

/// Bytes encode at most one trace.
pub fn one_trace()
    ensures { (bytes : List ℕ) (s t : GuestTrace) → Spells bytes s → Spells bytes t → s ≡ t }
{}

/// `is_written`, the test on which windows and rounds are built, holds exactly for the pages written in a range of
/// ticks.
#[tactic(auto, using(crate::proofs::Touches::written_is_lem))]
pub fn written_as_a_test()
    ensures { (trace : GuestTrace) (from to page : ℕ) → IsTrue (is_written (touches_of trace) from to page) ↔ IsWritten
        trace from to page }
{}

/// One number of touches is that of those before a tick.
pub fn one_count_before()
    ensures { (touches : List GuestTouch) (tick m n : ℕ) → m ≤ length touches → n ≤ length touches
        → ArePlacedBefore touches tick m → ArePlacedBefore touches tick n → m ≡ n }
{}

/// A page, a stamp and the bytes of the page have an encoding as a frame, and only one.
pub fn one_frame_spelling()
    ensures some { (shape : GuestShape) (page stamp : ℕ) (content : List ℕ)
        → page < shape.pages → stamp ≤ shape.writes → length content ≡ 2 ^ shape.shift
        → (frame : PageFrame) × (frame.page ≡ page) × (frame.stamp ≡ stamp) × (content_of shape frame ≡ content)
        × SpellsFrame shape (frame_text frame) frame }
    ensures one { (shape : GuestShape) (a b : List ℕ) (f g : PageFrame) → SpellsFrame shape a f → SpellsFrame shape b g
        → f.page ≡ g.page → f.stamp ≡ g.stamp → content_of shape f ≡ content_of shape g → a ≡ b }
{}

/// Bytes encode at most one frame, and are a stream of at most one list of frames.
pub fn one_frame()
    ensures frame { (shape : GuestShape) (bytes : List ℕ) (f g : PageFrame) → IsGuestShape shape
        → SpellsFrame shape bytes f → SpellsFrame shape bytes g → f ≡ g }
    ensures stream { (shape : GuestShape) (bytes : List ℕ) (fs gs : List PageFrame) → IsGuestShape shape
        → SpellsStream shape bytes fs → SpellsStream shape bytes gs → fs ≡ gs }
{}

/// At the front of some bytes there is at most one frame, and it has one length.
pub fn one_front_frame()
    ensures frame { (shape : GuestShape) (bytes : List ℕ) (m n : ℕ) (f g : PageFrame) → IsGuestShape shape
        → m ≤ length bytes → n ≤ length bytes → SpellsFrame shape (take m bytes) f → SpellsFrame shape (take n bytes) g
        → f ≡ g }
    ensures size { (shape : GuestShape) (bytes : List ℕ) (m n : ℕ) (f g : PageFrame) → IsGuestShape shape
        → m ≤ length bytes → n ≤ length bytes → SpellsFrame shape (take m bytes) f → SpellsFrame shape (take n bytes) g
        → m ≡ n }
{}

/// A page, a stamp and the bytes of the page have one frame.
pub fn one_frame_of_page()
    ensures { (shape : GuestShape) (page stamp : ℕ) (bytes : List ℕ) (f g : PageFrame)
        → IsFrameOf shape page stamp bytes f → IsFrameOf shape page stamp bytes g → f ≡ g }
{}

/// Of the pages that no part has, one is the first.
pub fn one_page_lacking()
    ensures { (shape : GuestShape) (parts : List GuestPart) (m n : ℕ)
        → LacksFirst shape parts m → LacksFirst shape parts n → m ≡ n }
{}

/// For one shape, no frame's encoding begins another frame's.
pub fn no_frame_begins_another()
    ensures { (shape : GuestShape) (a b rest : List ℕ) (f g : PageFrame) → IsGuestShape shape
        → SpellsFrame shape a f → SpellsFrame shape b g → b ≡ a ++ rest → rest ≡ [] }
{}

/// Parts may be joined in any order, and any of them again: of parts that agree, only what was joined counts. The join
/// of all parts, even of those that do not agree, is associative and idempotent.
pub fn parts_join_in_any_order()
    ensures associative { (a b c : GuestPart) → join (join a b) c ≡ join a (join b c) }
    ensures commutative { (a b : GuestPart) → Agree a b → join a b ≡ join b a }
    ensures idempotent { (a : GuestPart) → join a a ≡ a }
{}

/// To add a frame to a part is to join the part with the one that has this frame's page and no other.
pub fn frames_are_joined()
    ensures { (part : GuestPart) (frame : PageFrame) → IsPart part → IsFrame part.shape frame
        → with_frame part frame ≡ join part (part_of part.shape frame) }
{}

/// Frames that agree may come to a part in any order, and any of them again: only which frames came counts.
pub fn frames_come_in_any_order()
    ensures { (part : GuestPart) (fs gs : List PageFrame) → FramesAgree part.shape (fs ++ gs)
        → All (Contains gs) fs → All (Contains fs) gs → with_frames part fs ≡ with_frames part gs }
{}

/// Honest parts that have the current copy of every page, and no later one, make memory in which each page is at its
/// version. If these are the versions before a tick, that is the memory before it.
pub fn current_copies_make_memory()
    ensures whole { (trace : GuestTrace) (shape : GuestShape) (versions : List ℕ) (parts : List GuestPart)
        → AreCurrent trace shape versions parts → HaveFirst parts shape.pages }
    ensures pages { (trace : GuestTrace) (shape : GuestShape) (versions : List ℕ) (parts : List GuestPart) (page : ℕ)
        → AreCurrent trace shape versions parts → page < shape.pages
        → page_of (memory_in (join_all shape parts)) page ≡ page_at trace page (slice_index_or versions page 0) }
    ensures size { (trace : GuestTrace) (shape : GuestShape) (versions : List ℕ) (parts : List GuestPart)
        → AreCurrent trace shape versions parts
        → ((memory_in (join_all shape parts)).shift ≡ shape.shift)
        × ((memory_in (join_all shape parts)).pages ≡ shape.pages)
        × (length (memory_in (join_all shape parts)).bytes ≡ shape.pages * 2 ^ shape.shift) }
    ensures before { (trace : GuestTrace) (versions : List ℕ) (parts : List GuestPart) (tick : ℕ) → IsTrace trace
        → AreCurrent trace (shape_of_trace trace) versions parts
        → ((page : ℕ) → page < trace.pages → slice_index_or versions page 0 ≡ version_before trace page tick)
        → memory_in (join_all (shape_of_trace trace) parts) ≡ image_before trace tick }
{}

/// A final copy needs only the marked pages. If the parts are honest, with no stamp beyond its page's version and the
/// current copy of every unmarked page in some part, then every page has its current copy after the final copy.
pub fn final_copy_makes_current()
    ensures { (trace : GuestTrace) (shape : GuestShape) (versions : List ℕ)
        (marked : ℕ → Bool) (old new : List GuestPart)
        → AreNotBeyond trace shape versions old
        → ((page : ℕ) → page < shape.pages → ¬ IsTrue (marked page) → HaveCurrent versions old page)
        → IsFinalCopy trace versions marked old new → AreCurrent trace shape versions new }
{}

/// Memory in which each page is at its version before a tick is the memory before that tick.
pub fn versions_make_memory()
    ensures { (trace : GuestTrace) (memory : GuestMemory) (tick : ℕ) → IsTrace trace
        → memory.shift ≡ trace.shift → memory.pages ≡ trace.pages → length memory.bytes
        ≡ memory.pages * 2 ^ memory.shift
        → ((page : ℕ) → page < trace.pages → page_of memory page ≡ page_at trace page (version_before trace page tick))
        → memory ≡ image_before trace tick }
{}

/// Memory whose pages are at versions of their own has one end.
pub fn one_resumed()
    ensures { (trace : GuestTrace) (versions : List ℕ) (before a b : GuestMemory)
        → IsResumed trace versions before a → IsResumed trace versions before b → a ≡ b }
{}
