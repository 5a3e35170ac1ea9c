//! A law of the definitions that memory in parts is proved to meet.
//!
//! A law is a function with an empty body: its contract is the law.

ghost use Rattle.std.specs.Prelude.{ℕ, List};
ghost use Rattle.migration_model.specs.Frames.{GuestShape};
ghost use Rattle.migration_model.specs.Images.{IsJoined, LacksFirst};
ghost use Rattle.migration_model.specs.Memory.{GuestMemory};
ghost use Rattle.migration_model.specs.Parts.{GuestPart};

/// Parts that make memory together lack no page.
pub fn joined_parts_lack_no_page()
    ensures { (shape : GuestShape) (parts : List GuestPart) (memory : GuestMemory) (page : ℕ)
        → IsJoined shape parts memory → ¬ LacksFirst shape parts page }
{}
