//! Laws of the definitions that tables are proved to meet.
//!
//! A law is a function with an empty body: its contract is the law, and a call brings it into the caller's proof.

ghost use Rattle.std.specs.Prelude.{ℕ, ◌≤◌, ◌/◌, List};
ghost use Rattle.std.specs.List.{All, Contains};
ghost use Rattle.migration_model.specs.Touches.{AreTouches, GuestTouch};
ghost use Rattle.migration_model.specs.Windows.{row_of, rows_of};

/// The window of each write has its row.
pub fn each_write_has_its_row()
    ensures { (pages w : ℕ) (touches : List GuestTouch) → AreTouches pages touches → 1 ≤ w
        → All (λ touch. Contains (rows_of touches pages w) (row_of touches pages w (touch.tick / w))) touches }
{}
