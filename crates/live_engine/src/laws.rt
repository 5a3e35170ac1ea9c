//! Laws of the definitions that live runs are proved to meet.
//!
//! A law is a function with an empty body: its contract is the law, and a call brings it into the caller's proof.

ghost use Rattle.std.specs.Prelude.{ℕ, ◌↔◌, ◌≤◌, [], None, Some};
ghost use Rattle.migration_model.specs.Live.{IsDue};
ghost use Rattle.migration_model.specs.Trace.{GuestTrace, IsTrace};
ghost use Rattle.migration_model.specs.Versions.{IsWritten};

/// The first round owes every page, or, if the destination begins with a base, exactly those written from the base on
/// and before the round.
pub fn due_in_the_first_round()
    ensures cold { (trace : GuestTrace) (start page : ℕ) → IsDue trace None start [] page }
    ensures warm { (trace : GuestTrace) (base start page : ℕ) → IsTrace trace → base ≤ start
        → IsDue trace (Some base) start [] page ↔ IsWritten trace base start page }
{}
