//! Plans and their lists.

ghost use Rattle.std.specs.Prelude.{◌≡◌};
ghost use Rattle.look_planner.specs.Plans.{end_of, looks_of};

use std::fmt;
use std::marker::Model;

/// Why a plan ends. A reason is written as its word.
#[derive(Clone, Copy, Debug, PartialEq, Eq)]
pub enum PlanEnd {
    /// The record ends before the next look.
    Record,
    /// A look finds fewer pages than the threshold.
    Few,
    /// As many looks as were asked for are done.
    Looks,
}

impl PlanEnd {
    ghost use Rattle.std.specs.Prelude.{◌≡◌};
    ghost use Rattle.look_planner.specs.Plans.{word_of};

    /// Returns the word for the reason: `record`, `few` or `looks`.
    pub fn word(&self) -> &'static str
        ensures { result.now ≡ word_of self.now }
    {
        match self {
            PlanEnd::Record => "record",
            PlanEnd::Few => "few",
            PlanEnd::Looks => "looks",
        }
    }
}

impl fmt::Display for PlanEnd {
    ghost use Rattle.std.specs.Prelude.{Some};
    ghost use Rattle.look_planner.specs.Plans.{word_of};

    ghost output = { λ end. Some (word_of end) };

    fn fmt<W: fmt::Write>(&self, f: &mut fmt::Formatter<W>) -> fmt::Result {
        f.write_str(self.word())
    }
}

/// Returns how many looks there are in a plan of so many lists that ends so: one at the end of each list, but for the
/// last one if the record ends.
pub(crate) fn looks_of(end: PlanEnd, lists: usize) -> usize
    ensures { result ≡ looks_of (end_of end) lists }
{
    match end {
        PlanEnd::Record => lists.saturating_sub(1),
        PlanEnd::Few | PlanEnd::Looks => lists,
    }
}

/// The numbers of one list of a plan.
#[derive(Clone, Copy, Debug, PartialEq, Eq)]
#[repr(C)]
pub struct ListRow {
    /// The list's first tick.
    pub from: u64,
    /// The tick of the look that ends it, or at which the record ends.
    pub to: u64,
    /// How many pages it has.
    pub pages: u64,
    /// How many of them are sent.
    pub sent: u64,
    /// How many pages are left then: those that are not sent, and those that were written meanwhile.
    pub left: u64,
}

/// What a hypervisor's migration would do: the numbers of its lists, and what is left when the guest is stopped or the
/// record ends.
#[derive(Debug, Drop)]
pub struct LookPlan {
    /// The lists, at least one.
    pub rows: Vec<ListRow>,
    /// Why there are no more.
    pub end: PlanEnd,
    /// The tick at which the guest is stopped, or the record ends.
    pub stop: u64,
    /// The pages that are left then, in ascending order.
    pub last: Vec<u32>,
    /// The downtime: how many ticks it takes to send them.
    pub down: u64,
    /// How many pages are sent before, over all lists.
    pub sent: u64,
}

impl Model for LookPlan {
    ghost use Rattle.look_planner.specs.Plans.{IsSmall, PlanNumbers, end_of};

    ghost Value = { PlanNumbers };

    ghost view = { λ p. record {
      rows = p.rows.items;
      end = end_of p.end;
      stop = p.stop;
      last = p.last.items;
      down = p.down;
      sent = p.sent;
    } };

    ghost invariant = { λ p. IsSmall p.rows.items p.sent p.last.items };
}

impl LookPlan {
    ghost use Rattle.std.specs.Prelude.{◌+◌, length};
    ghost use Rattle.look_planner.specs.Plans.{looks_in};

    /// Returns how many pages are sent, over all lists and after the stop.
    pub fn total(&self) -> u64
        ensures { result ≡ self.now.sent + length self.now.last }
    {
        self.sent + self.last.len() as u64
    }

    /// Returns how many looks there are.
    pub fn looks(&self) -> usize
        ensures { result ≡ looks_in self.now }
    {
        looks_of(self.end, self.rows.len())
    }
}
