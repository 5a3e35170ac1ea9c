//! What the seats of a table know, and the rule that each step keeps.

use atomic_table::{Join, Play, Split, TableRule};
use dirty_core::Opening;
use std::marker::Model;

/// What a seat knows, as a list of facts. No value of it is made.
pub struct View {
    nothing: (),
}

impl Model for View {
    ghost use Rattle.std.specs.Prelude.{List, []};
    ghost use Rattle.dirty_words.specs.Facts.{Facts};

    ghost Value = { List Facts };

    ghost view = { λ _. [] };
}

/// The rule of a table: the words and the views show the core that a legal list of events leaves.
pub struct Shown;

impl TableRule<u8, View, Opening> for Shown {
    ghost use Rattle.dirty_words.specs.Shows.{Shows};
    ghost use Rattle.dirty_words.specs.Facts.{opening_facts};

    ghost holds = { λ start state. Shows start state };

    ghost first = { opening_facts };
}

/// A guest's store. The place is the word's new value.
pub struct Stores;

impl Play<u8, View> for Stores {
    ghost use Rattle.dirty_words.specs.Plays.{stores};

    ghost then = { stores };
}

/// A guest marks its pending page.
pub struct Marks;

impl Play<u8, View> for Marks {
    ghost use Rattle.dirty_words.specs.Plays.{marks};

    ghost then = { marks };
}

/// A copier takes a dirty word.
pub struct Harvests;

impl Play<u8, View> for Harvests {
    ghost use Rattle.dirty_words.specs.Plays.{harvests};

    ghost then = { harvests };
}

/// A copier looks at a dirty word.
pub struct Peeks;

impl Play<u8, View> for Peeks {
    ghost use Rattle.dirty_words.specs.Plays.{peeks};

    ghost then = { peeks };
}

/// A copier gives held pages back.
pub struct Restores;

impl Play<u8, View> for Restores {
    ghost use Rattle.dirty_words.specs.Plays.{restores};

    ghost then = { restores };
}

/// A copier reads a place.
pub struct Reads;

impl Play<u8, View> for Reads {
    ghost use Rattle.dirty_words.specs.Plays.{reads};

    ghost then = { reads };
}

/// A new seat, with nobody in it.
pub struct Enters;

impl Play<u8, View> for Enters {
    ghost use Rattle.dirty_words.specs.Plays.{enters};

    ghost then = { enters };
}

/// A seat's first entry is cut off, for a new seat.
pub struct CutFirst;

impl Split<View> for CutFirst {
    ghost use Rattle.dirty_words.specs.Plays.{first_of, rest_of};

    ghost left = { rest_of };

    ghost right = { first_of };
}

/// The other seat's entries come last.
pub struct JoinBoth;

impl Join<View> for JoinBoth {
    ghost use Rattle.std.specs.Prelude.{◌++◌, []};

    ghost both = { λ view other. view ++ other };

    ghost spent = { [] };
}
