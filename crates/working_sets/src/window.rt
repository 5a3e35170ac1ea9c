//! Rows of windows, and the tables of a trace.

use std::marker::Model;

/// The row of one window: how many writes and pages it has, and how many of the pages were written before.
#[derive(Clone, Copy, Debug, PartialEq, Eq)]
pub struct Window {
    /// The window's number, from 0: the ticks before it divided by the length of a window.
    pub number: u64,
    /// How many writes it has.
    pub writes: u32,
    /// How many pages are written in it.
    pub pages: u32,
    /// How many of those pages are written in the previous window too.
    pub again: u32,
    /// How many of those pages are written in no earlier window.
    pub fresh: u32,
}

impl Model for Window {
    ghost use Rattle.migration_model.specs.Windows.{WindowRow};

    ghost Value = { WindowRow };

    ghost view = { λ w. record {
      number = w.number;
      writes = w.writes;
      pages = w.pages;
      again = w.again;
      fresh = w.fresh;
    } };

    ghost inverse = { λ w. record {
      number = w.number;
      writes = w.writes;
      pages = w.pages;
      again = w.again;
      fresh = w.fresh;
    } };
}

/// The tables of a trace: its writable working sets by windows (after Clark and others 2005, section 4).
#[derive(Debug, Drop)]
pub struct Tables {
    /// The rows of the windows with at least one write, in ascending order of number.
    pub windows: Vec<Window>,
    /// The hot pages, in ascending order.
    pub hot: Vec<u32>,
}

impl Model for Tables {
    ghost use Rattle.migration_model.specs.Windows.{WorkingSets};

    ghost Value = { WorkingSets };

    ghost view = { λ t. record { windows = t.windows.items; hot = t.hot.items } };
}
