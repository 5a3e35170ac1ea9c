//! Reports for people: tables with bars for a terminal, and pictures.
#![tactic(auto)]

mod axis;
mod bar;
mod chart;
mod hot_pages;
mod panel;
mod round_panels;
mod screen;
mod start_curves;
mod svg;
mod table;
mod units_screen;
mod window_panel;
mod words;

pub use chart::report_chart;
pub use screen::{measured_screen, report_screen};
pub use start_curves::{Chosen, starts_chart};
