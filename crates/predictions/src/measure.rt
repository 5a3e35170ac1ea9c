//! By what a migration is judged.

use crate::course::Manner;
use crate::units::{Limits, Scale};

/// By what a migration is judged.
#[derive(Clone, Copy, Debug, PartialEq, Eq)]
pub struct Measure {
    /// What ticks and pages of the trace stand for.
    pub scale: Scale,
    /// What the migration may take.
    pub limits: Limits,
    /// By whose plan it goes.
    pub manner: Manner,
}
