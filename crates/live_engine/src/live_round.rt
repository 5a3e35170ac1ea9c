//! What was done in one round.

ghost use Rattle.std.specs.Prelude.{◌≡◌, ◌++◌, IfErr, IfOk, OnOk};
ghost use Rattle.live_engine.specs.Lists.{lists_of};

use crate::error::LiveError;
use live_tasks::CopierState;
use std::alloc::Global;
use std::collections::VecDeque;
use std::marker::Model;

/// What was done in one round. The lists go copier by copier, each in the order of that copier's steps.
#[derive(Debug, Drop)]
pub struct LiveRound {
    /// The pages that were sent, each with its stamp.
    pub sent: Vec<(u32, u32)>,
    /// The pages that were left for a later round, because they were marked again.
    pub skipped: Vec<u32>,
    /// The pages that were left for a later round, because their lane was full.
    pub deferred: Vec<u32>,
}

impl Model for LiveRound {
    ghost use Rattle.migration_model.specs.Live.{LiveRound as GuestRound};

    ghost Value = { GuestRound };

    ghost use Rattle.migration_model.specs.Live.{live_round_with};

    ghost view = { λ r. live_round_with r.sent.items r.skipped.items r.deferred.items };
}

impl LiveRound {
    /// Adds what one copier did.
    fn add_state(&mut self, state: &CopierState) -> Result<(), LiveError>
        ensures sent { OnOk result (self.new.sent ≡ self.old.sent ++ state.now.log.sent) }
        ensures skipped { OnOk result (self.new.skipped ≡ self.old.skipped ++ state.now.log.skipped) }
        ensures deferred { OnOk result (self.new.deferred ≡ self.old.deferred ++ state.now.log.deferred) }
        ensures memory { IfErr result (λ e. e ≡ LiveError.Memory) }
    {
        self.sent.extend_from_slice(&state.log.sent)?;
        self.skipped.extend_from_slice(&state.log.skipped)?;
        self.deferred.extend_from_slice(&state.log.deferred)?;
        Ok(())
    }
}

/// Lists what the copiers did, copier by copier. Returns their states too, for the next round.
pub(crate) fn list(
    alloc: Global,
    states: Vec<CopierState>,
) -> Result<(LiveRound, VecDeque<CopierState>), LiveError>
    ensures lists { IfOk result (λ listed. listed.0 ≡ lists_of states.items) }
    ensures states { IfOk result (λ listed. listed.1.items ≡ states.items) }
    ensures memory { IfErr result (λ e. e ≡ LiveError.Memory) }
{
    let mut round = LiveRound {
        sent: Vec::new(alloc),
        skipped: Vec::new(alloc),
        deferred: Vec::new(alloc),
    };
    let mut kept = VecDeque::with_capacity(alloc, states.len())?;
    for state in states {
        round.add_state(&state)?;
        kept.push_back(state)?;
    }
    Ok((round, kept))
}
