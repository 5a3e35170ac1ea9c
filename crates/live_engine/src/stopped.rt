//! What a migration leaves: a guest that has stopped.

ghost use Rattle.std.specs.Prelude.{◌≡◌, ◌<◌, ◌^◌, length};
ghost use Rattle.image_build.specs.Joins.{memory_by};
ghost use Rattle.live_engine.specs.Runs.{IsStoppedAt};
ghost use Rattle.migration_model.specs.Memory.{image_of, page_of};

use crate::live_round::LiveRound;
use guest_log::WriteLog;
use image_build::JoinedParts;
use page_versions::{PageIndex, PageProgress};

/// A guest that has stopped, and whose memory has arrived.
#[derive(Debug, Drop)]
pub struct StoppedGuest {
    /// The guest's memory when it stopped.
    pub memory: JoinedParts,
    /// The tick at which it stopped.
    pub stop: u64,
    /// The version at which each page stopped.
    pub versions: Vec<u32>,
    /// Where the trace writes each page.
    pub index: PageIndex,
    /// What was done, round by round.
    pub rounds: Vec<LiveRound>,
}

impl StoppedGuest {
    /// Puts a page of the guest's memory after all its writes into a buffer of one page: the page as it stopped, with
    /// the later writes applied to it. It allocates nothing.
    pub fn resumed_page<W: WriteLog>(&self, trace: &W, page: u32, room: &mut Vec<u8>)
        requires stopped { IsStoppedAt (W.trace trace.now) self.now.versions.items self.now.index
            (memory_by self.now.memory) }
        requires page { page < (W.trace trace.now).pages }
        requires room { length room.old.items ≡ 2 ^ (W.trace trace.now).shift }
        ensures { room.new.items ≡ page_of (image_of (W.trace trace.now)) page }
    {
        let writes = trace.shape().writes;
        let version = self.versions[page as usize];
        self.memory.page_into(page, room);
        let stopped = PageProgress { version, writes: 0 };
        self.index.bring_on(trace, page, stopped, writes, room);
    }
}
