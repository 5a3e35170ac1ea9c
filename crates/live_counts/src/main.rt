//! Does what `precopy live` does, and then tells on standard error how many frames its receivers took, for the
//! benchmark.
#![tactic(auto)]

use anyhow::{Result, bail};
use byte_sinks::FromWrite;
use job_commands::{job_of, words};
use live_engine::{Gate, Point};
use migration_jobs::{Job, run};
use std::sync::atomic::{AtomicU64, Ordering};
use trace_codec::FromRead;

/// Counts the frames that receivers take.
#[derive(Drop)]
struct TakenFrames(AtomicU64);

impl Gate for TakenFrames {
    fn at(&self, point: Point) {
        if let Point::Taken { .. } = point {
            self.0.fetch_add(1, Ordering::SeqCst);
        }
    }
}

fn main(rt: HostRuntime) -> Result<()> {
    let alloc = rt.alloc();
    let words = match words(&rt) {
        Ok(words) => words,
        Err(_) => bail!("the words cannot be read"),
    };
    let Ok(job) = job_of(alloc, &words) else {
        bail!("the words are those of precopy live")
    };
    let Job::Live(..) = job else {
        bail!("only live runs have frames")
    };
    let frames = TakenFrames(AtomicU64::new(0));
    let mut source = FromRead::new(rt.stdin());
    let mut sink = FromWrite::last(rt.stdout());
    run(&rt, alloc, &job, &mut source, &mut sink, &frames)?;
    let taken = frames.0.load(Ordering::SeqCst);
    eprintln!(rt; "sent {taken}")?;
    Ok(())
}
