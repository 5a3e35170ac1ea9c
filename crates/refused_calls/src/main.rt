//! Makes one call, for checks that refuse what it asks for. It sets up what the call needs, and prints the line
//! `ready`. Then it makes the call, and prints what it returned and the state after it. Then it makes the call again,
//! and prints the same for that. Its argument names the call; with none it makes all of them.
#![tactic(auto)]

mod copies;
mod cores;
mod fixtures;
mod pages;
mod parts;

use anyhow::{Result, bail};
use std::alloc::Global;
use std::env;
use std::sync::Wait;
use std::thread::Threads;

/// Makes the call of this name.
fn make<R: Print + Threads + Wait + Sync>(rt: &R, alloc: Global, call: &str) -> Result<()> {
    match call {
        "accept" => parts::drive_accept(rt, alloc),
        "accept_bytes" => parts::drive_accept_bytes(rt, alloc),
        "merge" => parts::drive_merge(rt, alloc),
        "final_copy" => copies::drive_final_copy(rt, alloc),
        "final_copy_by_workers" => copies::drive_final_copy_by_workers(rt, alloc),
        "run" => cores::drive_run(rt, alloc),
        "bytes_at" => pages::drive_bytes_at(rt, alloc),
        _ => bail!("no call has the name {call}"),
    }
}

fn main(rt: HostRuntime) -> Result<()> {
    let alloc = rt.alloc();
    let mut words = env::args(&rt)?;
    let _name = words.next();
    if let Some(call) = words.next() {
        return make(&rt, alloc, call.as_str());
    }
    let calls = [
        "accept",
        "accept_bytes",
        "merge",
        "final_copy",
        "final_copy_by_workers",
        "run",
        "bytes_at",
    ];
    for call in calls {
        make(&rt, alloc, call)?;
    }
    Ok(())
}
