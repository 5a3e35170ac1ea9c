//! What a migration makes before its first round: its plan, what its pages are made from, and what the destination
//! begins with.

ghost use Rattle.std.specs.Prelude.{◌≡◌, IfErr, IfOk, Some, option_map};
ghost use Rattle.live_engine.specs.Runs.{IsPlanOf};
ghost use Rattle.migration_model.specs.Memory.{image_before};
ghost use Rattle.migration_model.specs.Warm.{first_part};
ghost use Rattle.page_versions.specs.Copies.{ArePagesOf};

use crate::error::LiveError;
use crate::warm::part_of_memory;
use collector::Part;
use guest_log::WriteLog;
use image_build::{Image, ImageError, replay_before};
use page_versions::TracePages;
use rate_limit::Settings;
use round_planner::{Plan, PlanError, plan};
use std::alloc::Global;
use std::sync::Wait;
use std::thread;
use std::thread::{Promise, PromisedHandle, Scope, Threads, scope_env};

/// What a migration begins with: the plan, what its pages are made from, and, with a base, the part that has each page
/// as it was before that tick.
#[derive(Drop)]
pub(crate) struct Preparation {
    pub(crate) plan: Plan,
    pub(crate) pages: TracePages,
    pub(crate) first: Option<Part>,
}

/// The planner's thread owes the plan, unless memory runs out.
#[derive(Drop)]
struct Plans<'a, W: WriteLog> {
    trace: &'a W,
    settings: &'a Settings,
}

impl<'a, W: WriteLog> Promise<Result<Plan, PlanError>> for Plans<'a, W> {
    ghost kept_by = { λ p result. IfOk result (λ plan. IsPlanOf (W.trace p.trace.now) p.settings.now plan) };
}

/// The thread that makes a warm start's memory owes the memory before the base, unless memory runs out.
#[derive(Drop)]
struct Remembers<'a, W: WriteLog> {
    trace: &'a W,
    base: u64,
}

impl<'a, W: WriteLog> Promise<Result<Image, ImageError>> for Remembers<'a, W> {
    ghost kept_by = { λ p result. IfOk result (λ image. image ≡ image_before (W.trace p.trace.now) p.base) };
}

/// Returns the plan for what a log describes.
fn plan_of<W: WriteLog>(alloc: Global, trace: &W, settings: &Settings) -> Result<Plan, PlanError>
    ensures { IfOk result (λ plan. IsPlanOf (W.trace trace.now) settings.now plan) }
{
    plan(alloc, trace, settings)
}

/// Starts the planner.
fn start_planner<'s, E, W: WriteLog + Sync>(
    scope: &'s Scope<'s, E>,
    alloc: Global,
    trace: &'s W,
    settings: &'s Settings,
) -> Result<PromisedHandle<Result<Plan, PlanError>, Plans<'s, W>>, LiveError>
    ensures refused { IfErr result (λ e. e ≡ LiveError.Thread) }
    ensures trace { IfOk result (λ h. h.promise.trace.now ≡ trace.now) }
    ensures settings { IfOk result (λ h. h.promise.settings.now ≡ settings.now) }
{
    let promise = Plans { trace, settings };
    let run = move || -> Result<Plan, PlanError>
        ensures { IfOk result (λ plan. IsPlanOf (W.trace trace.entry.now) settings.entry.now plan) }
    { plan_of(alloc, trace, settings) };
    Ok(scope.spawn_with(promise, run)?)
}

/// Starts a thread that makes the memory before a warm start's base.
fn start_memory<'s, E, W: WriteLog + Sync>(
    scope: &'s Scope<'s, E>,
    alloc: Global,
    trace: &'s W,
    base: u64,
) -> Result<PromisedHandle<Result<Image, ImageError>, Remembers<'s, W>>, LiveError>
    ensures refused { IfErr result (λ e. e ≡ LiveError.Thread) }
    ensures trace { IfOk result (λ h. h.promise.trace.now ≡ trace.now) }
    ensures base { IfOk result (λ h. h.promise.base ≡ base) }
{
    let promise = Remembers { trace, base };
    let run = move || -> Result<Image, ImageError>
        ensures { IfOk result (λ image. image ≡ image_before (W.trace trace.entry.now) base) }
    { replay_before(alloc, trace, base) };
    Ok(scope.spawn_with(promise, run)?)
}

/// Waits for the planner, beside which it makes what pages are made from. Returns the plan and that.
fn plan_and_pages<'s, W: WriteLog + Sync, R: Threads + Sync>(
    rt: &R,
    alloc: Global,
    trace: &'s W,
    planner: PromisedHandle<Result<Plan, PlanError>, Plans<'s, W>>,
) -> Result<(Plan, TracePages), LiveError>
    requires { planner.promise.trace.now ≡ trace.now }
    ensures plan { IfOk result (λ made. IsPlanOf (W.trace trace.now) planner.entry.promise.settings.now made.0) }
    ensures pages { IfOk result (λ made. ArePagesOf made.1.index made.1.packed (W.trace trace.now)) }
    ensures memory { IfErr result (λ e. e ≡ LiveError.Memory) }
{
    let pages = TracePages::of(rt, alloc, trace);
    let plan = planner.join(rt)?;
    Ok((plan, pages?))
}

/// Prepares a cold start: the plan and what pages are made from are made in parallel.
fn prepare_cold<'s, E, W: WriteLog + Sync, R: Threads + Sync>(
    rt: &R,
    scope: &'s Scope<'s, E>,
    alloc: Global,
    trace: &'s W,
    settings: &'s Settings,
) -> Result<(Plan, TracePages), LiveError>
    ensures plan { IfOk result (λ made. IsPlanOf (W.trace trace.now) settings.now made.0) }
    ensures pages { IfOk result (λ made. ArePagesOf made.1.index made.1.packed (W.trace trace.now)) }
{
    let planner = start_planner(scope, alloc, trace, settings)?;
    plan_and_pages(rt, alloc, trace, planner)
}

/// What a warm start waits for: the memory before its base, and the plan.
#[derive(Drop)]
struct WarmThreads<'s, W: WriteLog> {
    memory: PromisedHandle<Result<Image, ImageError>, Remembers<'s, W>>,
    planner: PromisedHandle<Result<Plan, PlanError>, Plans<'s, W>>,
}

/// Starts the threads of a warm start.
fn start_warm<'s, E, W: WriteLog + Sync>(
    scope: &'s Scope<'s, E>,
    alloc: Global,
    trace: &'s W,
    settings: &'s Settings,
    base: u64,
) -> Result<WarmThreads<'s, W>, LiveError>
    ensures refused { IfErr result (λ e. e ≡ LiveError.Thread) }
    ensures memory { IfOk result (λ t. t.memory.promise.trace.now ≡ trace.now) }
    ensures base { IfOk result (λ t. t.memory.promise.base ≡ base) }
    ensures planner { IfOk result (λ t. t.planner.promise.trace.now ≡ trace.now) }
    ensures settings { IfOk result (λ t. t.planner.promise.settings.now ≡ settings.now) }
{
    let memory = start_memory(scope, alloc, trace, base)?;
    let planner = start_planner(scope, alloc, trace, settings)?;
    Ok(WarmThreads { memory, planner })
}

/// Waits for the threads of a warm start, beside which it makes what pages are made from. The memory then becomes a
/// part.
fn finish_warm<'s, W: WriteLog + Sync, R: Threads + Sync>(
    rt: &R,
    alloc: Global,
    trace: &'s W,
    base: u64,
    threads: WarmThreads<'s, W>,
) -> Result<(Plan, TracePages, Part), LiveError>
    requires memory { threads.memory.promise.trace.now ≡ trace.now }
    requires base { threads.memory.promise.base ≡ base }
    requires planner { threads.planner.promise.trace.now ≡ trace.now }
    ensures plan { IfOk result (λ made. IsPlanOf (W.trace trace.now) threads.entry.planner.promise.settings.now
        made.0) }
    ensures pages { IfOk result (λ made. ArePagesOf made.1.index made.1.packed (W.trace trace.now)) }
    ensures first { IfOk result (λ made. made.2 ≡ first_part (W.trace trace.now) (Some base)) }
    ensures memory { IfErr result (λ e. e ≡ LiveError.Memory) }
{
    let WarmThreads { memory, planner } = threads;
    let made = plan_and_pages(rt, alloc, trace, planner);
    let image = memory.join(rt);
    let (plan, pages) = made?;
    let part = part_of_memory(alloc, trace, &pages.index, base, image?)?;
    Ok((plan, pages, part))
}

/// Prepares a warm start: the memory before its base is made in parallel with the plan and with what pages are made
/// from, and then becomes a part.
fn prepare_warm<'s, E, W: WriteLog + Sync, R: Threads + Sync>(
    rt: &R,
    scope: &'s Scope<'s, E>,
    alloc: Global,
    trace: &'s W,
    settings: &'s Settings,
    base: u64,
) -> Result<(Plan, TracePages, Part), LiveError>
    ensures plan { IfOk result (λ made. IsPlanOf (W.trace trace.now) settings.now made.0) }
    ensures pages { IfOk result (λ made. ArePagesOf made.1.index made.1.packed (W.trace trace.now)) }
    ensures first { IfOk result (λ made. made.2 ≡ first_part (W.trace trace.now) (Some base)) }
{
    let threads = start_warm(scope, alloc, trace, settings, base)?;
    finish_warm(rt, alloc, trace, base, threads)
}

/// Prepares a migration. Threads that it starts have ended when it returns. The error is `L2` if one was not started,
/// and else `L1`.
pub(crate) fn prepare<W: WriteLog + Sync, R: Threads + Wait + Sync>(
    rt: &R,
    alloc: Global,
    trace: &W,
    settings: &Settings,
) -> Result<Preparation, LiveError>
    ensures plan { IfOk result (λ p. IsPlanOf (W.trace trace.now) settings.now p.plan) }
    ensures pages { IfOk result (λ p. ArePagesOf p.pages.index p.pages.packed (W.trace trace.now)) }
    ensures first { IfOk result (λ p. p.first ≡ option_map (λ tick. first_part (W.trace trace.now) (Some tick))
        settings.now.base) }
{
    thread::scope(
        scope_env(),
        rt,
        move |scope| -> Result<Preparation, LiveError>
            ensures plan { IfOk result (λ p. IsPlanOf (W.trace trace.entry.now) settings.entry.now p.plan) }
            ensures pages { IfOk result (λ p. ArePagesOf p.pages.index p.pages.packed (W.trace trace.entry.now)) }
            ensures first { IfOk result (λ p. p.first
                ≡ option_map (λ tick. first_part (W.trace trace.entry.now) (Some tick)) settings.entry.now.base) }
        {
            match settings.asked().base {
                None => {
                    let (plan, pages) = prepare_cold(rt, scope, alloc, trace, settings)?;
                    let first = None;
                    Ok(Preparation { plan, pages, first })
                }
                Some(base) => {
                    let (plan, pages, part) = prepare_warm(
                        rt, scope, alloc, trace, settings, base,
                    )?;
                    let first = Some(part);
                    Ok(Preparation { plan, pages, first })
                }
            }
        },
    )
}
