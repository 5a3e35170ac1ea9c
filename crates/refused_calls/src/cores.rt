//! A run of events from an opening.

ghost use Rattle.std.specs.Prelude.{◌≡◌, IfOk};
ghost use Rattle.dirty_core.specs.Kept.{kept_sizes};
ghost use Rattle.dirty_core.specs.Start.{sizes_of};

use anyhow::bail;
use dirty_core::{Core, CoreRefusal, Event, Opening, run};
use std::alloc::Global;
use std::io;

/// Copier 0 takes both pages, guest 0 stores page 1 and marks it, and the copier gives page 1 back and reads page 0.
const EVENTS: [Event; 6] = [
    Event::Harvest { copier: 0, word: 0 },
    Event::Store {
        guest: 0,
        page: 1,
        place: 1,
    },
    Event::Mark { guest: 0 },
    Event::Peek { copier: 0, word: 0 },
    Event::Restore {
        copier: 0,
        word: 0,
        bits: 2,
    },
    Event::Read { copier: 0, page: 0 },
];

fn show_core(rt: &impl Print, opening: &Opening, core: &Core) -> io::Result<()>
    requires { kept_sizes core.now ≡ sizes_of opening.now }
{
    for page in 0..opening.places().len() as u32 {
        let place = core.place(page);
        let marked = core.marked(page);
        let held = core.held(0, page);
        println!(rt; "page {page} place {place} marked {marked} held {held}")?;
    }
    println!(rt; "pending {:?}", core.pending(0))
}

fn show_ended(
    rt: &impl Print,
    opening: &Opening,
    ended: Result<Core, (usize, CoreRefusal)>,
) -> io::Result<()>
    requires { IfOk ended (λ core. kept_sizes core ≡ sizes_of opening.now) }
{
    match ended {
        Ok(core) => {
            println!(rt; "ran")?;
            show_core(rt, opening, &core)
        }
        Err(refused) => println!(rt; "run {refused:?}"),
    }
}

/// Runs all events, and prints what came of it after a word.
fn run_all(rt: &impl Print, alloc: Global, opening: &Opening, word: &str) -> anyhow::Result<()> {
    println!(rt; "{word}")?;
    Ok(show_ended(rt, opening, run(alloc, opening, &EVENTS))?)
}

/// Two marked pages, a guest and a copier.
pub(crate) fn drive_run(rt: &impl Print, alloc: Global) -> anyhow::Result<()> {
    let places = vec![in alloc; 0; 2]?;
    let dirty = vec![in alloc; 3]?;
    let Some(opening) = Opening::new(places, dirty, 1, 1) else {
        bail!("no core opens so");
    };
    run_all(rt, alloc, &opening, "ready")?;
    run_all(rt, alloc, &opening, "again")
}
