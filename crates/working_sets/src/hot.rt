//! The pages that are written in many windows.

ghost use Rattle.std.specs.Prelude.{◌≡◌, ◌^◌, ◌<◌, ◌∷◌, ◌++◌, [], IfOk, OnOk, if◌then◌else◌, length};
ghost use Rattle.working_sets.specs.Counting.{hot_in};

use crate::counting::PageSeen;
use std::alloc::{AllocError, Global};

/// Appends a page if `keep` is set.
fn push_if(pages: &mut Vec<u32>, keep: bool, page: u32) -> Result<(), AllocError>
    ensures { OnOk result (pages.new.items ≡ (if keep then pages.old.items ++ page ∷ [] else pages.old.items)) }
{
    if keep {
        pages.push(page)?;
    }
    Ok(())
}

/// Returns the pages that are in at least `hot` windows, in ascending order.
pub(crate) fn hot_pages(alloc: Global, marks: &[PageSeen], hot: u64) -> Result<Vec<u32>, AllocError>
    requires { length marks.now < 2 ^ 32 }
    ensures { IfOk result (λ pages. pages.items ≡ hot_in marks.now hot) }
{
    let mut pages = Vec::new(alloc);
    for page in 0..marks.len() as u32 {
        push_if(&mut pages, hot <= marks[page as usize].windows as u64, page)?;
    }
    Ok(pages)
}
