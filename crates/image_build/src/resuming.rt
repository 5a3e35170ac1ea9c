//! Memory whose pages are each at their own version, brought to the end of a trace. No program runs it: it is for users
//! of the library, and tests.

// `IsResumed` holds of one value alone: `one_resumed`.

ghost use Rattle.std.specs.Prelude.{◌≡◌, ◌*◌, ◌^◌, ◌≤◌, fold, length};
ghost use Rattle.std.specs.List.{All};
ghost use Rattle.migration_model.specs.Memory.{apply, image_of, memory_with};
ghost use Rattle.migration_model.specs.Resumed.{AtVersions, IsResumed};
ghost use Rattle.page_versions.specs.Index.{IsIndexOf};
ghost use Rattle.page_versions.specs.Pages.{write_at};

use crate::image::Image;
use crate::replaying::write_over;
use page_versions::PageIndex;
use trace_codec::WriteLog;

/// Applies the writes at these places to memory, in order.
fn write_all<W: WriteLog>(memory: &mut Vec<u8>, trace: &W, places: &[u32])
    requires len { length memory.old.items ≡ (W.trace trace.now).pages * 2 ^ (W.trace trace.now).shift }
    requires places { All (λ place. (1 ≤ place) × (place ≤ length (W.trace trace.now).writes)) places.now }
    ensures { memory_with (W.trace trace.now).shift (W.trace trace.now).pages memory.new.items
        ≡ fold (λ m place. apply m (write_at (W.trace trace.now).writes place))
        (memory_with (W.trace trace.now).shift (W.trace trace.now).pages memory.old.items) places.now }
{
    let shape = trace.shape();
    for place in places {
        let write = trace.write(*place as usize - 1);
        write_over(memory, shape, &write);
    }
}

/// Returns this memory after the trace's writes to each page that come after the page's version. It allocates nothing.
pub fn resume<W: WriteLog>(image: Image, trace: &W, index: &PageIndex, versions: &[u32]) -> Image
    requires of { IsIndexOf index.now (W.trace trace.now) }
    requires shift { image.shift ≡ (W.trace trace.now).shift }
    requires pages { image.pages ≡ (W.trace trace.now).pages }
    requires versions { length versions.now ≡ (W.trace trace.now).pages }
    ensures resumed { IsResumed (W.trace trace.now) versions.now image result }
    ensures whole { AtVersions (W.trace trace.now) versions.now image → result ≡ image_of (W.trace trace.now) }
{
    let shape = trace.shape();
    let mut memory = image.into_bytes();
    for page in 0..shape.pages {
        let version = versions[page as usize];
        write_all(&mut memory, trace, index.writes_after(page, version));
    }
    Image::of(shape.shift, shape.pages, memory)
}
