//! The functions that the host calls. It lends one place to one call at a time, and calls nothing after a trap, nor after a
//! status of 1 to 5. Each call forgets the calls of the disk that the one before has told, and tells none unless its status
//! is 0.
ghost use Rattle.std.specs.Prelude.{◌≡◌, ◌≢◌, ◌≤◌, ◌++◌, [], length, take, drop, min};
ghost use Rattle.desk_page.specs.Owning.{IsThere};
ghost use Rattle.page_exports.specs.Exports.{HasBegunPage, HasBrought, HasBroughtMore, HasCopied, HasGiven, HasLoadedSome};
ghost use Rattle.page_exports.specs.Exports.{HasForgottenPast, HasLooked, HasPressed, HasStarted};
ghost use Rattle.page_exports.specs.Exports.{coming_of, handed, loaded_of, rings_of, leaves_of, looks_told, pointer_told};

use desk_page::{DONE, Held, Kept, Made, NO_MEMORY, put, take};
use page_disks::RecordedDisk;
use sector_disk::Disk;
use std::alloc::Global;

/// Makes what is kept, with nothing in it. The place must be zeros. `NO_MEMORY`: there is nothing at the place.
#[unsafe(no_mangle)]
pub extern "C" fn page_start(alloc: Global, held: &mut Held) -> u32
    ensures started { HasStarted held.old.kept held.new.kept result }
{
    match Box::new(alloc, Kept::new(alloc)) {
        Ok(boxed) => {
            put(held, boxed);
            DONE
        }
        Err(_) => NO_MEMORY,
    }
}

/// Loads the sectors from `first` on, which are these bytes, a sector after another, before the page begins. The others are
/// zeros, unless they were loaded before. After another status than 0 nothing is loaded.
#[unsafe(no_mangle)]
pub extern "C" fn page_load(alloc: Global, held: &mut Held, first: u32, bytes: &[u8]) -> u32
    requires { IsThere held.old.kept }
    ensures there { IsThere held.new.kept }
    ensures loaded { HasLoadedSome first bytes.now held.old.kept held.new.kept result }
    ensures untold { handed 2 held.new.kept ≡ [] }
    ensures coming { coming_of held.new.kept ≡ coming_of held.old.kept }
{
    let mut kept = take(alloc, held);
    let status = kept.load(alloc, first, bytes);
    put(held, kept);
    status
}

/// Begins: opens the store whose sectors were loaded, or makes a new one where none were, and keeps its page. With 1 for
/// `past` that keeps a past, which goes on or begins. The status is 0, or one of 1 to 5, after which no page is kept.
#[unsafe(no_mangle)]
pub extern "C" fn page_begin(alloc: Global, held: &mut Held, past: u32) -> u32
    requires { IsThere held.old.kept }
    ensures there { IsThere held.new.kept }
    ensures begun { HasBegunPage ⟦<RecordedDisk as Disk>⟧ past held.old.kept held.new.kept result }
    ensures untold { result ≢ 0 → handed 2 held.new.kept ≡ [] }
    ensures coming { coming_of held.new.kept ≡ coming_of held.old.kept }
    ensures few { result ≤ 5 }
{
    let mut kept = take(alloc, held);
    let status = kept.begin(alloc, past == 1);
    put(held, kept);
    status
}

/// Shows the past of the page, from its present on: until the person leaves it, what is pressed means another moment of it,
/// and a drawing is that of a moment. Where the store keeps none that can be read the page stays as it is.
#[unsafe(no_mangle)]
pub extern "C" fn page_look(alloc: Global, held: &mut Held) -> u32
    requires { IsThere held.old.kept }
    ensures there { IsThere held.new.kept }
    ensures looked { HasLooked ⟦<RecordedDisk as Disk>⟧ held.old.kept held.new.kept result }
    ensures untold { handed 2 held.new.kept ≡ [] }
    ensures coming { coming_of held.new.kept ≡ coming_of held.old.kept }
    ensures loaded { loaded_of held.new.kept ≡ loaded_of held.old.kept }
{
    let mut kept = take(alloc, held);
    let status = kept.look(alloc);
    put(held, kept);
    status
}

/// Forgets the past of the page: one begins anew with what it shows, and of what was done before nothing is left behind the store
/// but a copy of that. The page is shown then. With 11 the past stays, and after a status of 1 to 5 no page is kept: then no call
/// of the disk is told, so a medium has what it had.
#[unsafe(no_mangle)]
pub extern "C" fn page_forget(alloc: Global, held: &mut Held) -> u32
    requires { IsThere held.old.kept }
    ensures there { IsThere held.new.kept }
    ensures forgotten { HasForgottenPast ⟦<RecordedDisk as Disk>⟧ held.old.kept held.new.kept
        result }
    ensures untold { result ≢ 0 → handed 2 held.new.kept ≡ [] }
    ensures coming { coming_of held.new.kept ≡ coming_of held.old.kept }
    ensures loaded { loaded_of held.new.kept ≡ loaded_of held.old.kept }
{
    let mut kept = take(alloc, held);
    let status = kept.forget(alloc);
    put(held, kept);
    status
}

/// What is shown: 0 is the page, 1 its past, and 2 its past while that is sought for a word, which goes on with the next
/// `page_press`, of no bytes too.
#[unsafe(no_mangle)]
pub extern "C" fn page_looks(alloc: Global, held: &mut Held) -> u32
    requires { IsThere held.old.kept }
    ensures same { held.new.kept ≡ held.old.kept }
    ensures looks { result ≡ looks_told held.old.kept }
{
    let kept = take(alloc, held);
    let looks = kept.looks();
    put(held, kept);
    looks
}

/// Does what is pressed by these bytes of a terminal, and a quiet while; then takes back or does again what they ask
/// for. What is handed is the desktop after all this. Where the past is shown, they are pressed there, up to the one by which
/// the person leaves it. After another status than 0 no page is kept.
#[unsafe(no_mangle)]
pub extern "C" fn page_press(alloc: Global, held: &mut Held, bytes: &[u8]) -> u32
    requires { IsThere held.old.kept }
    ensures there { IsThere held.new.kept }
    ensures pressed { HasPressed ⟦<RecordedDisk as Disk>⟧ bytes.now held.old.kept held.new.kept
        result }
    ensures untold { result ≢ 0 → handed 2 held.new.kept ≡ [] }
    ensures coming { coming_of held.new.kept ≡ coming_of held.old.kept }
    ensures loaded { loaded_of held.new.kept ≡ loaded_of held.old.kept }
{
    let mut kept = take(alloc, held);
    let status = kept.press(alloc, bytes);
    put(held, kept);
    status
}

/// Makes the document of that name of a file of the host's, together with those that `page_bring_more` kept: all of them, or
/// none. A name or a file that is refused leaves the page, and so do documents for which there is no room. After a status
/// of 1 to 5 no page is kept, but where memory runs out for the document.
#[unsafe(no_mangle)]
pub extern "C" fn page_bring(alloc: Global, held: &mut Held, name: &[u8], file: &[u8]) -> u32
    requires { IsThere held.old.kept }
    ensures there { IsThere held.new.kept }
    ensures brought { HasBrought ⟦<RecordedDisk as Disk>⟧ name.now file.now held.old.kept
        held.new.kept result }
    ensures untold { result ≢ 0 → handed 2 held.new.kept ≡ [] }
    ensures coming { coming_of held.new.kept ≡ [] }
    ensures loaded { loaded_of held.new.kept ≡ loaded_of held.old.kept }
{
    let mut kept = take(alloc, held);
    let status = kept.bring(alloc, name, file);
    put(held, kept);
    status
}

/// Keeps the document of that name of a file of the host's, for the next `page_bring`, behind those that are kept. Where it
/// is refused none is kept.
#[unsafe(no_mangle)]
pub extern "C" fn page_bring_more(alloc: Global, held: &mut Held, name: &[u8], file: &[u8]) -> u32
    requires { IsThere held.old.kept }
    ensures there { IsThere held.new.kept }
    ensures more { HasBroughtMore name.now file.now held.old.kept held.new.kept result }
    ensures untold { handed 2 held.new.kept ≡ [] }
    ensures loaded { loaded_of held.new.kept ≡ loaded_of held.old.kept }
{
    let mut kept = take(alloc, held);
    let status = kept.bring_more(alloc, name, file);
    put(held, kept);
    status
}

/// Asks for the text of the document of that name, which is then there to be copied. The page goes on, whatever the
/// status is.
#[unsafe(no_mangle)]
pub extern "C" fn page_give(alloc: Global, held: &mut Held, name: &[u8]) -> u32
    requires { IsThere held.old.kept }
    ensures there { IsThere held.new.kept }
    ensures given { HasGiven ⟦<RecordedDisk as Disk>⟧ name.now held.old.kept held.new.kept result }
    ensures untold { handed 2 held.new.kept ≡ [] }
    ensures coming { coming_of held.new.kept ≡ coming_of held.old.kept }
    ensures loaded { loaded_of held.new.kept ≡ loaded_of held.old.kept }
{
    let mut kept = take(alloc, held);
    let status = kept.give(alloc, name);
    put(held, kept);
    status
}

/// Asks for what is selected, all of it, which is then there to be copied. The page goes on, whatever the status is.
#[unsafe(no_mangle)]
pub extern "C" fn page_copied(alloc: Global, held: &mut Held) -> u32
    requires { IsThere held.old.kept }
    ensures there { IsThere held.new.kept }
    ensures copied { HasCopied ⟦<RecordedDisk as Disk>⟧ held.old.kept held.new.kept result }
    ensures untold { handed 2 held.new.kept ≡ [] }
    ensures coming { coming_of held.new.kept ≡ coming_of held.old.kept }
    ensures loaded { loaded_of held.new.kept ≡ loaded_of held.old.kept }
{
    let mut kept = take(alloc, held);
    let status = kept.copied(alloc);
    put(held, kept);
    status
}

/// How many bytes there are of what the last call made: 0 the drawing, 1 the line below, 2 the calls of the disk, 3 the
/// text.
#[unsafe(no_mangle)]
pub extern "C" fn page_size(alloc: Global, held: &mut Held, made: u32) -> u64
    requires { IsThere held.old.kept }
    ensures same { held.new.kept ≡ held.old.kept }
    ensures size { result ≡ length (handed made held.old.kept) }
{
    let kept = take(alloc, held);
    let size = match Made::of(made) {
        Some(made) => kept.size(made),
        None => 0,
    };
    put(held, kept);
    size as u64
}

/// Copies what the last call made, as much as there is room for, and returns how much that is.
#[unsafe(no_mangle)]
pub extern "C" fn page_copy(alloc: Global, held: &mut Held, made: u32, to: &mut [u8]) -> u64
    requires { IsThere held.old.kept }
    ensures same { held.new.kept ≡ held.old.kept }
    ensures size { result ≡ min (length (handed made held.old.kept)) (length to.old) }
    ensures copied { to.new ≡ take result (handed made held.old.kept) ++ drop result to.old }
{
    let kept = take(alloc, held);
    let size = match Made::of(made) {
        Some(made) => kept.copy(made, to),
        None => 0,
    };
    put(held, kept);
    size as u64
}

/// Whether the last presses rang: 1, or 0.
#[unsafe(no_mangle)]
pub extern "C" fn page_rings(alloc: Global, held: &mut Held) -> u32
    requires { IsThere held.old.kept }
    ensures same { held.new.kept ≡ held.old.kept }
    ensures rings { result ≡ rings_of held.old.kept }
{
    let kept = take(alloc, held);
    let rings = if kept.rings() { 1 } else { 0 };
    put(held, kept);
    rings
}

/// Whether the person has left: 1, or 0.
#[unsafe(no_mangle)]
pub extern "C" fn page_leaves(alloc: Global, held: &mut Held) -> u32
    requires { IsThere held.old.kept }
    ensures same { held.new.kept ≡ held.old.kept }
    ensures leaves { result ≡ leaves_of held.old.kept }
{
    let kept = take(alloc, held);
    let leaves = if kept.leaves() { 1 } else { 0 };
    put(held, kept);
    leaves
}

/// Where a pointer is shown that keys move, by the number of its cell: 1 at the lower left, and one more for each cell to
/// the right of it and in the rows above. 0 where none is shown.
#[unsafe(no_mangle)]
pub extern "C" fn page_pointer(alloc: Global, held: &mut Held) -> u32
    requires { IsThere held.old.kept }
    ensures same { held.new.kept ≡ held.old.kept }
    ensures pointer { result ≡ pointer_told held.old.kept }
{
    let kept = take(alloc, held);
    let pointer = kept.pointer();
    put(held, kept);
    pointer
}
