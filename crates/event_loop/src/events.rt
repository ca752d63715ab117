//! What each kind of event does.
ghost use Rattle.event_bytes.specs.declared.event.Event.TheVariants.{File};
ghost use Rattle.command_table.specs.Versions.{version_number, newest_version};
ghost use Rattle.desk_core.specs.Words.{IsOver, kept_desktop};
ghost use Rattle.event_loop.specs.Doing.{DoesEvent};
ghost use Rattle.event_loop.specs.Regions.{IsRegionOfEvent};

use crate::gestures::{Gesture, point};
use char_file::CharSource;
use command_table::Version;
use desk_core::desk::Desk;
use desk_core::stop::StepResult;
use desk_input::keys::{press, type_bytes};
use desktop_definitions::{Region, Reply};
use event_bytes::{Event, FileBytes, Name};
use piece_ring::DEFAULT_LOOK;
use text_core::Text;

/// Does the event, whose region is handed over, in a version of the table of commands.
#[tactic(auto, unfolding(desktop_definitions::specs::Step::raw))]
pub fn act<S: CharSource>(
    desk: &mut Desk,
    version: Version,
    event: &Event,
    region: Option<Region>,
    source: &mut S,
) -> StepResult
    requires over { IsOver (S.characters source.old) (kept_desktop desk.old) }
    requires region { IsRegionOfEvent (kept_desktop desk.old) event.now region }
    ensures { DoesEvent S.CharSource (version_number version) event.now result
        source.old source.new (kept_desktop desk.old) (kept_desktop desk.new) }
{
    match event {
        Event::Typed(bytes) => type_bytes(desk, bytes, source),
        Event::Key(key) => press(desk, *key, source),
        Event::Mark { x, y } => desk.mark(*x, *y, source),
        Event::Point {
            keys,
            x0,
            y0,
            x1,
            y1,
        } => {
            let gesture = Gesture {
                keys: *keys,
                from: (*x0, *y0),
                to: (*x1, *y1),
            };
            point(desk, version, gesture, region, source)
        }
        Event::File { name, bytes } => do_file(desk, name, bytes, source),
    }
}

/// The file of that name becomes these bytes, in each version alike.
fn do_file<S: CharSource>(
    desk: &mut Desk,
    name: &Name,
    bytes: &FileBytes,
    source: &mut S,
) -> StepResult
    requires { IsOver (S.characters source.old) (kept_desktop desk.old) }
    ensures { DoesEvent S.CharSource newest_version (File name.now bytes.now) result
        source.old source.new (kept_desktop desk.old) (kept_desktop desk.new) }
{
    let bytes = bytes.as_bytes();
    let len = bytes.len();
    let text = Text::of_run(desk.alloc, desk.written, len as u32, DEFAULT_LOOK)?;
    let reply = desk.put_file(name, text, len, len)?;
    match reply {
        Reply::Done => {
            source.append(bytes)?;
            desk.written += len as u32;
            Ok(Reply::Done)
        }
        Reply::No(code) => Ok(Reply::No(code)),
    }
}
