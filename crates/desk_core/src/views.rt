//! The texts and frames of viewers.
ghost use Rattle.std.specs.Prelude.{◌≡◌, IsSome};
ghost use Rattle.desktop_definitions.specs.Shown.{caret_position};
ghost use Rattle.desktop_definitions.specs.Call.{text_called};
ghost use Rattle.desk_core.specs.Words.{IsOnTop, text_numbered, text_in, kept_desktop, IsKeptWhole, viewer_or_none};

use crate::desk::Desk;
use crate::viewers::{Texts, viewer_or_none};
use desktop_definitions::Caret;
use text_core::Text;
use text_frames::Frame;

/// The text of that number, which is there.
pub fn text_there(texts: &Texts, number: u16) -> &Text
    requires { IsSome (text_numbered texts.now.entries number) }
    ensures { result.now ≡ text_in texts.now.entries number }
{
    match texts.get(&number) {
        Some(text) => text,
        None => unreachable!(),
    }
}

/// The position of the caret, where it stands in that viewer.
pub fn position_in(id: u16, caret: Option<Caret>) -> Option<u32>
    ensures { result ≡ caret_position id caret }
{
    match caret {
        None => None,
        Some(caret) => {
            if caret.viewer == id {
                Some(caret.position)
            } else {
                None
            }
        }
    }
}

impl Desk {
    /// The text of a viewer in which a command's word stands: its menu or its main text.
    pub fn text_called(&self, id: u16, in_menu: bool) -> &Text
        requires whole { IsKeptWhole (kept_desktop self.now) }
        requires placed { IsOnTop id (kept_desktop self.now).columns }
        ensures { result.now ≡ text_called (kept_desktop self.now) id in_menu }
    {
        let viewer = viewer_or_none(&self.viewers, id);
        if in_menu {
            text_there(&self.texts, viewer.menu)
        } else {
            text_there(&self.texts, viewer.main)
        }
    }

    /// The main text of a viewer.
    pub fn main_text(&self, id: u16) -> &Text
        requires whole { IsKeptWhole (kept_desktop self.now) }
        requires placed { IsOnTop id (kept_desktop self.now).columns }
        ensures { result.now ≡ text_in (kept_desktop self.now).texts
            (viewer_or_none (kept_desktop self.now).viewers id).main }
    {
        let viewer = viewer_or_none(&self.viewers, id);
        text_there(&self.texts, viewer.main)
    }

    /// The frame in which a viewer shows it, without what is marked there.
    pub fn main_frame(&self, id: u16) -> Frame
        ensures { result.org ≡ (viewer_or_none (kept_desktop self.now).viewers id).org }
    {
        let viewer = viewer_or_none(&self.viewers, id);
        Frame {
            text: viewer.main,
            org: viewer.org,
            caret: None,
            selection: None,
        }
    }
}
