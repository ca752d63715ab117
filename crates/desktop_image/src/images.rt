//! From an image to the desktop of which it is the image.
ghost use Rattle.std.specs.Prelude.{◌≡◌, ◌<◌, ◌^◌, ℕ, length, IfOk, IsErrOf, true};
ghost use Rattle.image_format.specs.Image.{IsSpellable};
ghost use Rattle.image_format.specs.Fitting.{FitsImage, FitsSome};
ghost use Rattle.image_format.specs.Pictures.{pictured};
ghost use Rattle.desktop_definitions.specs.Desktop.{KeptDesktop};
ghost use Rattle.desk_core.specs.Kept.{kept_desktop};
ghost use Rattle.desktop_image.specs.Images.{viewers_of, first_caret, selections_of, drafted, is_desktop, IsDesktopOf};

use crate::drafts::{caret_of, selections_of, tracks_of, viewers_of};
use crate::parts::{are_pictured, are_placed, are_selections, are_texts, is_caret};
use desk_core::desk::Desk;
use desk_core::viewers::ViewerTable;
use desktop_definitions::{Caret, MOST_WRITTEN, Selection};
use image_format::{ImageFault, Picture};
use std::alloc::Global;
use std::vec::Vec;

/// Whether the parts of an image make a desktop, with these viewers, caret and selections.
#[tactic(auto, unfolding(crate::specs::Images::is_desktop))]
fn is_desktop(
    picture: &Picture,
    written: u32,
    viewers: &ViewerTable,
    caret: Option<Caret>,
    selections: &[Selection],
) -> bool
    requires user { length picture.now.user.items < 2 ^ 8 }
    requires system { length picture.now.system.items < 2 ^ 8 }
    requires few { length selections.now < 2 ^ 8 }
    requires viewers { viewers.now.items ≡ viewers_of picture.now.viewers.items }
    requires caret { caret ≡ first_caret picture.now.viewers.items }
    requires selections { selections.now ≡ selections_of picture.now.viewers.items }
    ensures { result ≡ is_desktop written (pictured picture.now) }
{
    let texts = &picture.texts;
    let user = picture.user.as_slice();
    let system = picture.system.as_slice();
    written <= MOST_WRITTEN
        && are_placed(user, system, picture.closed, viewers)
        && are_texts(texts, viewers)
        && is_caret(texts, viewers, user, system, caret)
        && are_selections(texts, viewers, user, system, selections)
        && are_pictured(caret, selections, picture.viewers.as_slice())
}

/// The desktop that has these parts.
fn desk_of(
    alloc: Global,
    picture: Picture,
    written: u32,
    viewers: ViewerTable,
    caret: Option<Caret>,
    selections: Vec<Selection>,
) -> Desk
    requires fits { FitsSome written (pictured picture) }
    requires makes { is_desktop written (pictured picture) ≡ true }
    requires viewers { viewers.items ≡ viewers_of picture.viewers.items }
    requires caret { caret ≡ first_caret picture.viewers.items }
    requires selections { selections.items ≡ selections_of picture.viewers.items }
    ensures { kept_desktop result ≡ drafted written (pictured picture) }
{
    let tracks = tracks_of(picture.user.as_slice(), picture.system.as_slice());
    Desk {
        texts: picture.texts,
        viewers,
        tracks,
        caret,
        selections,
        marker: picture.marker,
        closed: picture.closed,
        files: picture.files,
        copied: picture.copied,
        deleted: picture.deleted,
        pattern: picture.pattern,
        look: picture.look,
        written,
        alloc,
    }
}

/// The desktop with the parts of an image, for which so many characters were written. Damaged where they make none.
pub fn assemble(alloc: Global, picture: Picture, written: u32) -> Result<Desk, ImageFault>
    requires { FitsSome written (pictured picture) }
    ensures made { IfOk result (λ d. IsDesktopOf written (pictured picture) (kept_desktop d)) }
    ensures parts { (version : ℕ) → FitsImage version written (pictured picture)
        → IfOk result (λ d. IsSpellable version (kept_desktop d)) }
    ensures damaged { IsErrOf result ImageFault.Damaged
        → (d : KeptDesktop) → ¬ IsDesktopOf written (pictured picture) d }
    ensures never_fault { ¬ IsErrOf result ImageFault.Fault }
{
    let viewers = viewers_of(alloc, picture.viewers.as_slice())?;
    let selections = selections_of(alloc, picture.viewers.as_slice())?;
    let caret = caret_of(picture.viewers.as_slice());
    if !is_desktop(&picture, written, &viewers, caret, selections.as_slice()) {
        return Err(ImageFault::Damaged);
    }
    Ok(desk_of(alloc, picture, written, viewers, caret, selections))
}
