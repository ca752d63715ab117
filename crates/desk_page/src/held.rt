//! The place of what is kept, which the host lends to each call.
ghost use Rattle.std.specs.Prelude.{◌≡◌, Some, None, Option};
ghost use Rattle.desk_page.specs.declared.kept.Kept.{Kept};
ghost use Rattle.desk_page.specs.Owning.{IsThere, kept_coded};

use crate::apart::Apart;
use crate::kept::Kept;
use std::alloc::Global;
use std::marker::Model;
use std::mem::replace;

/// The place of what is kept between calls, or of nothing.
#[repr(C)]
#[derive(Drop)]
pub struct Held {
    at: *mut u8,
    pub ghost kept: { Option Kept } by { kept_coded },
}

impl Model for Held {
    ghost use Rattle.std.specs.Prelude.{Option};
    ghost use Rattle.desk_page.specs.Owning.{owned, kept_coded};
    ghost use Rattle.desk_page.specs.declared.kept.Kept.{Kept};

    ghost also_owns = { λ h. owned h.at h.kept };
}

/// A place of nothing.
fn nowhere() -> Held
    ensures { result.kept ≡ None }
{
    Held {
        at: std::ptr::null_mut(),
    }
}

/// The place of a box that was taken apart.
fn lay(apart: Apart<Kept, Global>) -> Held
    ensures { result.kept ≡ Some apart.value }
{
    let Apart { at, alloc: _ } = apart;
    Held { at: at as *mut u8 }
}

/// The box at a place, taken apart.
fn lift(alloc: Global, held: Held) -> Apart<Kept, Global>
    requires { IsThere held.kept }
    ensures { held.kept ≡ Some result.value }
{
    let Held { at } = held;
    Apart {
        at: at as *mut Kept,
        alloc,
    }
}

/// Takes what is kept out of its place.
pub fn take(alloc: Global, held: &mut Held) -> Box<Kept, Global>
    requires { IsThere held.old.kept }
    ensures taken { held.old.kept ≡ Some result.value }
    ensures left { held.new.kept ≡ None }
{
    lift(alloc, replace(held, nowhere())).whole()
}

/// Puts it into a place, whose last content is forgotten.
pub fn put(held: &mut Held, kept: Box<Kept, Global>)
    ensures { held.new.kept ≡ Some kept.value }
{
    *held = lay(Apart::of(kept));
}
