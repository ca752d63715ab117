//! The sectors of a store as bytes.
ghost use Rattle.std.specs.Prelude.{◌≡◌, ◌≤◌, ◌++◌, true, false, Some, IfSome, drop, length};
ghost use Rattle.event_bytes.specs.declared.event.Event.{Event};
ghost use Rattle.event_bytes.specs.Spelling.{BeginsWithEvent};
ghost use Rattle.store_layout.specs.Layout.{is_open, is_label};

use event_bytes::Event;
use sector_disk::{SECTOR_BYTES, Sector};

/// The label, and then zeros.
#[tactic(auto, unfolding(crate::specs::Layout::is_label))]
pub fn label() -> Sector
    ensures { is_label result ≡ true }
{
    beginning_with(b"OBERONDESKSTORE1")
}

/// The word of an open gate, and then zeros.
#[tactic(auto, unfolding(crate::specs::Layout::is_open))]
pub fn open_gate() -> Sector
    ensures { is_open result ≡ true }
{
    beginning_with(b"OPENGATE")
}

/// Zeros.
#[tactic(auto, unfolding(crate::specs::Layout::is_open))]
pub fn closed_gate() -> Sector
    ensures { is_open result ≡ false }
{
    [0; SECTOR_BYTES as usize]
}

/// Puts the spelling of the event at the beginning of a sector, and leaves what stands behind it.
pub fn put_body(sector: &mut Sector, event: &Event)
    ensures { BeginsWithEvent sector.new event.now }
{
    match event.encode_short() {
        Some(spelled) => begin_with(sector, spelled.as_slice()),
        None => put_body_of_any(sector, event),
    }
}

/// The same of any event. It is compiled apart, so that an event without a text takes no room for one on the stack.
#[inline(never)]
fn put_body_of_any(sector: &mut Sector, event: &Event)
    ensures { BeginsWithEvent sector.new event.now }
{
    begin_with(sector, event.encode().as_slice());
}

/// Puts bytes at the beginning of a sector, and leaves what stands behind them.
fn begin_with(sector: &mut Sector, bytes: &[u8])
    requires { length bytes.now ≤ 1024 }
    ensures { sector.new ≡ bytes.now ++ drop (length bytes.now) sector.new }
{
    sector[..bytes.len()].copy_from_slice(bytes);
}

/// The bytes, and then zeros.
fn beginning_with(bytes: &[u8]) -> Sector
    requires { length bytes.now ≤ 1024 }
    ensures { result ≡ bytes.now ++ drop (length bytes.now) result }
{
    let mut sector = [0; SECTOR_BYTES as usize];
    sector[..bytes.len()].copy_from_slice(bytes);
    sector
}

/// Whether a sector has the label.
#[tactic(auto, unfolding(crate::specs::Layout::is_label))]
pub fn has_label(bytes: &Sector) -> bool
    ensures { result ≡ is_label bytes.now }
{
    bytes.starts_with(b"OBERONDESKSTORE1")
}

/// Whether a gate is open.
#[tactic(auto, unfolding(crate::specs::Layout::is_open))]
pub fn is_open_gate(bytes: &Sector) -> bool
    ensures { result ≡ is_open bytes.now }
{
    bytes.starts_with(b"OPENGATE")
}

/// The event that a body begins with, if it begins with one.
pub fn event_of(body: &Sector) -> Option<Event>
    ensures found { IfSome result (BeginsWithEvent body.now) }
    ensures only { (event : Event) → BeginsWithEvent body.now event → result ≡ Some event }
{
    let (event, _) = Event::decode(body)?;
    Some(event)
}
