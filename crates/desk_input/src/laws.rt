//! What holds of all desktops and events.
ghost use Rattle.std.specs.Prelude.{◌≡◌, ℕ, false, List, take};
ghost use Rattle.event_bytes.specs.declared.event.Event.{Event};
ghost use Rattle.desktop_definitions.specs.Desktop.{Desktop, KeptDesktop};
ghost use Rattle.desktop_definitions.specs.Seen.{seen};
ghost use Rattle.desktop_definitions.specs.Step.{step_in};
ghost use Rattle.desktop_definitions.specs.Viewers.{text_of};
ghost use Rattle.desktop_definitions.specs.Sound.{IsSound};
ghost use Rattle.desk_input.specs.Stale.{is_stale, stale_of, stale_from};

/// An event leaves each text as it was that isn't among those that it may change, whatever the reply is and by the
/// commands of whatever version it is stepped.
pub fn other_texts_stay()
    ensures { (version : ℕ) (d : Desktop) (event : Event) (n : ℕ) → IsSound d
        → is_stale (stale_of d event) n ≡ false
        → text_of (step_in version d event).desktop n ≡ text_of d n }
{}

/// An event leaves of each text the characters before the position from which on it may change texts.
pub fn texts_keep_their_front()
    ensures { (version : ℕ) (d : Desktop) (event : Event) (n : ℕ) → IsSound d
        → take (stale_from d event) (text_of (step_in version d event).desktop n)
        ≡ take (stale_from d event) (text_of d n) }
{}

/// Which texts an event may change doesn't rest on the characters among which a desktop is seen.
pub fn stale_whatever_is_read()
    ensures { (characters : List ℕ) (d : KeptDesktop) (event : Event)
        → stale_of (seen characters d) event ≡ stale_of d event }
{}

/// From where on it may doesn't either.
pub fn position_whatever_is_read()
    ensures { (characters : List ℕ) (d : KeptDesktop) (event : Event)
        → stale_from (seen characters d) event ≡ stale_from d event }
{}
