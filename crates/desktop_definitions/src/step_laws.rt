//! What holds of all desktops and events.
ghost use Rattle.std.specs.Prelude.{◌≡◌, ℕ, List, [], ◌∷◌, ◌++◌};
ghost use Rattle.event_bytes.specs.declared.event.Event.{Event};
ghost use Rattle.event_bytes.specs.Spelling.{IsEvent};
ghost use Rattle.desktop_definitions.specs.Desktop.{Desktop, KeptDesktop, empty_desktop};
ghost use Rattle.desktop_definitions.specs.Seen.{seen};
ghost use Rattle.desktop_definitions.specs.Step.{step, step_in, steps, steps_in};
ghost use Rattle.desktop_definitions.specs.Sound.{IsSound, IsOver};

/// The empty desktop is sound.
pub fn empty_is_sound()
    ensures { IsSound empty_desktop }
{}

/// An event leaves a sound desktop sound in every version, whatever the reply is.
pub fn steps_keep_sound()
    ensures { (version : ℕ) (d : Desktop) (event : Event) → IsSound d → IsEvent event
        → IsSound (step_in version d event).desktop }
{}

/// The desktop after events and one event more is the desktop after that event, from where the others led.
pub fn steps_of_more()
    ensures newest { (d : Desktop) (events : List Event) (event : Event)
        → steps d (events ++ event ∷ []) ≡ (step (steps d events) event).desktop }
    ensures each { (version : ℕ) (d : Desktop) (events : List Event) (event : Event)
        → steps_in version d (events ++ event ∷ [])
        ≡ (step_in version (steps_in version d events) event).desktop }
{}

/// A desktop over its characters is seen as before once there are more of them.
pub fn more_characters_change_no_view()
    ensures { (characters more : List ℕ) (d : KeptDesktop) → IsOver characters d
        → seen (characters ++ more) d ≡ seen characters d }
{}
