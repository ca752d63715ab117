//! What holds of all presses.
ghost use Rattle.std.specs.Prelude.{◌≡◌, ℕ, ◌+◌, ◌<◌, ◌≤◌, ◌⊎◌, Bool, true, false, ◌==◌, ◌||◌, not, List, [], ◌∷◌, ◌++◌};
ghost use Rattle.std.specs.Prelude.{IsTrue, Some, None, length, map};
ghost use Rattle.std.specs.List.{list_all};
ghost use Rattle.event_bytes.specs.declared.keys.Keys.TheVariants as keys;
ghost use Rattle.terminal_presses.specs.declared.press.Button.{Button};
ghost use Rattle.terminal_presses.specs.declared.press.Button.TheVariants.{Left, Right};
ghost use Rattle.terminal_presses.specs.declared.press.Arrow.{Arrow};
ghost use Rattle.terminal_presses.specs.declared.press.FunctionKey.{FunctionKey};
ghost use Rattle.terminal_presses.specs.declared.press.Press.{Press};
ghost use Rattle.terminal_presses.specs.declared.press.Press.TheVariants.{Character, Escape, Function};
ghost use Rattle.terminal_presses.specs.declared.action.Action.TheVariants.{Extend, Nothing, TypeFile};
ghost use Rattle.terminal_presses.specs.declared.action.Click.{Click};
ghost use Rattle.terminal_presses.specs.declared.action.Click.TheVariants.{Keys};
ghost use Rattle.terminal_presses.specs.Sights.{Sight, IsSight, columns_in_sight, first_column, spot_in};
ghost use Rattle.terminal_presses.specs.declared.spot.Spot.{Spot};
ghost use Rattle.terminal_presses.specs.declared.pointer.Pointer.{Pointer};
ghost use Rattle.terminal_presses.specs.Pointers.{moved_to, laid_aside, spot_moved, started};
ghost use Rattle.terminal_presses.specs.declared.hand.Hand.{Hand};
ghost use Rattle.viewer_tracks.specs.declared.display.TheConstants.{COLUMNS};
ghost use Rattle.terminal_presses.specs.Hands.{resting, pointed_at, idle, asking, handled};
ghost use Rattle.host_names.specs.HostNames.{is_host_name};
ghost use Rattle.terminal_presses.specs.Pastes.{return};
ghost use Rattle.terminal_presses.specs.Runs.{hand_after, posted_events, MakesEvents, Corner, is_seen, mouse_at};
ghost use Rattle.terminal_presses.specs.Runs.{down_with, down, up, up_with, button_alone, spot_at};
ghost use Rattle.terminal_presses.specs.Runs.{IsOnDisplay, drawing_by, drawn_event, drawn_pointer, pointing_to};
ghost use Rattle.terminal_presses.specs.Runs.{name_with, together, click_event, says, AreThree, paste_of};
ghost use Rattle.terminal_presses.specs.Runs.{pasted_text, Types};

/// It is one whether presses come in one piece or in two, and so in many: what both come to is what the first comes to,
/// and then what the second comes to with the hand after it.
#[tactic(auto, using(crate::proofs::Pieces::of_both))]
pub fn runs_of_presses_compose()
    ensures events { (sight : Sight) (hand : Hand) (first second : List Press)
        → posted_events sight hand (first ++ second)
        ≡ posted_events sight hand first
        ++ posted_events sight (hand_after sight hand first) second }
    ensures hand { (sight : Sight) (hand : Hand) (first second : List Press)
        → hand_after sight hand (first ++ second)
        ≡ hand_after sight (hand_after sight hand first) second }
{}

/// The cell that a terminal's column and row mean is in sight; where they show a cell, it is that one.
#[tactic(auto, using(crate::proofs::Spots::spots_seen))]
pub fn spots_are_in_sight()
    ensures column { (sight : Sight) (column row : ℕ) → IsSight sight
        → first_column sight ≤ (spot_in sight column row).x
        × (spot_in sight column row).x < first_column sight + columns_in_sight sight }
    ensures display { (sight : Sight) → first_column sight + columns_in_sight sight ≤ COLUMNS }
    ensures row { (sight : Sight) (column row : ℕ) → IsSight sight
        → (spot_in sight column row).y ≤ sight.top
        × sight.top < (spot_in sight column row).y + sight.rows }
    ensures same_column { (sight : Sight) (column row : ℕ) → 1 ≤ column
        → column ≤ columns_in_sight sight
        → (spot_in sight column row).x + 1 ≡ first_column sight + column }
    ensures same_row { (sight : Sight) (column row : ℕ) → IsSight sight → 1 ≤ row → row ≤ sight.rows
        → (spot_in sight column row).y + row ≡ sight.top + 1 }
{}

/// One or two buttons that go down and are all up again, whichever goes up first, are one event: the keys as they went
/// down, the cell of the first press and that of the last release. Three are none, and so is a click that begins where
/// no cell is shown, as on the line below. The hand is then as it was, but that the pointer is where the last report
/// has told it. With Shift or Alt, as it goes up, the right button extends what is selected.
pub fn buttons_make_one_point()
    ensures one { (sight : Sight) (pointer : Pointer) (button : Button) (start end : Corner)
        → IsTrue (is_seen sight start)
        → MakesEvents sight (resting pointer) (down button start ∷ up button end ∷ [])
        (resting (mouse_at sight end pointer))
        (click_event (Keys (button_alone button)) sight start end ∷ []) }
    ensures two { (sight : Sight) (pointer : Pointer) (first second : Button)
        (start p q end : Corner)
        → (first ≡ second → ⊥)
        → IsTrue (is_seen sight start)
        → MakesEvents sight (resting pointer) (down first start ∷ down second p ∷ up first q
        ∷ up second end ∷ []) (resting (mouse_at sight end pointer))
        (click_event (Keys (together first second)) sight start end ∷ []) }
    ensures two_turned { (sight : Sight) (pointer : Pointer) (first second : Button)
        (start p q end : Corner)
        → (first ≡ second → ⊥)
        → IsTrue (is_seen sight start)
        → MakesEvents sight (resting pointer) (down first start ∷ down second p ∷ up second q
        ∷ up first end ∷ []) (resting (mouse_at sight end pointer))
        (click_event (Keys (together first second)) sight start end ∷ []) }
    ensures three { (sight : Sight) (pointer : Pointer) (a b c x y z : Button)
        (start p q r s end : Corner)
        → AreThree a b c → AreThree x y z
        → MakesEvents sight (resting pointer) (down a start ∷ down b p ∷ down c q ∷ up x r ∷ up y s
        ∷ up z end ∷ []) (resting (mouse_at sight end pointer)) [] }
    ensures outside { (sight : Sight) (button : Button) (hand : Hand) (start end : Corner)
        → hand.gesture ≡ None
        → IsTrue (not (is_seen sight start))
        → MakesEvents sight (idle hand) (down button start ∷ up button end ∷ [])
        (pointed_at sight end.column end.row (idle hand)) [] }
    ensures extends { (sight : Sight) (pointer : Pointer) (shift alt control : Bool)
        (start end : Corner)
        → IsTrue (shift || alt) → IsTrue (is_seen sight start)
        → handled sight (up_with shift alt control Right end)
        (hand_after sight (resting pointer) (down Right start ∷ []))
        ≡ (resting (mouse_at sight end pointer), Extend (spot_at sight start) (spot_at sight end)) }
{}

/// With the left button alone there is every click: with Alt it is the middle one, with Ctrl the right one, and after a
/// function key it is what that says.
#[tactic(auto, using(crate::proofs::Clicks::clicks_of_one))]
pub fn one_button_is_enough()
    ensures alt { (sight : Sight) (pointer : Pointer) (control : Bool) (start end : Corner)
        → IsTrue (is_seen sight start)
        → MakesEvents sight (resting pointer) (down_with true control Left start ∷ up Left end ∷ [])
        (resting (mouse_at sight end pointer))
        (click_event (Keys keys.Middle) sight start end ∷ []) }
    ensures control { (sight : Sight) (pointer : Pointer) (start end : Corner)
        → IsTrue (is_seen sight start)
        → MakesEvents sight (resting pointer) (down_with false true Left start ∷ up Left end ∷ [])
        (resting (mouse_at sight end pointer))
        (click_event (Keys keys.Right) sight start end ∷ []) }
    ensures function { (sight : Sight) (pointer : Pointer) (key : FunctionKey) (click : Click)
        (start end : Corner)
        → says key ≡ Some click → IsTrue (is_seen sight start)
        → MakesEvents sight (resting pointer) (Function key ∷ down Left start ∷ up Left end ∷ [])
        (resting (mouse_at sight end (started pointer))) (click_event click sight start end ∷ []) }
{}

/// With keys alone there is every click between any two cells of the display: the pointer is shown, arrows lead to the
/// first cell, a function key says what the click is, arrows lead to the second cell, and Return or the same key is the
/// click. Return by itself is a left click. The hand is then as it was, but for the pointer, which an arrow never moves
/// out of the display.
pub fn one_pointer_is_enough()
    ensures click { (sight : Sight) (pointer : Pointer) (key : FunctionKey) (click : Click)
        (start end : Spot)
        → pointer.shown ≡ None → says key ≡ Some click → IsOnDisplay start → IsOnDisplay end
        → MakesEvents sight (resting pointer)
        (drawing_by key (Character return) sight pointer start end)
        (resting (drawn_pointer start end pointer)) (drawn_event click start end ∷ []) }
    ensures again { (sight : Sight) (pointer : Pointer) (key : FunctionKey) (click : Click)
        (start end : Spot)
        → pointer.shown ≡ None → says key ≡ Some click → IsOnDisplay start → IsOnDisplay end
        → MakesEvents sight (resting pointer)
        (drawing_by key (Function key) sight pointer start end)
        (resting (drawn_pointer start end pointer)) (drawn_event click start end ∷ []) }
    ensures left { (sight : Sight) (pointer : Pointer) (at : Spot)
        → pointer.shown ≡ None → IsOnDisplay at
        → MakesEvents sight (resting pointer)
        (pointing_to sight pointer at ++ Character return ∷ [])
        (resting (moved_to at pointer)) (drawn_event (Keys keys.Left) at at ∷ []) }
    ensures away { (sight : Sight) (pointer : Pointer) (at : Spot)
        → MakesEvents sight (resting (moved_to at pointer)) (Escape ∷ [])
        (resting (laid_aside (moved_to at pointer))) [] }
    ensures stays { (n : ℕ) (arrow : Arrow) (at : Spot) → IsOnDisplay at
        → IsOnDisplay (spot_moved n arrow at) }
{}

/// The events of a text that is pasted, whose bytes are what each says by itself, type it, each 900 bytes of it, but the
/// last. So do those of a host file. Nothing of the text is left, and the hand is as it was.
pub fn pastes_are_typed()
    ensures typed { (sight : Sight) (hand : Hand) (text : List ℕ)
        → Types (posted_events sight (idle hand) (paste_of text)) (pasted_text text) }
    ensures hand { (sight : Sight) (hand : Hand) (text : List ℕ)
        → hand_after sight (idle hand) (paste_of text) ≡ idle hand }
{}

/// The bytes of a host file's name that is asked for are typed one after another, and make no event. A carriage return
/// then says that the file is typed; the key Escape calls it off. The hand asks no more then. Whatever is pasted while a
/// name is asked for, nothing of it is a key: it makes no event, and asks for no file.
#[tactic(auto, using(crate::proofs::Names::names_said))]
pub fn names_are_typed()
    ensures typed { (sight : Sight) (hand : Hand) (name : List ℕ) → IsTrue (is_host_name name)
        → MakesEvents sight (asking [] hand) (map Character name) (asking name hand) [] }
    ensures entered { (sight : Sight) (hand : Hand) (name : List ℕ) → 1 ≤ length name
        → handled sight (Character return) (asking name hand) ≡ (idle hand, TypeFile name) }
    ensures called_off { (sight : Sight) (hand : Hand) (name : List ℕ)
        → handled sight Escape (asking name hand) ≡ (idle hand, Nothing) }
    ensures pasted { (sight : Sight) (hand : Hand) (name text : List ℕ)
        → MakesEvents sight (asking name hand) (paste_of text)
        (asking (name_with name text) hand) [] }
{}
