//! What holds of all operations and grids.
ghost use Rattle.std.specs.Prelude.{◌≡◌, ◌++◌, ◌<◌, ◌≤◌, ◌+◌, ℕ, List, [], Option, Some, length, true, ◌∷◌};
ghost use Rattle.screen_drawing.specs.declared.face.Face.{Face as AFace};
ghost use Rattle.screen_drawing.specs.declared.pen.TheConstants.{BLACK, DARK_GREY, GREY, LIGHT_BLUE, LIGHT_GREY, RED, WHITE};
ghost use Rattle.screen_drawing.specs.declared.scene.Scene.{Scene as AScene};
ghost use Rattle.screen_drawing.specs.declared.operation.Operation.{Operation as AnOperation};
ghost use Rattle.screen_pictures.specs.Screen.{column_at};
ghost use Rattle.screen_drawing.specs.Changes.{changes};
ghost use Rattle.screen_drawing.specs.Grid.{Grid, done};
ghost use Rattle.screen_drawing.specs.Scene.{scene_rows, height_of, letter_face, seen_row, text_below};
ghost use Rattle.screen_drawing.specs.Painting.{HasGridRoom, are_of_size, painting};
ghost use Rattle.screen_drawing.specs.Pen.{blank_face, face_of, terminal_colours};
ghost use Rattle.screen_drawing.specs.Shows.{ShowsRows, ShowsFrom};
ghost use Rattle.screen_drawing.specs.Spelling.{AreSendable, IsSendable, operation_bytes, spelled_all, operation_told};

/// Bytes that begin with the spelling of an operation are told as that operation, whatever follows.
pub fn spelled_is_told()
    ensures { (operation : AnOperation) (rest : List ℕ) → IsSendable operation
        → operation_told (operation_bytes operation ++ rest) ≡ Some (operation, rest) }
{}

/// Bytes are the spelling of at most one list of operations.
pub fn one_telling()
    ensures { (a b : List AnOperation) → AreSendable a → AreSendable b
        → spelled_all a ≡ spelled_all b → a ≡ b }
{}

/// A grid that shows the old cells of a row shows the new ones after what changes them, and other rows as before.
pub fn rows_are_shown()
    ensures shown { (row : ℕ) (olds news : List AFace) (g : Grid) → length olds ≡ length news
        → length news ≤ g.width
        → row ≤ g.height → ShowsFrom row 1 olds g
        → ShowsFrom row 1 news (done (changes row olds news) g) }
    ensures kept { (row : ℕ) (olds news : List AFace) (g : Grid) (x y : ℕ) → length news ≤ g.width
        → row ≤ g.height
        → (y ≡ row → x < 1) → (done (changes row olds news) g).cells x y ≡ g.cells x y }
{}

/// Where nothing changed, nothing is sent of a row.
pub fn same_rows_change_nothing()
    ensures { (row : ℕ) (faces : List AFace) → changes row faces faces ≡ [] }
{}

/// After a painting over known rows, what a grid shows below the scene is as before.
pub fn rest_is_kept()
    ensures { (known : List (List AFace)) (scene : AScene) (caret : Option (ℕ
        × ℕ)) (g : Grid) (x y : ℕ)
        → HasGridRoom scene.width (height_of scene) g
        → are_of_size scene.width (height_of scene) known ≡ true → height_of scene < y
        → (done (painting known scene caret) g).cells x y ≡ g.cells x y }
{}

/// A grid that shows the rows of a scene shows each cell in sight, beside them nothing of the screen, and the text of the
/// line below.
pub fn cells_are_shown()
    ensures cells { (scene : AScene) (g : Grid) (x y : ℕ) → ShowsRows (scene_rows scene) g
        → x < scene.width → x < scene.columns → y < scene.rows
        → g.cells (x + 1) (y + 1)
        ≡ face_of (scene.left + x) (column_at (seen_row scene y) (scene.left + x)) }
    ensures beside { (scene : AScene) (g : Grid) (x y : ℕ) → ShowsRows (scene_rows scene) g
        → x < scene.width → scene.columns ≤ x → y < scene.rows
        → g.cells (x + 1) (y + 1) ≡ blank_face WHITE }
    ensures below { (scene : AScene) (g : Grid) (x : ℕ) → ShowsRows (scene_rows scene) g
        → x < scene.width
        → scene.rows < height_of scene
        → g.cells (x + 1) (scene.rows + 1) ≡ letter_face (text_below scene.below) x }
{}

/// Where no row is known, every grid shows the known rows.
pub fn nothing_is_shown()
    ensures { (g : Grid) → ShowsRows [] g }
{}

/// The colours by name are the numbers that the definitions say.
pub fn constants_are_defined()
    ensures { (BLACK ∷ DARK_GREY ∷ GREY ∷ LIGHT_BLUE ∷ LIGHT_GREY ∷ RED ∷ WHITE ∷ [])
        ≡ terminal_colours }
{}
