//! What a terminal shows of a past: a part of a screen, and a line below it.
ghost use Rattle.std.specs.Prelude.{◌≡◌, ⊤, OnOk};
ghost use Rattle.byte_streams.specs.Counting.{CountsFault};
ghost use Rattle.byte_streams.specs.Sent.{Sends};
ghost use Rattle.screen_drawing.specs.Scene.{IsInSight, text_below};
ghost use Rattle.past_viewer.specs.Panes.{IsPartPainted, IsShownBy, asked_bytes, ring_bytes, size_question};

use byte_streams::{AnswerWriter, OutputFault};
use past_looks::Wish;
use screen_cells::Screen;
use screen_drawing::{Painter, Scene, ring, send_bytes};
use screen_reading::{caret_of, fitted, followed, height_told, moved, width_told};
use terminal_presses::{Page, Sight};
use viewer_tracks::{ROWS, Track};

/// An escape byte and `[18t`, to which a terminal tells its size.
const ASK_SIZE: &[u8] = b"\x1b[18t";

/// How many rows and columns a terminal has.
#[derive(Clone, Copy, Debug, PartialEq, Eq)]
pub struct Window {
    pub rows: u16,
    pub columns: u16,
}

/// A terminal of this size, and which part of a screen it shows.
#[derive(Drop)]
pub(crate) struct Pane {
    pub(crate) window: Window,
    painter: Painter,
    sight: Sight,
    /// The rows in sight follow the caret.
    follows: bool,
    /// The terminal rings, and is asked for its size, behind the next scene.
    rings: bool,
    asks: bool,
}

impl Pane {
    /// Of a terminal of which nothing is known but its size, for which it is asked.
    pub fn new(window: Window) -> Pane {
        Pane {
            window,
            painter: Painter::new(),
            sight: sight_in(window, Sight::whole().on(Track::System)),
            follows: true,
            rings: false,
            asks: true,
        }
    }

    /// It rings behind the next scene.
    pub fn ring(&mut self) {
        self.rings = true;
    }

    /// It rings behind the next scene, where that is to be.
    pub fn ring_where(&mut self, rings: bool) {
        self.rings = self.rings || rings;
    }

    /// The rows in sight follow the caret of the next scene, where that is to be.
    pub fn follow_where(&mut self, follows: bool) {
        self.follows = self.follows || follows;
    }

    /// Does what is wished of the terminal alone. Other wishes do nothing.
    pub fn change(&mut self, wish: &Wish) {
        match wish {
            Wish::LookAnew => self.look_anew(),
            Wish::Move(page) => self.move_by(*page),
            Wish::Fit(rows, columns) => self.fit(*rows, *columns),
            _ => {}
        }
    }

    /// All is shown anew, and the terminal is asked for its size.
    pub fn look_anew(&mut self) {
        self.painter.forget();
        self.asks = true;
    }

    /// The terminal is asked for its size behind the next scene, where that is to be: so something is heard then, also where
    /// nobody presses a key.
    pub fn ask_where(&mut self, asks: bool) {
        self.asks = self.asks || asks;
    }

    /// Other rows come into sight, or the columns of a side.
    pub fn move_by(&mut self, page: Page) {
        self.sight = moved(page, self.sight);
    }

    /// The terminal tells these two numbers for its rows and columns, in this order or in the other one.
    pub fn fit(&mut self, rows: u16, columns: u16) {
        self.window = Window {
            rows: height_told(rows, columns),
            columns: width_told(rows, columns),
        };
        self.sight = sight_in(self.window, self.sight);
        self.painter.forget();
    }

    /// Which part of the display is in sight.
    pub fn sight(&self) -> Sight {
        self.sight
    }

    /// Shows the part of a screen that is in sight, and a line below it, and sends what gives the clipboard a text. Then it
    /// rings, and asks the terminal for its size, where that is to be.
    pub fn show<W: AnswerWriter>(
        &mut self,
        writer: &mut W,
        screen: &Screen,
        line: &[u8],
        clip: &[u8],
    ) -> Result<(), OutputFault>
        ensures shown { OnOk result (IsShownBy self.old.rings self.old.asks screen.now line.now
            clip.now (W.contents writer.old) (W.contents writer.new)) }
        ensures cause { CountsFault result (W.failures writer.old) (W.failures writer.new) }
    {
        let (rings, asks) = (self.rings, self.asks);
        self.rings = false;
        self.asks = false;
        self.paint(writer, screen, line)?;
        clip_if(writer, clip)?;
        ring_if(writer, rings)?;
        ask_if(writer, asks)
    }

    /// Shows the part of a screen that is in sight, where the rows in sight follow the caret first if that is to be.
    fn paint<W: AnswerWriter>(
        &mut self,
        writer: &mut W,
        screen: &Screen,
        line: &[u8],
    ) -> Result<(), OutputFault>
        ensures painted { OnOk result (IsPartPainted screen.now line.now (W.contents writer.old)
            (W.contents writer.new)) }
        ensures cause { CountsFault result (W.failures writer.old) (W.failures writer.new) }
    {
        if self.follows {
            self.sight = followed(caret_of(screen), self.sight);
        }
        self.follows = false;
        paint_scene(
            &mut self.painter,
            writer,
            &scene_of(self.sight, screen, line),
        )
    }
}

/// The part of the display that is in sight in a terminal of this size.
fn sight_in(window: Window, sight: Sight) -> Sight {
    fitted(window.rows, window.columns, sight)
}

/// Has the terminal show a scene.
fn paint_scene<W: AnswerWriter>(
    painter: &mut Painter,
    writer: &mut W,
    scene: &Scene<'_>,
) -> Result<(), OutputFault>
    requires { IsInSight scene.now }
    ensures painted { OnOk result (IsPartPainted scene.now.screen.now (text_below scene.now.below)
        (W.contents writer.old) (W.contents writer.new)) }
    ensures cause { CountsFault result (W.failures writer.old) (W.failures writer.new) }
{
    painter.paint(writer, scene)
}

/// Sends this, where it is anything, and flushes the writer.
fn clip_if<W: AnswerWriter>(writer: &mut W, clip: &[u8]) -> Result<(), OutputFault>
    ensures sent { Sends result (W.contents writer.old) (W.contents writer.new) clip.now }
    ensures cause { CountsFault result (W.failures writer.old) (W.failures writer.new) }
{
    if clip.is_empty() {
        Ok(())
    } else {
        send_flushed(writer, clip)
    }
}

/// Rings where that is to be.
fn ring_if<W: AnswerWriter>(writer: &mut W, rings: bool) -> Result<(), OutputFault>
    ensures sent { Sends result (W.contents writer.old) (W.contents writer.new) (ring_bytes rings) }
    ensures cause { CountsFault result (W.failures writer.old) (W.failures writer.new) }
{
    if rings { ring(writer) } else { Ok(()) }
}

/// Asks the terminal for its size where that is to be.
fn ask_if<W: AnswerWriter>(writer: &mut W, asks: bool) -> Result<(), OutputFault>
    ensures sent { Sends result (W.contents writer.old) (W.contents writer.new) (asked_bytes asks) }
    ensures cause { CountsFault result (W.failures writer.old) (W.failures writer.new) }
{
    if asks { ask_size(writer) } else { Ok(()) }
}

/// Asks the terminal for its size, and flushes the writer.
fn ask_size<W: AnswerWriter>(writer: &mut W) -> Result<(), OutputFault>
    ensures sent { Sends result (W.contents writer.old) (W.contents writer.new) size_question }
    ensures cause { CountsFault result (W.failures writer.old) (W.failures writer.new) }
{
    send_flushed(writer, ASK_SIZE)
}

/// Sends bytes, and flushes the writer.
fn send_flushed<W: AnswerWriter>(writer: &mut W, bytes: &[u8]) -> Result<(), OutputFault>
    ensures sent { Sends result (W.contents writer.old) (W.contents writer.new) bytes.now }
    ensures cause { CountsFault result (W.failures writer.old) (W.failures writer.new) }
{
    send_bytes(writer, bytes)?;
    writer.flush()
}

/// The part of a screen that is in sight, and a line below it.
fn scene_of<'a>(sight: Sight, screen: &'a Screen, line: &'a [u8]) -> Scene<'a>
    ensures screen { result.screen.now ≡ screen.now }
    ensures line { text_below result.below ≡ line.now }
    ensures in_sight { IsInSight result }
{
    Scene {
        screen: screen.rows(),
        first: ROWS - 1 - sight.top(),
        rows: sight.rows(),
        left: sight.first_column(),
        columns: sight.columns(),
        width: sight.width(),
        pointer: None,
        below: Some(line),
    }
}
