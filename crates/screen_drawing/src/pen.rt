//! How a cell looks on a terminal: ink, paper and style.
ghost use Rattle.std.specs.Prelude.{◌≡◌};
ghost use Rattle.screen_drawing.specs.Pen.{IsCode, cell_ink, ink_of, is_slanted, marked_ink, paper_of, pen_of, plain_pen};
ghost use Rattle.screen_drawing.specs.Pen.{rule_code, rule_of, same_pen, slant_code, weight_code, weight_of};

use screen_pictures::{Cell, Mark};
use viewer_tracks::SYSTEM_LEFT;

/// Black. Colours go by their numbers among the terminal's 256.
pub const BLACK: u8 = 16;

pub const DARK_GREY: u8 = 238;

pub const GREY: u8 = 246;

pub const LIGHT_BLUE: u8 = 153;

pub const LIGHT_GREY: u8 = 250;

pub const RED: u8 = 160;

/// White.
pub const WHITE: u8 = 231;

/// Oberon's sixteen colours among the terminal's.
const INKS: [u8; 16] = [
    231, 196, 46, 21, 201, 226, 51, 124, 28, 18, 39, 30, 245, 250, 254, 16,
];

/// How heavy the strokes of a character are, by the numbers of a terminal.
#[derive(Clone, Copy, Debug, PartialEq, Eq)]
pub enum Weight {
    Regular = 22,
    Bold = 1,
    Faint = 2,
}

/// The line that is drawn along a character, by the numbers of a terminal.
#[derive(Clone, Copy, Debug, PartialEq, Eq)]
pub enum Rule {
    /// There is none.
    Plain = 24,
    /// A line under the character.
    Under = 4,
    /// A line over it.
    Over = 53,
}

/// What a terminal draws with.
#[derive(Clone, Copy, Debug, PartialEq, Eq)]
pub struct Pen {
    /// The colour of the character.
    pub ink: u8,
    /// The colour behind it.
    pub paper: u8,
    pub weight: Weight,
    pub is_italic: bool,
    pub rule: Rule,
}

impl Weight {
    /// That of a font.
    fn of_font(font: u8) -> Self
        ensures { result ≡ weight_of font }
    {
        if font == 2 || font == 4 {
            Weight::Bold
        } else if font == 3 {
            Weight::Faint
        } else {
            Weight::Regular
        }
    }
}

impl Rule {
    /// That of a character which stands so far above the line.
    fn of_offset(voff: i8) -> Self
        ensures { result ≡ rule_of voff }
    {
        if voff < 0 {
            Rule::Under
        } else if voff > 0 {
            Rule::Over
        } else {
            Rule::Plain
        }
    }
}

impl Pen {
    /// The pen for the cell at a column of the screen.
    #[tactic(auto, unfolding(crate::specs::Pen::pen_of))]
    pub fn of(cell: &Cell, column: u8) -> Self
        ensures { result ≡ pen_of column cell.now }
    {
        let font = cell.look.font;
        Pen {
            ink: cell_ink(cell),
            paper: paper(cell.mark, column),
            weight: Weight::of_font(font),
            is_italic: font == 1 || font == 4,
            rule: Rule::of_offset(cell.look.voff),
        }
    }

    /// The pen of nothing but a paper.
    pub fn plain(paper: u8) -> Self
        ensures { result ≡ plain_pen paper }
    {
        Pen {
            ink: BLACK,
            paper,
            weight: Weight::Regular,
            is_italic: false,
            rule: Rule::Plain,
        }
    }

    /// The numbers by which a terminal knows its weight, whether it slants characters, and its rule.
    pub(crate) fn style_codes(self) -> (u8, u8, u8)
        ensures weight { IsCode result.0 (weight_code self.weight) }
        ensures slant { IsCode result.1 (slant_code self.is_italic) }
        ensures rule { IsCode result.2 (rule_code self.rule) }
    {
        let slant = if self.is_italic { 3 } else { 23 };
        (self.weight as u8, slant, self.rule as u8)
    }

    /// Whether another pen draws the same.
    pub fn is_same(self, other: Pen) -> bool
        ensures { result ≡ same_pen self other }
    {
        let (weight, slant, rule) = self.style_codes();
        let (other_weight, other_slant, other_rule) = other.style_codes();
        self.ink == other.ink
            && self.paper == other.paper
            && weight == other_weight
            && slant == other_slant
            && rule == other_rule
    }
}

/// The ink for one of Oberon's colours.
fn ink(colour: u8) -> u8
    ensures { result ≡ ink_of colour }
{
    INKS.get(usize::from(colour)).copied().unwrap_or(BLACK)
}

/// The ink of a cell: that of the bar, where a line goes on beyond it.
fn cell_ink(cell: &Cell) -> u8
    ensures { result ≡ cell_ink cell.now }
{
    if cell.goes_on {
        GREY
    } else {
        marked_ink(cell.mark, cell.look.colour)
    }
}

/// The ink of a character of a colour where there is this mark.
fn marked_ink(mark: Mark, colour: u8) -> u8
    ensures { result ≡ marked_ink mark colour }
{
    match mark {
        Mark::Marker | Mark::Menu => WHITE,
        Mark::Bar => GREY,
        Mark::Caret | Mark::Selected | Mark::Text | Mark::Filler => ink(colour),
    }
}

/// The background at a column where there is this mark.
fn paper(mark: Mark, column: u8) -> u8
    ensures { result ≡ paper_of mark column }
{
    match mark {
        Mark::Marker => RED,
        Mark::Selected => LIGHT_BLUE,
        Mark::Menu => menu_paper(column),
        Mark::Filler => LIGHT_GREY,
        Mark::Caret | Mark::Bar | Mark::Text => WHITE,
    }
}

/// The background of menus, which differs between the tracks.
fn menu_paper(column: u8) -> u8
    ensures { result ≡ paper_of Mark.Menu column }
{
    if column < SYSTEM_LEFT {
        BLACK
    } else {
        DARK_GREY
    }
}
