//! A document as HTML.
ghost use Rattle.std.specs.Prelude.{◌≡◌, ◌++◌, IfOk, OnOk};
ghost use Rattle.std.specs.Fmt.{decimal, signed_decimal};
ghost use Rattle.piece_ring.specs.Look.{default_look};
ghost use Rattle.store_documents.specs.Markup.{html_end, html_of, html_start, is_that_look, look_numbers, look_style};
ghost use Rattle.store_documents.specs.Markup.{look_tag, marked_text, raised_style, turn_tags, turned_look, web_byte};
ghost use Rattle.store_documents.specs.Markup.{web_colour, web_font};

use crate::file_text::{fed, printed};
use piece_ring::{DEFAULT_LOOK, Look};
use std::alloc::{AllocError, Global};

/// A document of these characters as HTML: each of them stands there once, in their order and in its look. Where a look
/// begins its three numbers are told, and how a browser shows them: the colour, the font as italic, bold, small or large,
/// and the offset in pixels above the line. The end of a line is a line feed; what is no character of a text is a
/// question mark. It fails for want of memory alone.
#[tactic(auto, unfolding(crate::specs::Markup::html_of))]
pub fn html(alloc: Global, text: &[(u8, Look)]) -> Result<Vec<u8>, AllocError>
    ensures { IfOk result (λ bytes. bytes.items ≡ html_of text.now) }
{
    let mut bytes = start(alloc)?;
    push_tag(&mut bytes, DEFAULT_LOOK)?;
    push_text(&mut bytes, text)?;
    push_end(&mut bytes)?;
    Ok(bytes)
}

/// The beginning of a page.
#[tactic(auto, unfolding(crate::specs::Markup::html_start))]
fn start(alloc: Global) -> Result<Vec<u8>, AllocError>
    ensures { IfOk result (λ bytes. bytes.items ≡ html_start) }
{
    Vec::from_slice(
        alloc,
        b"<!DOCTYPE html>\n<html><head><meta charset='utf-8'><title>A document</title></head>\n\
        <body><pre style='font:15px/1.5 DejaVu Sans Mono,Menlo,Consolas,monospace;tab-size:4'>",
    )
}

/// Adds its end.
#[tactic(auto, unfolding(crate::specs::Markup::html_end))]
fn push_end(bytes: &mut Vec<u8>) -> Result<(), AllocError>
    ensures { OnOk result (bytes.new.items ≡ bytes.old.items ++ html_end) }
{
    bytes.extend_from_slice(b"</span></pre></body></html>\n")?;
    Ok(())
}

/// Adds characters behind one of the default look.
fn push_text(bytes: &mut Vec<u8>, text: &[(u8, Look)]) -> Result<(), AllocError>
    ensures { OnOk result (bytes.new.items ≡ bytes.old.items ++ marked_text default_look text.now) }
{
    let mut before = DEFAULT_LOOK;
    for character in text {
        push_turn(bytes, before, character.1)?;
        push_byte(bytes, printed(fed(character.0)))?;
        before = character.1;
    }
    Ok(())
}

/// Adds where another look begins behind one, if it is another.
fn push_turn(bytes: &mut Vec<u8>, before: Look, look: Look) -> Result<(), AllocError>
    ensures { OnOk result (bytes.new.items ≡ bytes.old.items
        ++ turn_tags (turned_look before look)) }
{
    if is_that_look(before, look) {
        return Ok(());
    }
    bytes.extend_from_slice(b"</span>")?;
    push_tag(bytes, look)
}

/// Whether one look is the other.
fn is_that_look(a: Look, b: Look) -> bool
    ensures { result ≡ is_that_look a b }
{
    a.font == b.font && a.colour == b.colour && a.voff == b.voff
}

/// Adds where characters in a look begin.
#[tactic(auto, unfolding(crate::specs::Markup::look_tag))]
fn push_tag(bytes: &mut Vec<u8>, look: Look) -> Result<(), AllocError>
    ensures { OnOk result (bytes.new.items ≡ bytes.old.items ++ look_tag look) }
{
    bytes.extend_from_slice(b"<span data-look='")?;
    push_numbers(bytes, look)?;
    bytes.extend_from_slice(b"' style='")?;
    push_style(bytes, look)?;
    bytes.extend_from_slice(b"'>")?;
    Ok(())
}

/// Adds the numbers of a look.
#[tactic(auto, unfolding(crate::specs::Markup::look_numbers))]
fn push_numbers(bytes: &mut Vec<u8>, look: Look) -> Result<(), AllocError>
    ensures { OnOk result (bytes.new.items ≡ bytes.old.items ++ look_numbers look) }
{
    push_number(bytes, look.font)?;
    bytes.extend_from_slice(b" ")?;
    push_number(bytes, look.colour)?;
    bytes.extend_from_slice(b" ")?;
    push_offset(bytes, look)
}

/// Adds how a browser shows a look.
#[tactic(auto, unfolding(crate::specs::Markup::look_style))]
fn push_style(bytes: &mut Vec<u8>, look: Look) -> Result<(), AllocError>
    ensures { OnOk result (bytes.new.items ≡ bytes.old.items ++ look_style look) }
{
    bytes.extend_from_slice(b"color:")?;
    bytes.extend_from_slice(colour(look.colour))?;
    bytes.extend_from_slice(font(look.font))?;
    push_raised(bytes, look)
}

/// Adds how far above the line a browser shows characters.
#[tactic(auto, unfolding(crate::specs::Markup::raised_style))]
fn push_raised(bytes: &mut Vec<u8>, look: Look) -> Result<(), AllocError>
    ensures { OnOk result (bytes.new.items ≡ bytes.old.items ++ raised_style look.voff) }
{
    bytes.extend_from_slice(b";vertical-align:")?;
    push_offset(bytes, look)?;
    bytes.extend_from_slice(b"px")?;
    Ok(())
}

/// Adds a number.
fn push_number(bytes: &mut Vec<u8>, number: u8) -> Result<(), AllocError>
    ensures { OnOk result (bytes.new.items ≡ bytes.old.items ++ decimal number) }
{
    let mut digits = itoa::Buffer::new();
    bytes.extend_from_slice(digits.format(number).as_bytes())?;
    Ok(())
}

/// Adds the offset of a look, a negative one with a minus before it.
fn push_offset(bytes: &mut Vec<u8>, look: Look) -> Result<(), AllocError>
    ensures { OnOk result (bytes.new.items ≡ bytes.old.items ++ signed_decimal look.voff) }
{
    push_signed(bytes, look.voff)
}

/// Adds a number, a negative one with a minus before it.
fn push_signed(bytes: &mut Vec<u8>, number: i8) -> Result<(), AllocError>
    ensures { OnOk result (bytes.new.items ≡ bytes.old.items ++ signed_decimal number) }
{
    let mut digits = itoa::Buffer::new();
    bytes.extend_from_slice(digits.format(number).as_bytes())?;
    Ok(())
}

/// How a browser knows a colour.
#[tactic(auto, unfolding(crate::specs::Markup::web_colour))]
fn colour(number: u8) -> &'static [u8]
    ensures { result.now ≡ web_colour number }
{
    if number == 0 {
        b"#ffffff"
    } else if number == 1 {
        b"#ff0000"
    } else if number == 2 {
        b"#00ff00"
    } else if number == 3 {
        b"#0000ff"
    } else if number == 4 {
        b"#ff00ff"
    } else if number == 5 {
        b"#ffff00"
    } else if number == 6 {
        b"#00ffff"
    } else if number == 7 {
        b"#af0000"
    } else if number == 8 {
        b"#008700"
    } else if number == 9 {
        b"#000087"
    } else if number == 10 {
        b"#00afff"
    } else if number == 11 {
        b"#008787"
    } else if number == 12 {
        b"#8a8a8a"
    } else if number == 13 {
        b"#bcbcbc"
    } else if number == 14 {
        b"#e4e4e4"
    } else {
        b"#000000"
    }
}

/// What a browser does for a font.
#[tactic(auto, unfolding(crate::specs::Markup::web_font))]
fn font(number: u8) -> &'static [u8]
    ensures { result.now ≡ web_font number }
{
    if number == 1 {
        b";font-style:italic"
    } else if number == 2 {
        b";font-weight:bold"
    } else if number == 3 {
        b";font-size:smaller"
    } else if number == 4 {
        b";font-size:larger"
    } else {
        b""
    }
}

/// Adds a byte as HTML has it.
fn push_byte(bytes: &mut Vec<u8>, byte: u8) -> Result<(), AllocError>
    ensures { OnOk result (bytes.new.items ≡ bytes.old.items ++ web_byte byte) }
{
    if byte == b'&' {
        bytes.extend_from_slice(b"&amp;")?;
    } else if byte == b'<' {
        bytes.extend_from_slice(b"&lt;")?;
    } else if byte == b'>' {
        bytes.extend_from_slice(b"&gt;")?;
    } else {
        bytes.push(byte)?;
    }
    Ok(())
}
