//! Calls of commands: the word that is called, and what stands after it.
ghost use Rattle.std.specs.Prelude.{◌≡◌, ◌≤◌, length, IfOk, IfErr, IfSome, MatchResult, option_map};
ghost use Rattle.sector_disk.specs.Faults.{OneOf};
ghost use Rattle.readers_scanners.specs.Symbol.{IsSymbolShaped};
ghost use Rattle.command_table.specs.Parameters.{place_lent, text_lent, listed_names, first_names};
ghost use Rattle.desktop_definitions.specs.Call.{text_called, seen_at_marker, target_viewer, number_in, value_of, as_name};
ghost use Rattle.desktop_definitions.specs.Call.{as_number, name_of, names_of};
ghost use Rattle.desktop_definitions.specs.Commands.{done_with_name, done_with_number, done_with_viewer, commanded};
ghost use Rattle.desktop_definitions.specs.Commands.{after_call};
ghost use Rattle.desktop_definitions.specs.Outcome.{reply_codes as known_codes};
ghost use Rattle.desktop_definitions.specs.DeskWords.{kept_place, kept_menu};
ghost use Rattle.desk_commands.specs.Calls.{IsCall, IsViewerOnTop};
ghost use Rattle.desk_core.specs.Words.{flat, IsOnTop, needs, IsKeptWhole, IsOver, kept_desktop, Does, TellsValue, TellsAs};
ghost use Rattle.desk_commands.specs.Words.{no_viewer, version_number, given, files_deleted};

use crate::closings::{close_viewer, recall_viewer};
use crate::collecting::collect;
use crate::documents::{copy_viewer, grow_viewer, open_document, open_file, open_log};
use crate::log::{clear_log, log_directory};
use crate::looks::{change_look, colour_set, font_set, offset_set, set_look};
use crate::searches::{recall_deleted, search};
use crate::stores::{delete_files, store};
use arrayvec::ArrayVec;
use char_file::{CharSource, Fault};
use command_table::{Command, MOST_NAMES, Version, called, name_in, names, params};
use desk_core::desk::Desk;
use desk_core::stop::StepResult;
use desk_core::viewers::viewer_or_none;
use desk_core::views::text_there;
use desktop_definitions::NameCommand::{ChangeFont, OpenDocument, OpenFile, SetFont};
use desktop_definitions::NumberCommand::{ChangeColor, ChangeOffset, SetColor, SetOffset};
use desktop_definitions::{Call, NameCommand, NumberCommand, Reply, ViewerCommand, codes};
use event_bytes::Name;
use readers_scanners::Symbol;
use text_core::Text;

/// The number that a symbol is. None where it is another symbol.
fn number_in(symbol: &Symbol) -> Option<i32>
    ensures { result ≡ number_in symbol.now }
{
    match symbol {
        Symbol::Int(number) => Some(*number),
        _ => None,
    }
}

/// The word at `pos` of a viewer's menu or main text is called. Refused where it is the word of no command that the
/// version has.
pub fn call<S: CharSource>(
    desk: &mut Desk,
    version: Version,
    id: u16,
    in_menu: bool,
    pos: u32,
    source: &mut S,
) -> StepResult
    requires placed { IsOnTop id (kept_desktop desk.old).columns }
    requires place { pos ≤ length (flat (text_called (kept_desktop desk.old) id in_menu)) }
    requires over { IsOver (S.characters source.old) (kept_desktop desk.old) }
    ensures { Does S.CharSource (λ d. after_call (version_number version) d id in_menu pos) result
        source.old source.new (kept_desktop desk.old) (kept_desktop desk.new) }
{
    let found = called(version, desk.text_called(id, in_menu), pos, source)?;
    let Some((command, after)) = found else {
        return Ok(Reply::No(codes::NO_COMMAND));
    };
    let call = Call {
        viewer: id,
        in_menu,
        after,
    };
    obey(desk, command, call, source)
}

/// Does what a command says.
#[tactic(auto, unfolding(desktop_definitions::specs::Commands::commanded, desktop_definitions::specs::Call::number_of))]
fn obey<S: CharSource>(desk: &mut Desk, command: Command, call: Call, source: &mut S) -> StepResult
    requires { IsCall (S.characters source.old) (kept_desktop desk.old) call }
    ensures { Does S.CharSource (λ d. commanded d command call) result
        source.old source.new (kept_desktop desk.old) (kept_desktop desk.new) }
{
    match command {
        Command::EditOpen => command_with_name(desk, OpenDocument, call, source),
        Command::SystemOpen => command_with_name(desk, OpenFile, call, source),
        Command::SystemSetFont => command_with_name(desk, SetFont, call, source),
        Command::EditChangeFont => command_with_name(desk, ChangeFont, call, source),
        Command::SystemSetColor => command_with_number(desk, SetColor, call, source),
        Command::SystemSetOffset => command_with_number(desk, SetOffset, call, source),
        Command::EditChangeColor => command_with_number(desk, ChangeColor, call, source),
        Command::EditChangeOffset => command_with_number(desk, ChangeOffset, call, source),
        Command::SystemClose => command_with_viewer(desk, ViewerCommand::Close, call, source),
        Command::SystemCopy => command_with_viewer(desk, ViewerCommand::Copy, call, source),
        Command::EditStore => command_with_viewer(desk, ViewerCommand::Store, call, source),
        Command::EditSearch => command_with_viewer(desk, ViewerCommand::Search, call, source),
        Command::SystemGrow => command_with_viewer(desk, ViewerCommand::Grow, call, source),
        Command::SystemDeleteFiles => delete_named_files(desk, call, source),
        Command::SystemOpenLog => open_log(desk, source),
        Command::SystemRecall => recall_viewer(desk, source),
        Command::SystemClear => clear_log(desk, source),
        Command::SystemDirectory => log_directory(desk, source),
        Command::EditRecall => recall_deleted(desk, source),
        Command::SystemCollect => collect(desk, source),
    }
}

/// A command that takes a name, with the value after its word. Refused where there is none, and where it is no name.
#[tactic(auto, unfolding(desktop_definitions::specs::Commands::done_with_name), using(crate::proofs::CallLemmas::looks_set))]
fn command_with_name<S: CharSource>(
    desk: &mut Desk,
    command: NameCommand,
    call: Call,
    source: &mut S,
) -> StepResult
    requires { IsCall (S.characters source.old) (kept_desktop desk.old) call }
    ensures { Does S.CharSource (λ d. given (name_of d call) (done_with_name d command)) result
        source.old source.new (kept_desktop desk.old) (kept_desktop desk.new) }
{
    let value = value_of(desk, call, source)?;
    match as_name(value) {
        Ok(name) => match command {
            OpenDocument => open_document(desk, &name, source),
            OpenFile => open_file(desk, &name, source),
            SetFont => set_look(desk, font_set(&name), source),
            ChangeFont => change_look(desk, font_set(&name), source),
        },
        Err(code) => Ok(Reply::No(code)),
    }
}

/// A command that takes a number, likewise.
fn command_with_number<S: CharSource>(
    desk: &mut Desk,
    command: NumberCommand,
    call: Call,
    source: &mut S,
) -> StepResult
    requires { IsCall (S.characters source.old) (kept_desktop desk.old) call }
    ensures { Does S.CharSource
        (λ d. given (as_number (value_of d call)) (done_with_number d command))
        result source.old source.new (kept_desktop desk.old) (kept_desktop desk.new) }
{
    let value = value_of(desk, call, source)?;
    match as_number(value) {
        Ok(number) => do_with_number(desk, command, number, source),
        Err(code) => Ok(Reply::No(code)),
    }
}

/// What a command does with a number.
#[tactic(auto, unfolding(desktop_definitions::specs::Commands::done_with_number), using(crate::proofs::CallLemmas::looks_set))]
fn do_with_number<S: CharSource>(
    desk: &mut Desk,
    command: NumberCommand,
    number: i32,
    source: &mut S,
) -> StepResult
    requires over { IsOver (S.characters source.old) (kept_desktop desk.old) }
    ensures { Does S.CharSource (λ d. done_with_number d command number) result
        source.old source.new (kept_desktop desk.old) (kept_desktop desk.new) }
{
    match command {
        SetColor => set_look(desk, colour_set(number), source),
        SetOffset => set_look(desk, offset_set(number), source),
        ChangeColor => change_look(desk, colour_set(number), source),
        ChangeOffset => change_look(desk, offset_set(number), source),
    }
}

/// With the viewer that is meant. Refused where there is none.
fn command_with_viewer<S: CharSource>(
    desk: &mut Desk,
    command: ViewerCommand,
    call: Call,
    source: &mut S,
) -> StepResult
    requires { IsCall (S.characters source.old) (kept_desktop desk.old) call }
    ensures { Does S.CharSource
        (λ d. needs (target_viewer d call) no_viewer (done_with_viewer d command)) result
        source.old source.new (kept_desktop desk.old) (kept_desktop desk.new) }
{
    let Some(id) = meant(desk, call) else {
        return Ok(Reply::No(codes::NO_VIEWER));
    };
    do_with_viewer(desk, command, id, source)
}

/// What a command does with a viewer.
#[tactic(auto, unfolding(desktop_definitions::specs::Commands::done_with_viewer))]
fn do_with_viewer<S: CharSource>(
    desk: &mut Desk,
    command: ViewerCommand,
    id: u16,
    source: &mut S,
) -> StepResult
    requires { IsViewerOnTop (S.characters source.old) (kept_desktop desk.old) id }
    ensures { Does S.CharSource (λ d. done_with_viewer d command id) result
        source.old source.new (kept_desktop desk.old) (kept_desktop desk.new) }
{
    match command {
        ViewerCommand::Close => close_viewer(desk, id, source),
        ViewerCommand::Copy => copy_viewer(desk, id, source),
        ViewerCommand::Store => store(desk, id, source),
        ViewerCommand::Search => search(desk, id, source),
        ViewerCommand::Grow => grow_viewer(desk, id, source),
    }
}

/// The files of the list after the word go. Refused where there is no list, and where a name of it is no file's or
/// stands there twice.
fn delete_named_files<S: CharSource>(desk: &mut Desk, call: Call, source: &mut S) -> StepResult
    requires { IsCall (S.characters source.old) (kept_desktop desk.old) call }
    ensures { Does S.CharSource (λ d. given (names_of d call) (files_deleted d)) result
        source.old source.new (kept_desktop desk.old) (kept_desktop desk.new) }
{
    match names_of(desk, call, source)? {
        Ok(names) => delete_files(desk, names.as_slice(), source),
        Err(code) => Ok(Reply::No(code)),
    }
}

// ---- what stands after the word

/// The viewer that is seen at the marker. None where there is none.
fn at_marker(desk: &Desk) -> Option<u16>
    requires { IsKeptWhole (kept_desktop desk.now) }
    ensures viewer { result ≡ seen_at_marker (kept_desktop desk.now) }
    ensures placed { IfSome result (λ v. IsOnTop v (kept_desktop desk.now).columns) }
{
    let (x, y) = desk.marker?;
    let viewer = desk.tracks.at(x, y)?;
    Some(viewer.0)
}

/// The viewer in whose menu the word stands, or else the one at the marker. None where there is none.
pub fn meant(desk: &Desk, call: Call) -> Option<u16>
    requires whole { IsKeptWhole (kept_desktop desk.now) }
    requires placed { IsOnTop call.viewer (kept_desktop desk.now).columns }
    ensures viewer { result ≡ target_viewer (kept_desktop desk.now) call }
    ensures placed { IfSome result (λ v. IsOnTop v (kept_desktop desk.now).columns) }
{
    if call.in_menu {
        Some(call.viewer)
    } else {
        at_marker(desk)
    }
}

/// The text of the newest selection, and where that begins. None without a selection.
fn selection_place(desk: &Desk) -> Option<(&Text, u32)>
    requires { IsKeptWhole (kept_desktop desk.now) }
    ensures { option_map place_lent result ≡ kept_place (kept_desktop desk.now) }
{
    let selection = desk.newest()?;
    let viewer = viewer_or_none(&desk.viewers, selection.viewer);
    Some((text_there(&desk.texts, viewer.main), selection.beg))
}

/// The menu at the marker. None where no viewer is there.
fn menu_at_marker(desk: &Desk) -> Option<&Text>
    requires { IsKeptWhole (kept_desktop desk.now) }
    ensures { option_map text_lent result ≡ kept_menu (kept_desktop desk.now) }
{
    let id = at_marker(desk)?;
    let viewer = viewer_or_none(&desk.viewers, id);
    Some(text_there(&desk.texts, viewer.menu))
}

/// What a call tells that reads what stands after a word: a value, or the code of a refusal.
type Told<T> = Result<Result<T, u8>, Fault>;

/// The value after the word. Fault: the source failed in this call.
fn value_of<S: CharSource>(desk: &Desk, call: Call, source: &mut S) -> Told<Symbol>
    requires { IsCall (S.characters source.old) (kept_desktop desk.now) call }
    ensures told { TellsValue S.CharSource result (λ d. value_of d call) source.old source.new
        (kept_desktop desk.now) }
    ensures kind { IfOk result (λ value. MatchResult value IsSymbolShaped (OneOf known_codes)) }
{
    let text = desk.text_called(call.viewer, call.in_menu);
    params(
        text,
        call.after,
        selection_place(desk),
        menu_at_marker(desk),
        source,
    )
}

/// The name that a value is. Refused where it is none.
#[tactic(auto, using(crate::proofs::CallLemmas::same_wanted))]
fn as_name(value: Result<Symbol, u8>) -> Result<Name, u8>
    requires { MatchResult value IsSymbolShaped (OneOf known_codes) }
    ensures { result ≡ as_name value }
{
    name_in(&value?).ok_or(codes::WRONG_SYMBOL)
}

/// The number that a value is. Refused where it is none.
#[tactic(auto, using(crate::proofs::CallLemmas::same_wanted))]
fn as_number(value: Result<Symbol, u8>) -> Result<i32, u8>
    ensures { result ≡ as_number value }
{
    number_in(&value?).ok_or(codes::WRONG_SYMBOL)
}

/// The first names of the list after the word, at most 257. Fault: the source failed in this call.
fn names_of<S: CharSource>(
    desk: &Desk,
    call: Call,
    source: &mut S,
) -> Told<ArrayVec<Name, MOST_NAMES>>
    requires { IsCall (S.characters source.old) (kept_desktop desk.now) call }
    ensures told { TellsAs S.CharSource listed_names result (λ d. first_names (names_of d call))
        source.old source.new (kept_desktop desk.now) }
    ensures codes { IfOk result (λ names. IfErr names (OneOf known_codes)) }
{
    let text = desk.text_called(call.viewer, call.in_menu);
    names(text, call.after, selection_place(desk), source)
}
