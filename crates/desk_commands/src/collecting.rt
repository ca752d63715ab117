//! The command that gives up the characters that no text has any more.
ghost use Rattle.std.specs.Prelude.{IfOk, Ok};
ghost use Rattle.desktop_definitions.specs.Effects.{after_collect};
ghost use Rattle.desktop_definitions.specs.Rewriting.{IsRewritten};
ghost use Rattle.desk_core.specs.Words.{FailsAs, OnlyReads, IsOver, kept_desktop, IsStop, Does};

use crate::rewriting::{pieces_in, put_pieces, put_table};
use char_file::CharSource;
use desk_core::desk::Desk;
use desk_core::files::Files;
use desk_core::stop::{StepResult, Stop};
use desktop_definitions::Reply;
use std::collections::BTreeMap;
use std::vec::Vec;
use text_core::{Buffer, Text};

/// All texts, files and buffers of a desktop, written anew, and the characters that they name.
#[derive(Drop)]
struct WrittenAnew {
    texts: BTreeMap<u16, Text>,
    files: Files,
    copied: Buffer,
    deleted: Buffer,
    made: Vec<u8>,
}

/// All texts, files and buffers written anew; the desktop stays. NoMemory where an allocation is refused, Fault where a
/// character could not be read.
fn rewritten<S: CharSource>(desk: &Desk, source: &mut S) -> Result<WrittenAnew, Stop>
    requires { IsOver (S.characters source.old) (kept_desktop desk.now) }
    ensures rewritten { IfOk result
        (λ new. IsRewritten (S.honest source.old) (S.characters source.old)
        (kept_desktop desk.now) new.made.items new.texts.entries new.files.entries new.copied
        new.deleted) }
    ensures reads { OnlyReads S.characters S.failures S.honest S.same_ground source.old source.new }
    ensures faults { FailsAs Stop.Fault IsStop result (S.failures source.old)
        (S.failures source.new) }
{
    let mut made = Vec::new(desk.alloc);
    let texts = put_table(desk.alloc, &desk.texts, &mut made, source)?;
    let files = put_table(desk.alloc, &desk.files, &mut made, source)?;
    let copied = put_pieces(desk.alloc, pieces_in(&desk.copied), &mut made, source)?;
    let deleted = put_pieces(desk.alloc, pieces_in(&desk.deleted), &mut made, source)?;
    Ok(WrittenAnew {
        texts,
        files,
        copied,
        deleted,
        made,
    })
}

/// The characters are given up that no text, file or buffer has: all others are written anew, and are the only ones
/// that count as written. It is never refused. NoMemory where an allocation is refused, Fault where a character could
/// not be read.
pub fn collect<S: CharSource>(desk: &mut Desk, source: &mut S) -> StepResult
    requires { IsOver (S.characters source.old) (kept_desktop desk.old) }
    ensures { Does S.CharSource (λ d. Ok (after_collect d)) result
        source.old source.new (kept_desktop desk.old) (kept_desktop desk.new) }
{
    let WrittenAnew {
        texts,
        files,
        copied,
        deleted,
        made,
    } = rewritten(desk, source)?;
    desk.written = made.len() as u32;
    desk.texts = texts;
    desk.files = files;
    desk.copied = copied;
    desk.deleted = deleted;
    source.renew(made);
    Ok(Reply::Done)
}
