//! Names of host files as a person types them: a tilde in front stands for the home folder.
ghost use Rattle.std.specs.Prelude.{◌≡◌, ◌++◌, IfOk, option_map, string_bytes};
ghost use Rattle.terminal_keyboard.specs.Homes.{behind_home, path_meant, rest_behind};

use std::alloc::{AllocError, Global};

/// The home folder as bytes.
pub(crate) fn folder_of(home: &Option<String>) -> Option<&[u8]>
    ensures { option_map (λ folder. folder.now) result ≡ option_map string_bytes home.now }
{
    match home {
        None => None,
        Some(folder) => Some(folder.as_bytes()),
    }
}

/// What stands behind a tilde: nothing, or a slash and what follows.
fn rest_behind(rest: &[u8]) -> Option<&[u8]>
    ensures { option_map (λ rest. rest.now) result ≡ rest_behind rest.now }
{
    match rest.first() {
        None => Some(rest),
        Some(byte) if *byte == b'/' => Some(rest),
        Some(_) => None,
    }
}

/// What stands behind the tilde of a name that is in the home folder, or is that folder. None of another name.
pub(crate) fn behind_home(name: &[u8]) -> Option<&[u8]>
    ensures { option_map (λ rest. rest.now) result ≡ behind_home name.now }
{
    match name.split_first() {
        Some((byte, rest)) if *byte == b'~' => rest_behind(rest),
        _ => None,
    }
}

/// The path that is meant by a name, where this is the home folder. Without one the name is taken as it is.
///
/// Error: an allocation was refused.
pub(crate) fn path_meant(
    alloc: Global,
    home: Option<&[u8]>,
    name: &[u8],
) -> Result<Vec<u8>, AllocError>
    ensures { IfOk result (λ path. path.items
        ≡ path_meant (option_map (λ folder. folder.now) home.entry) name.now) }
{
    match (home, behind_home(name)) {
        (Some(folder), Some(rest)) => joined(alloc, folder, rest),
        _ => Vec::from_slice(alloc, name),
    }
}

/// Bytes and those behind them.
///
/// Error: an allocation was refused.
fn joined(alloc: Global, folder: &[u8], rest: &[u8]) -> Result<Vec<u8>, AllocError>
    ensures { IfOk result (λ path. path.items ≡ folder.now ++ rest.now) }
{
    let mut path = Vec::from_slice(alloc, folder)?;
    path.extend_from_slice(rest)?;
    Ok(path)
}
