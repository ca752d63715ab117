//! Files that can't come are left out, and the others come.

use crate::fitting::refuse_unfit;
use crate::sources::{Refused, Sources};
use cli_copies::Stop;
use cli_documents::word_of;

/// The files that can come: it is said of each other one why it can't, and how many there are. Where none can come,
/// nothing is done.
pub(crate) fn without_unfits(
    rt: &HostRuntime,
    sources: Sources,
    fill: Option<usize>,
) -> Result<Sources, Stop> {
    let mut refused = sources.refused;
    let come = those_that_come(rt, &sources, fill, &mut refused)?;
    if come.is_empty() {
        refused.stop(rt)?;
    }
    refused.leave_out(rt);
    picked(rt, sources, come.as_slice())
}

/// The indices of the files that can come.
fn those_that_come(
    rt: &HostRuntime,
    sources: &Sources,
    fill: Option<usize>,
    refused: &mut Refused,
) -> Result<Vec<usize>, Stop> {
    let mut come = Vec::new(rt.alloc());
    for index in 0..sources.handed.len() {
        let before = refused.count;
        refuse_unfit(rt, sources, fill, index, refused)?;
        if refused.count == before {
            add_unless_named(rt, sources, index, refused, &mut come)?;
        }
    }
    Ok(come)
}

/// Adds the index of a file, unless another one that comes is to be the document of its name.
fn add_unless_named(
    rt: &HostRuntime,
    sources: &Sources,
    index: usize,
    refused: &mut Refused,
    come: &mut Vec<usize>,
) -> Result<(), Stop> {
    match named_so(sources, come.as_slice(), index) {
        Some(first) => refused.add(say_second(rt, sources, first, index)),
        None => Ok(come.push(index)?),
    }
}

/// Which of these files is to be the document of the same name as the file at an index.
fn named_so(sources: &Sources, come: &[usize], index: usize) -> Option<usize> {
    let name = sources.handed.get(index)?.name();
    come.iter().copied().find(|at| sources
        .handed
        .get(*at)
        .is_some_and(|handed| *handed.name() == *name))
}

/// Says which file is left out, since another one is to be its document.
fn say_second(rt: &HostRuntime, sources: &Sources, first: usize, index: usize) -> Stop {
    if let (Some(one), Some(second), Some(handed)) = (
        sources.files.get(first),
        sources.files.get(index),
        sources.handed.get(index),
    ) {
        let one = one.as_str();
        let second = second.as_str();
        let name = word_of(handed.name());
        let _ = eprintln!(rt; "desk: {second:?} would be the document {name}, too, as {one:?}");
    }
    Stop::Refused
}

/// The files at these rising indices. None of them is refused.
fn picked(rt: &HostRuntime, sources: Sources, come: &[usize]) -> Result<Sources, Stop> {
    let Sources {
        files,
        handed,
        notes,
        refused: _,
    } = sources;
    Ok(Sources {
        files: those_at(rt, files, come)?,
        handed: those_at(rt, handed, come)?,
        notes: those_at(rt, notes, come)?,
        refused: Refused::none(),
    })
}

/// The things at these rising indices.
fn those_at<T: Drop>(rt: &HostRuntime, all: Vec<T>, come: &[usize]) -> Result<Vec<T>, Stop> {
    let mut taken = Vec::new(rt.alloc());
    for (index, one) in all.into_iter().enumerate() {
        if come.binary_search(&index).is_ok() {
            taken.push(one)?;
        }
    }
    Ok(taken)
}
