//! Looks for a crash that a store doesn't survive (`search`). The argument is how many images at least
//! are tried, or `bring`.
//!
//! It prints how many images were tried, at how many calls opening them was stopped, and `all right`; or the first that
//! is wrong, with the seed of its round. With `bring` it prints how many images have none of the documents that were
//! brought, all of them, and anything else.
#![tactic(auto)]

mod bringing;
mod call;
mod crossings;
mod fillings;
mod images;
mod random;
mod reopening;
mod rounds;
mod search;
mod stores;
mod trial;

use crate::bringing::stopped_bringing;
use crate::rounds::searched;
use crate::search::Search;
use std::{env, io};

/// Tells what was found.
fn tell(rt: &HostRuntime, search: &Search) -> io::Result<()> {
    match &search.wrong {
        None => println!(rt;
            "{} images, {} second stops, all right",
            search.images, search.second_stops
        ),
        Some(wrong) => {
            println!(rt;
                "wrong after {} images: seed {}, {}",
                search.images, wrong.seed, wrong.trial
            )?;
            println!(rt; "stopped at call {}, with the fillings", wrong.stop)?;
            for (n, filling) in wrong.fillings.iter() {
                println!(rt; "sector {n} {filling}")?;
            }
            Ok(())
        }
    }
}

/// Stops documents that are brought, and tells what was found.
fn tell_bringing(rt: &HostRuntime) -> io::Result<()> {
    match stopped_bringing(rt.alloc(), 1) {
        Ok(brought) => println!(rt;
            "{} stops, {} second stops: {} images of none, {} of all, {} wrong",
            brought.stops, brought.second_stops, brought.none, brought.all, brought.wrong
        ),
        Err(error) => println!(rt; "{error}"),
    }
}

fn main(rt: HostRuntime) -> io::Result<()> {
    let mut words = env::args(&rt)?;
    words.next();
    let word = words.next();
    if let Some(word) = &word
        && word.as_str() == "bring"
    {
        return tell_bringing(&rt);
    }
    let wanted = match word {
        Some(word) => word.parse().ok(),
        None => None,
    };
    let Some(wanted) = wanted else {
        println!(rt; "usage: crash_search IMAGES")?;
        return Ok(());
    };
    let done = searched(rt.alloc(), wanted);
    match done {
        Ok(search) => tell(&rt, &search),
        Err(_) => println!(rt; "out of memory"),
    }
}
