//! What a run of the program `desk` does: its arguments say what (`orders`), and it is done over a store (the crates
//! `cli_stores`, `cli_copies` and `cli_documents`). A person who sits down is served by `serve` of `terminal_sittings` (`sitting`).

use crate::orders::{Export, Import, Order, Sit, order_of};
use crate::sitting::{Service, sit_at, sit_at_pair, sit_in_memory};
use crate::usages::usage_of;
use cli_copies::{Stop, backup};
use cli_documents::{
    Putting, check, earlier, events_all, events_back, export_all, export_names, forget_past, list,
    list_json,
};
use cli_imports::{Manner, import, import_to_pair};
use cli_stores::{Trouble, picture};
use host_files::hold_streams;
use program_arguments::{Refusal, words};
use status_line::Saying;
use twin_files::{PairTrouble, check_pair};

/// Does what the arguments of the program ask for, and returns the status: 0 when done, 1 where a document is refused,
/// 2 for other arguments, 3 where the file holds no store or a damaged one, 4 where there is no file, the host refuses
/// it, or the disk, the input or the output failed, and 5 for want of memory.
pub fn run(rt: &HostRuntime) -> u8 {
    // No file takes the place of a standard stream that is closed.
    match hold_streams(rt) {
        Ok(_held) => begin(rt),
        Err(fault) => Trouble::Host(fault).say(rt, "/dev/null"),
    }
}

/// Does what the arguments ask for, where each standard stream has its place.
fn begin(rt: &HostRuntime) -> u8 {
    let words = match words(rt) {
        Ok(words) => words,
        Err(refusal) => return decline(rt, refusal),
    };
    match order_of(rt.alloc(), words.as_slice()) {
        Ok(order) => follow(rt, &order),
        Err(Refusal::Usage) => decline_order(rt, words.get(1)),
        Err(refusal) => decline(rt, refusal),
    }
}

/// Says how a command is used whose arguments weren't taken, and returns the status.
fn decline_order(rt: &HostRuntime, command: Option<&String>) -> u8 {
    let command = command.map_or("", |command| command.as_str());
    let _ = match usage_of(command) {
        Some(usage) => eprintln!(rt; "desk: the arguments aren't these: desk {usage}"),
        None => eprintln!(rt;
            "desk: there is no command {command:?}; desk --help says what there is"
        ),
    };
    2
}

/// Says why the arguments weren't taken, and returns the status.
fn decline(rt: &HostRuntime, refusal: Refusal) -> u8 {
    match refusal {
        Refusal::Memory => Trouble::Memory.say(rt, ""),
        Refusal::Usage => {
            let _ = eprintln!(rt; "desk: the arguments can't be read, which are words in UTF-8");
            2
        }
    }
}

/// Does what is ordered, and returns the status. What goes wrong is said.
fn follow(rt: &HostRuntime, order: &Order<'_>) -> u8 {
    match order {
        Order::Sit(order) => sit(rt, order),
        Order::Picture(path) => told(rt, path, picture(rt, path)),
        Order::Export(order) => done(rt, order.path, put_out(rt, order)),
        Order::Import(order) => take_in(rt, order),
        Order::List {
            path,
            json: false,
            at,
        } => done(rt, path, list(rt, path, *at)),
        Order::List {
            path,
            json: true,
            at,
        } => done(rt, path, list_json(rt, path, *at)),
        Order::Backup { path, copy, past } => done(rt, path, backup(rt, path, copy, *past)),
        Order::Check { path, twin: None } => done(rt, path, check(rt, path)),
        Order::Check {
            path,
            twin: Some(twin),
        } => check_both(rt, path, twin),
        Order::History { path, all: false } => done(rt, path, events_back(rt, path)),
        Order::History { path, all: true } => done(rt, path, events_all(rt, path)),
        Order::Forget(path) => done(rt, path, forget_past(rt, path)),
        Order::Earlier { path, count, copy } => done(rt, path, earlier(rt, path, *count, copy)),
    }
}

/// Serves a person at a terminal, and returns the status.
fn sit(rt: &HostRuntime, order: &Sit<'_>) -> u8 {
    let greeting = match order.path {
        None => Saying::InMemory,
        Some(_) => greeting(order.unproved),
    };
    let service = Service {
        window: order.window,
        greeting,
        questions: order.questions,
        past: order.past,
        made: false,
    };
    match (order.path, order.twin) {
        (None, _) => sit_in_memory(rt, service),
        (Some(path), None) => sit_at(rt, path, service),
        (Some(path), Some(twin)) => sit_at_pair(rt, path, twin, service),
    }
}

/// Puts documents out.
fn put_out(rt: &HostRuntime, order: &Export<'_>) -> Result<(), Stop> {
    let putting = Putting {
        replace: order.replace,
        is_joined: order.join,
        looks: order.looks,
        open: order.open,
        at: order.at,
    };
    match order.all {
        None => export_names(rt, order.path, order.names.as_slice(), putting),
        Some(folder) => export_all(rt, order.path, folder, putting),
    }
}

/// Takes documents in, and returns the status.
fn take_in(rt: &HostRuntime, order: &Import<'_>) -> u8 {
    let manner = Manner {
        replace: order.replace,
        dry_run: order.dry_run,
        ascii: order.ascii,
        rename: order.rename,
        fill: order.fill.map(usize::from),
        skip: order.skip,
        collect: order.collect,
    };
    let words = order.words.as_slice();
    match order.twin {
        None => done(rt, order.path, import(rt, order.path, words, manner)),
        Some(twin) => {
            let outcome = import_to_pair(rt, order.path, twin, words, manner);
            done_to_pair(rt, order.path, twin, outcome)
        }
    }
}

/// Tells how a store and its twin are, and returns the status.
fn check_both(rt: &HostRuntime, path: &str, twin: &str) -> u8 {
    match check_pair(rt, path, twin) {
        Ok(()) => done(rt, path, check(rt, path)),
        Err(trouble) => trouble.say(rt, path, twin),
    }
}

/// Says why an order over two files was not done, if it wasn't, and returns the status.
fn done_to_pair(
    rt: &HostRuntime,
    path: &str,
    twin: &str,
    outcome: Result<Result<(), Stop>, PairTrouble>,
) -> u8 {
    match outcome {
        Ok(outcome) => done(rt, path, outcome),
        Err(trouble) => trouble.say(rt, path, twin),
    }
}

/// Says why an order was not done, if it wasn't, and returns the status.
fn done(rt: &HostRuntime, path: &str, outcome: Result<(), Stop>) -> u8 {
    match outcome {
        Ok(()) => 0,
        Err(stop) => stop.say(rt, path),
    }
}

/// How a sitting over a store in a file begins.
fn greeting(unproved: bool) -> Saying {
    if unproved {
        Saying::Unproved
    } else {
        Saying::Greeting
    }
}

/// Says what went wrong, if anything did, and returns the status.
fn told(rt: &HostRuntime, path: &str, done: Result<(), Trouble>) -> u8 {
    match done {
        Ok(()) => 0,
        Err(trouble) => trouble.say(rt, path),
    }
}
