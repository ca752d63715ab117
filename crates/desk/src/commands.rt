//! The commands of the program, and what belongs to each.

use program_arguments::{Argument, CommandShape, Kind};

/// The path of a store.
const PATH: Argument<'static> = Argument {
    name: "path",
    kind: Kind::Wanted,
};

/// A moment of its past, as many events ago.
const AT: Argument<'static> = Argument {
    name: "at",
    kind: Kind::Named,
};

/// The path of its twin.
const TWIN: Argument<'static> = Argument {
    name: "twin",
    kind: Kind::Named,
};

/// Those of a command that takes the path of a store alone.
const STORE: &[Argument<'static>] = &[PATH];

/// Those of `sit`.
const SIT: &[Argument<'static>] = &[
    Argument {
        name: "unproved",
        kind: Kind::Choice,
    },
    Argument {
        name: "no-questions",
        kind: Kind::Choice,
    },
    Argument {
        name: "no-fill",
        kind: Kind::Choice,
    },
    Argument {
        name: "past",
        kind: Kind::Choice,
    },
    Argument {
        name: "columns",
        kind: Kind::Named,
    },
    TWIN,
    Argument {
        name: "rows",
        kind: Kind::Wanted,
    },
    Argument {
        name: "path",
        kind: Kind::Optional,
    },
];

/// Those of `history`.
const HISTORY: &[Argument<'static>] = &[
    PATH,
    Argument {
        name: "all",
        kind: Kind::Choice,
    },
];

/// Those of `check`.
const CHECK: &[Argument<'static>] = &[PATH, TWIN];

/// Those of `list`.
const LIST: &[Argument<'static>] = &[
    PATH,
    AT,
    Argument {
        name: "json",
        kind: Kind::Choice,
    },
];

/// Those of `backup`.
const BACKUP: &[Argument<'static>] = &[
    Argument {
        name: "without-past",
        kind: Kind::Choice,
    },
    PATH,
    Argument {
        name: "copy",
        kind: Kind::Wanted,
    },
];

/// Those of `earlier`.
const EARLIER: &[Argument<'static>] = &[
    PATH,
    Argument {
        name: "count",
        kind: Kind::Wanted,
    },
    Argument {
        name: "copy",
        kind: Kind::Wanted,
    },
];

/// Those of `export`, the way out.
const EXPORT: &[Argument<'static>] = &[
    PATH,
    AT,
    Argument {
        name: "names",
        kind: Kind::Several,
    },
    Argument {
        name: "all",
        kind: Kind::Named,
    },
    Argument {
        name: "join",
        kind: Kind::Choice,
    },
    Argument {
        name: "open",
        kind: Kind::Choice,
    },
    Argument {
        name: "looks",
        kind: Kind::Choice,
    },
    Argument {
        name: "replace",
        kind: Kind::Choice,
    },
];

/// Those of `import`, the way in.
const IMPORT: &[Argument<'static>] = &[
    PATH,
    Argument {
        name: "files",
        kind: Kind::SeveralWanted,
    },
    Argument {
        name: "replace",
        kind: Kind::Choice,
    },
    Argument {
        name: "dry-run",
        kind: Kind::Choice,
    },
    Argument {
        name: "ascii",
        kind: Kind::Choice,
    },
    Argument {
        name: "rename",
        kind: Kind::Choice,
    },
    Argument {
        name: "skip",
        kind: Kind::Choice,
    },
    Argument {
        name: "collect",
        kind: Kind::Choice,
    },
    Argument {
        name: "fill",
        kind: Kind::Named,
    },
    TWIN,
];

/// The commands.
pub(crate) const COMMANDS: &[CommandShape<'static>] = &[
    CommandShape {
        name: "sit",
        arguments: SIT,
    },
    CommandShape {
        name: "picture",
        arguments: STORE,
    },
    CommandShape {
        name: "check",
        arguments: CHECK,
    },
    CommandShape {
        name: "list",
        arguments: LIST,
    },
    CommandShape {
        name: "backup",
        arguments: BACKUP,
    },
    CommandShape {
        name: "history",
        arguments: HISTORY,
    },
    CommandShape {
        name: "earlier",
        arguments: EARLIER,
    },
    CommandShape {
        name: "forget",
        arguments: STORE,
    },
    CommandShape {
        name: "export",
        arguments: EXPORT,
    },
    CommandShape {
        name: "import",
        arguments: IMPORT,
    },
];
