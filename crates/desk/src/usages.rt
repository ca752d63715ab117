//! How the commands are used, as their words stand.

/// What stands behind `desk` where a command is used. None where there is no such command.
pub(crate) fn usage_of(command: &str) -> Option<&'static str> {
    match command {
        "sit" => Some(
            "sit [--unproved] [--no-questions] [--no-fill] [--past] [--columns N] [--twin PATH2] ROWS [PATH]",
        ),
        "picture" => Some("picture PATH"),
        "check" => Some("check PATH [--twin PATH2]"),
        "list" => Some("list PATH [--at K] [--json]"),
        "backup" => Some("backup [--without-past] PATH COPY"),
        "history" => Some("history PATH [--all]"),
        "forget" => Some("forget PATH"),
        "earlier" => Some("earlier PATH K COPY"),
        "export" => Some(
            "export PATH NAME.. [--at K] [--join] [--open], or export PATH NAME --looks [--at K] [--open], or export PATH --all FOLDER [--at K] [--looks] [--join] [--replace] [--open]",
        ),
        "import" => Some(
            "import PATH FILE.. [--replace] [--dry-run] [--ascii] [--rename] [--skip] [--fill N] [--collect] [--twin PATH2]",
        ),
        _ => None,
    }
}
