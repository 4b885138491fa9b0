// A worked figure as a line. `planner_page_list_cases` says `ok` and `bad` too: a library of both programs' would be longer than the `if`.
use std::io;
use std::io::Write;

pub(crate) fn say<W: Write>(out: &mut W, figure: &str, ok: bool) -> io::Result<()> {
    let found = if ok { "ok" } else { "bad" };
    writeln!(out, "{figure} {found}")
}
