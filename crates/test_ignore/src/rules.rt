//! The rules of files, and the pattern of a line, on names that `seek` refuses and on long lines.
use jwalk_ignore::decision::Decision;
use jwalk_ignore::pattern::Pattern;
use jwalk_ignore::rules::Rules;
use std::alloc::Global;

/// An ignore file, the path of a file, and git's decision.
type Row = (&'static [u8], &'static [u8], Decision);

/// Names that are no UTF-8, with the decisions of git 2.39.
const ROWS: &[Row] = &[
    (b"caf?\n", b"caf\xe9", Decision::Ignored),
    (b"caf\xe9\n", b"caf\xe9", Decision::Ignored),
    (b"*\xe9\n", b"x/caf\xe9", Decision::Ignored),
    (b"[\xe0-\xff]\n", b"\xe9", Decision::Ignored),
    (b"[\xe0-\xff]\n", b"\xc3", Decision::Unsaid),
    (b"[!a]\n", b"\xe9", Decision::Ignored),
    (b"[[:alpha:]]\n", b"\xe9", Decision::Unsaid),
];

fn decided(alloc: Global, file: &[u8], path: &[u8]) -> Option<Decision> {
    match Rules::parse(alloc, file) {
        Ok(rules) => Some(rules.decision(path, false)),
        Err(_) => None,
    }
}

#[test]
fn files_say_what_git_says(rt: HostRuntime) {
    for (file, path, wanted) in ROWS {
        assert_eq!(rt;
            decided(rt.alloc(), file, path),
            Some(*wanted),
            "{file:?} {path:?}"
        );
    }
}

/// Returns `None` if the line has no pattern, or one that doesn't match.
fn said(alloc: Global, text: &[u8], path: &[u8]) -> Option<Decision> {
    match Pattern::read(alloc, text) {
        Ok(Some(pattern)) if pattern.matches(path, true) => Some(pattern.decision()),
        _ => None,
    }
}

#[test]
fn one_line_has_a_pattern(rt: HostRuntime) {
    let rows: [(&[u8], &[u8], Option<Decision>); 5] = [
        (b"doc/*/", b"doc/a", Some(Decision::Ignored)),
        (b"!*.o", b"a/b.o", Some(Decision::Kept)),
        (b"/a", b"b/a", None),
        (b"#a", b"#a", None),
        (b"[a", b"[a", None),
    ];
    for (text, path, wanted) in &rows {
        assert_eq!(rt; said(rt.alloc(), text, path), *wanted, "{text:?}");
    }
}

fn repeated(alloc: Global, piece: &[u8], times: usize, end: &[u8]) -> Option<Vec<u8>> {
    let mut text = Vec::new(alloc);
    for _ in 0..times {
        text.extend_from_slice(piece).ok()?;
    }
    text.extend_from_slice(end).ok()?;
    Some(text)
}

/// Returns what is said of a long path by a line that repeats a piece before it ends.
fn said_of_long(alloc: Global, piece: &[u8], times: usize, end: &[u8]) -> Option<Decision> {
    let line = repeated(alloc, piece, times, end)?;
    let path = repeated(
        alloc,
        b"a/",
        300,
        b"aaaaaaaaaaaaaaaaaaaaaaaaaaaaaaaaaaaaaaac",
    )?;
    decided(alloc, &line, &path)
}

#[test]
fn many_stars_are_tried_once(rt: HostRuntime) {
    let rows: [(&[u8], usize, &[u8]); 3] = [
        (b"a*", 120, b"*c"),
        (b"**/", 1000, b"b"),
        (b"**/a/", 1000, b"*c"),
    ];
    for (piece, times, end) in &rows {
        let said = said_of_long(rt.alloc(), piece, *times, end);
        assert_eq!(rt; said, Some(Decision::Unsaid), "{piece:?}");
    }
}
