//! Words, trees and failures, text by text.
use program_parts::errors::{Errors, Told};
use std::alloc::Global;
use std::io;
use std::io::{ErrorKind, Read};
use test_fixtures::texts::texts;
use walk_text::asked::Asked;
use walk_text::failure::Failure;
use walk_text::input::read_tree;
use walk_text::read_by::ReadBy;
use walk_text::tree::build_tree;
use walk_text::words::parse_words;

fn are_bad(alloc: Global, words: &[&str]) -> bool {
    match texts(alloc, &[], words) {
        Ok(words) => parse_words(words.as_slice()).is_none(),
        Err(_) => false,
    }
}

#[test]
fn other_words_are_bad(rt: HostRuntime) {
    const ROWS: &[&[&str]] = &[
        &[],
        &["--sort", "--sort", "/r"],
        &["--tree", "--tree", "/r"],
        &["--tree", "--sort", "--hidden", "--sort", "/r"],
        &["--min", "1", "--min", "2", "/r"],
        &["--tree", "--max", "1", "--sort", "--max", "1", "/r"],
        &["--min", "x", "/r"],
        &["--tree", "--min", "x", "/r"],
        &["--min", "3"],
        &["--tree", "--min", "3"],
        &["--min", "--tree"],
        &["--max", "--sort", "/r"],
        &["/r", "/r"],
        &["--tree", "", "/r"],
        &["/r", "--sort", "/r"],
        &["--tree", "/r", "--sort", "/r"],
        &["--sorted", "/r"],
        &["--follow", "--follow", "/r"],
        &["--batch", "1", "--batch", "2", "/r"],
        &["--batch", "2"],
        &["--batch", "x", "/r"],
        &["--batch", "--sort", "/r"],
        &["--crew", "2"],
        &["--crew", "x", "/r"],
        &["--crew", "--batch", "/r"],
        &["--crew", "2", "--crew", "2", "/r"],
        &["--batch", "2", "--crew", "2", "/r"],
        &["--crew", "2", "--batch", "2", "/r"],
        &["--tree", "--usages", "/r"],
        &["--usage", "--usage", "/r"],
        &["--usage", "3", "/r"],
    ];
    for words in ROWS {
        assert!(rt; are_bad(rt.alloc(), words), "{:?}", words);
    }
}

fn are_same(asked: &Asked, wanted: &Asked) -> bool {
    asked.tree == wanted.tree
        && asked.sort == wanted.sort
        && asked.hidden == wanted.hidden
        && asked.usage == wanted.usage
        && asked.follow == wanted.follow
        && asked.min == wanted.min
        && asked.max == wanted.max
        && asked.read_by == wanted.read_by
}

// The root must be the last word.
fn ask_for(alloc: Global, words: &[&str], wanted: &Asked) -> bool {
    let Ok(words) = texts(alloc, &[], words) else {
        return false;
    };
    let Some(root) = words.last() else {
        return false;
    };
    match parse_words(words.as_slice()) {
        Some(request) => request.root == root.as_str() && are_same(&request.asked, wanted),
        None => false,
    }
}

// The number follows the names of options.
fn is_read_as(alloc: Global, number: &str, value: Option<usize>) -> bool {
    let Some(value) = value else {
        return are_bad(alloc, &["--min", number, "--tree", "/t"])
            && are_bad(alloc, &["--max", number, "--tree", "/t"])
            && are_bad(alloc, &["--batch", number, "--tree", "/t"])
            && are_bad(alloc, &["--crew", number, "--tree", "/t"]);
    };
    let batch = Asked {
        max: Some(value),
        read_by: Some(ReadBy::Batch(value)),
        ..Asked::nothing()
    };
    let crew = Asked {
        read_by: Some(ReadBy::Crew(value)),
        ..batch
    };
    ask_for(alloc, &["--max", number, "--batch", number, "/t"], &batch)
        && ask_for(alloc, &["--max", number, "--crew", number, "/t"], &crew)
}

#[test]
fn numbers_have_up_to_20_digits_and_fit(rt: HostRuntime) {
    const ROWS: &[(&str, Option<usize>)] = &[
        ("", None),
        ("+1", None),
        ("-1", None),
        (" 1", None),
        ("1.0", None),
        ("1x", None),
        ("000000000000000000001", None),
        ("18446744073709551616", None),
        ("99999999999999999999", None),
        ("0", Some(0)),
        ("00000000000000000000", Some(0)),
        ("00000000000000000002", Some(2)),
        ("18446744073709551615", Some(usize::MAX)),
    ];
    for (number, value) in ROWS {
        assert!(rt; is_read_as(rt.alloc(), number, *value), "{:?}", number);
    }
}

const ORDERED: Asked = Asked {
    tree: true,
    sort: true,
    hidden: false,
    follow: true,
    usage: false,
    min: Some(1),
    max: Some(2),
    read_by: Some(ReadBy::Batch(3)),
};

const BY_CREW: Asked = Asked {
    tree: false,
    sort: true,
    hidden: false,
    follow: false,
    usage: false,
    min: None,
    max: Some(2),
    read_by: Some(ReadBy::Crew(3)),
};

const HIDDEN: Asked = Asked {
    tree: false,
    sort: false,
    hidden: true,
    follow: false,
    usage: false,
    min: None,
    max: None,
    read_by: None,
};

const COUNTED: Asked = Asked {
    tree: true,
    sort: false,
    hidden: false,
    follow: false,
    usage: true,
    min: None,
    max: None,
    read_by: None,
};

// A crew and totals are asked for in any place.
#[test]
fn options_come_in_any_order_and_the_root_last(rt: HostRuntime) {
    const ROWS: &[(&Asked, &[&str])] = &[
        (&COUNTED, &["--tree", "--usage", "/r"]),
        (&COUNTED, &["--usage", "--tree", "/r"]),
        (&COUNTED, &["--tree", "--usage", "--usage"]),
        (&BY_CREW, &["--crew", "3", "--sort", "--max", "2", "/r"]),
        (&BY_CREW, &["--sort", "--crew", "03", "--max", "2", "/r"]),
        (&BY_CREW, &["--max", "2", "--sort", "--crew", "3", "/r"]),
        (
            &ORDERED,
            &[
                "--tree", "--sort", "--follow", "--max", "2", "--min", "1", "--batch", "3", "/r",
            ],
        ),
        (
            &ORDERED,
            &[
                "--batch", "3", "--follow", "--sort", "--tree", "--min", "1", "--max", "2", "/r",
            ],
        ),
        (
            &ORDERED,
            &[
                "--min", "01", "--max", "2", "--sort", "--batch", "03", "--follow", "--tree", "/r",
            ],
        ),
        (
            &ORDERED,
            &[
                "--max", "2", "--batch", "3", "--tree", "--min", "1", "--follow", "--sort", "/r",
            ],
        ),
        (&HIDDEN, &["--hidden", "--tree"]),
        (&HIDDEN, &["--hidden", "--hidden"]),
        (&HIDDEN, &["--hidden", "--min"]),
        (&HIDDEN, &["--hidden", "--batch"]),
        (&HIDDEN, &["--hidden", "--crew"]),
        (&HIDDEN, &["--hidden", "3"]),
    ];
    for (wanted, words) in ROWS {
        assert!(rt; ask_for(rt.alloc(), words, wanted), "{:?}", words);
    }
}

#[test]
fn the_first_bad_line_is_named(rt: HostRuntime) {
    const ROWS: &[(&[u8], usize)] = &[
        (b"d", 1),
        (b"d ", 1),
        (b"f", 1),
        (b"f 1", 1),
        (b"f 1 ", 1),
        (b"f  /r", 1),
        (b"f x /r", 1),
        (b"f +1 /r", 1),
        (b"f -1 /r", 1),
        (b"f 1.0 /r", 1),
        (b"f 18446744073709551616 /r", 1),
        (b"f 000000000000000000001 /r", 1),
        (b"l x", 1),
        (b"l x\t", 1),
        (b"lx\t/p", 1),
        (b"l x\t/", 1),
        (b"x /r", 1),
        (b"x", 1),
        (b"x ", 1),
        (b"x/r", 1),
        (b"x /", 1),
        (b"D /r", 1),
        (b" d /r", 1),
        (b"d/r", 1),
        (b"q", 1),
        (b"d /\xff", 1),
        (b"d /n/m\nd /r", 1),
        (b"d /", 1),
        (b"d /r\nd /r\n", 2),
        (b"d /r\n\nf 1\n", 3),
        (b"d /r\nf 1 /r/a\nf 1 /r/a/b", 3),
        (b"d /r\nf 1 /r/a\nx /r/a", 3),
        (b"d /r\n\nx /n\nx /r\n", 3),
        (b"d /r\nx /r\nd /r\nx /n", 3),
    ];
    for (lines, number) in ROWS {
        let failure = build_tree(rt.alloc(), lines).err();
        assert_eq!(rt; failure, Some(Failure::BadTree(*number)), "{:?}", lines);
    }
}

/// A reader that fails at each call, with an error of this kind.
#[derive(Drop)]
struct Broken(ErrorKind);

impl Read for Broken {
    fn read(&mut self, _buf: &mut [u8]) -> io::Result<usize> {
        Err(io::Error::from(self.0))
    }
}

#[test]
fn an_input_is_read_whole_or_told(rt: HostRuntime) {
    let mut good = "d /r\n\nl \t/r/l\nf 18446744073709551615 /r/a b".as_bytes();
    let failures = [
        read_tree(rt.alloc(), &mut good).err(),
        read_tree(rt.alloc(), &mut Broken(ErrorKind::Other)).err(),
        read_tree(rt.alloc(), &mut Broken(ErrorKind::OutOfMemory)).err(),
    ];
    assert!(rt; failures == [None, Some(Failure::BadTree(0)), Some(Failure::Memory)]);
}

#[test]
fn each_failure_has_its_text_and_status(rt: HostRuntime) {
    const ROWS: &[(Failure, &str, u8, Told)] = &[
        (Failure::BadWords, "walk: bad words\n", 2, Told::Line),
        (
            Failure::BadTree(3),
            "walk: bad tree, line 3\n",
            2,
            Told::Line,
        ),
        (Failure::TooMany, "walk: too many\n", 1, Told::Line),
        (Failure::Memory, "walk: memory refused\n", 1, Told::Line),
        (Failure::Output, "", 1, Told::Output),
    ];
    for (failure, text, status, told) in ROWS {
        let mut err = Vec::new(rt.alloc());
        let mut errors = Errors::new(&mut err);
        assert_eq!(rt; failure.report(&mut errors), *status, "{:?}", text);
        assert_eq!(rt; errors.told(), Some(*told), "{:?}", text);
        assert!(rt; err.as_slice() == text.as_bytes(), "{:?}", text);
    }
}
