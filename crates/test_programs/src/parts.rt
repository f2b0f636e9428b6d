//! Rows of plain functions that no call shows.
use program_parts::help::help_text;
use seek_colors::kind::Kind;
use seek_colors::palette::Palette;
use std::alloc::{AllocError, Global};

/// A value of `LS_COLORS`, a folder and the name of a file, and what is printed.
type Colored = (&'static str, &'static str, &'static str, &'static str);

fn printed(alloc: Global, (colors, folder, name, _): Colored) -> Result<Vec<u8>, AllocError> {
    let palette = Palette::read(alloc, colors)?;
    let mut out = Vec::new(alloc);
    palette.write(Kind::File(0), folder, name, &mut out)?;
    Ok(out)
}

#[test]
fn colors_of_names_that_no_entry_has(rt: HostRuntime) -> Result<(), AllocError> {
    const ROWS: &[Colored] = &[
        ("*=35", "", "", "\x1b[35m\x1b[0m"),
        ("", "/", "f", "\x1b[01;34m/\x1b[0mf"),
        ("", "a", "/f", "/f"),
    ];
    for row in ROWS {
        assert_eq!(rt;
            printed(rt.alloc(), *row)?.as_slice(),
            row.3.as_bytes(),
            "{row:?}"
        );
    }
    Ok(())
}

/// A text of help, a width, and the text that is printed.
type Row<'a> = (&'a str, Option<usize>, &'a str);

#[test]
fn dots_and_widths_of_help(rt: HostRuntime) {
    const OPTION: &str = "  -a, --all  One two three\n";
    const ROWS: &[Row<'_>] = &[
        ("", Some(0), ""),
        ("  -a...  All\n", None, "  -a     All\n"),
        ("  [A]...  All ..\n", None, "  [A]...  All ..\n"),
        (OPTION, None, OPTION),
        (OPTION, Some(26), OPTION),
        (
            OPTION,
            Some(25),
            "  -a, --all  One two\n             three\n",
        ),
        (
            OPTION,
            Some(5),
            "  -a, --all  One\n             two\n             three\n",
        ),
        (
            "Usage: a [B]\n\n  -b...  c d\n",
            Some(10),
            "Usage: a\n[B]\n\n  -b     c\n         d\n",
        ),
    ];
    for (text, width, printed) in ROWS {
        let shown = help_text(rt.alloc(), *width, text);
        assert!(rt;
            shown.is_ok_and(|it| it.as_slice() == printed.as_bytes()),
            "{text}"
        );
    }
}
