//! Walks with rules that rows of `seek` can't show, or that are read in other ways there.
use crate::planted::{ROW, Row, SCENE, Scene, Yields};
use jwalk::file_system::FileType;

/// Which files of rules count, and which of them decides.
pub(crate) const FORCE: &[Scene] = &[
    Scene {
        tree: &[
            ".git/",
            ".git/info/exclude=a\nc\nd\n",
            ".gitignore=!a\nb\n!d\n",
            ".ignore=!b\nd\n",
            "a",
            "b",
            "c",
            "d",
        ],
        rows: &[
            // The kinds decide in order.
            Row {
                yields: Yields::Items(".gitignore\n.ignore\na\nb\n"),
                ..ROW
            },
        ],
        ..SCENE
    },
    Scene {
        tree: &[
            ".git/",
            ".git/info/exclude=c\n",
            ".gitignore=a\n",
            ".ignore=b\n",
            "s/",
            "s/.git/",
            "s/a",
            "s/b",
            "s/c",
            "s/t/",
            "s/t/a",
        ],
        rows: &[
            // A nested repository ends the outer rules.
            Row {
                yields: Yields::Items(".gitignore\n.ignore\ns\ns/a\ns/c\ns/t\ns/t/a\n"),
                ..ROW
            },
        ],
        ..SCENE
    },
    Scene {
        tree: &[".git/info/exclude=a\n", ".git", ".gitignore=b\n", "a", "b"],
        rows: &[
            // Git as a file, where the texts have an exclude all the same.
            Row {
                yields: Yields::Items(".gitignore\n"),
                ..ROW
            },
        ],
        ..SCENE
    },
    Scene {
        tree: &[".gitignore=a\n", ".ignore=b\n", "a", "b"],
        rows: &[
            // Outside repositories, and without version control.
            Row {
                yields: Yields::Items(".gitignore\n.ignore\na\n"),
                ..ROW
            },
            Row {
                settings: "anywhere",
                yields: Yields::Items(".gitignore\n.ignore\n"),
                ..ROW
            },
            Row {
                settings: "no-git anywhere",
                yields: Yields::Items(".gitignore\n.ignore\na\n"),
                ..ROW
            },
        ],
        ..SCENE
    },
    Scene {
        tree: &[
            ".git/",
            ".gitignore=a\ns/\ns/b\n",
            ".ignore=c\n",
            "s/",
            "s/a",
            "s/b",
            "s/c",
            "s/t/",
            "s/t/b",
        ],
        rules: &[("/r/.git", "")],
        rows: &[
            // Rules above the root are in force, which may be a file, or a relative path.
            Row {
                root: "/r/s/",
                yields: Yields::Items("s/t\ns/t/b\n"),
                ..ROW
            },
            Row {
                root: "r/s",
                yields: Yields::Items("r/s/t\nr/s/t/b\n"),
                ..ROW
            },
            Row {
                root: "/r/s/a",
                yields: Yields::Items(""),
                ..ROW
            },
        ],
        ..SCENE
    },
    Scene {
        tree: &[
            ".git/",
            ".git/info/exclude=c\n",
            ".gitignore=a\n",
            ".ignore=b\n",
            ".fdignore=f\n",
            "s/",
            "s/.gitignore=d\n",
            "s/.ignore=e\n",
            "s/.fdignore=!b\ng\n",
            "s/a",
            "s/b",
            "s/c",
            "s/d",
            "s/e",
            "s/f",
            "s/g",
        ],
        rules: &[("/r/.git", "")],
        rows: &[
            // Fdignore counts where it is asked for; without rules from above those below count.
            Row {
                root: "/r/s",
                yields: Yields::Items("s/.fdignore\ns/.gitignore\ns/.ignore\ns/f\ns/g\n"),
                ..ROW
            },
            Row {
                root: "/r/s",
                settings: "fdignore",
                yields: Yields::Items("s/.fdignore\ns/.gitignore\ns/.ignore\ns/b\n"),
                ..ROW
            },
            Row {
                root: "/r/s",
                settings: "no-above",
                yields: Yields::Items(
                    "s/.fdignore\ns/.gitignore\ns/.ignore\ns/a\ns/b\ns/c\ns/f\ns/g\n",
                ),
                ..ROW
            },
        ],
        ..SCENE
    },
];

/// Files of rules that can't be read, or that are none.
pub(crate) const UNREAD: &[Scene] = &[
    Scene {
        tree: &[
            ".git/",
            ".gitignore=a\n",
            ".h",
            "a",
            "s/",
            "s/.gitignore=b\n",
            "s/a",
            "s/b",
        ],
        denied: &["/r/.gitignore"],
        rows: &[
            // Rules that cannot be read are an error behind their entry.
            Row {
                yields: Yields::Items(".gitignore\n! 1 .gitignore\n.h\na\ns\ns/.gitignore\ns/a\n"),
                ..ROW
            },
            // The error stands where the entry is hidden.
            Row {
                settings: "hide",
                yields: Yields::Items("! 1 .gitignore\na\ns\ns/a\n"),
                ..ROW
            },
        ],
        ..SCENE
    },
    Scene {
        tree: &[
            ".git/",
            ".gitignore=a\n",
            "s/",
            "s/.gitignore=b\n",
            "s/a",
            "s/b",
        ],
        denied: &["/r/.git/info/exclude", "/r/s/.gitignore"],
        rows: &[
            // An exclude that cannot be read is an error though git is dropped, and rules above go on.
            Row {
                yields: Yields::Items(
                    "! 1 .git/info/exclude\n.gitignore\ns\ns/.gitignore\n! 2 s/.gitignore\ns/b\n",
                ),
                ..ROW
            },
        ],
        ..SCENE
    },
    Scene {
        tree: &["s/", "s/a"],
        rules: &[("/r/.git", "")],
        unread: &[
            (FileType::Symlink, "/r/.ignore"),
            (FileType::Other, "/r/.gitignore"),
            (FileType::Other, "/r/.git/info/exclude"),
        ],
        rows: &[
            // A file of rules above the root, and an exclude, are regular files.
            Row {
                root: "/r/s",
                yields: Yields::Items("s/a\n"),
                ..ROW
            },
        ],
        ..SCENE
    },
];

/// Many links to the directory that they are in.
pub(crate) const LINKS: &[Scene] = &[Scene {
    tree: &[
        ".git/",
        ".gitignore=l1*\nl2*/\n",
        "l2d/",
        "l2d/a",
        "s/",
        "s/l1",
        "s/a",
    ],
    links: 300,
    rows: &[
        // Links are dropped by name, and not as directories; no rule drops a loop.
        Row {
            yields: Yields::Numbers(192, 0),
            ..ROW
        },
        Row {
            settings: "follow",
            yields: Yields::Numbers(3, 300),
            ..ROW
        },
    ],
    ..SCENE
}];
