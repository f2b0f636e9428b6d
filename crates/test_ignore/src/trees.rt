//! Small trees with ignore files, and the part of each that git 2.39 keeps. `bench/ignore_trees.py` writes them.
use crate::planted::{ROW, Row, SCENE, Scene, Yields};

pub(crate) const TREES: &[Scene] = &[
    Scene {
        tree: &[
            ".git/",
            ".git/info/exclude=ab\n!*/\n[!a][ab]c.?\n",
            ".gitignore=subab\nc.?subb\n!k.o*\n",
            "a",
            "ab/",
            "ab/b/",
            "ab/b/.gitignore=!bab\nc.?ab[!a]/\n",
            "ab/b/ab",
            "c.o",
        ],
        rows: &[
            // Tree 9.
            Row {
                yields: Yields::Items(".gitignore\na\nab\nab/b\nab/b/.gitignore\nc.o\n"),
                ..ROW
            },
        ],
        ..SCENE
    },
    Scene {
        tree: &[
            ".git/",
            ".gitignore=!*.o\n/**?\nk.o[ab]**/\n",
            "a",
            "b/",
            "b/.gitignore=![!a]\n**/k.ok.o\n[!a]**//\n",
            "b/c.o/",
            "b/c.o/.gitignore=/[!a]\n!b?\\a\n!*.o*[ab]\n",
            "b/c.o/ab/",
            "b/c.o/ab/ab",
            "b/c.o/ab/sub",
            "b/c.o/c.o",
            "b/c.o/k.o",
        ],
        rows: &[
            // Tree 37.
            Row {
                yields: Yields::Items(""),
                ..ROW
            },
        ],
        ..SCENE
    },
    Scene {
        tree: &[
            ".git/",
            ".git/info/exclude=!subsub\n!sub*.o*\n![ab]subc.?/\n",
            ".gitignore=\\ab/\nk.osub/**\n!c.?/**\n",
            "b",
            "k.o/",
            "k.o/.gitignore=!k.o\n.h\n",
            "k.o/.h",
            "k.o/k.o",
        ],
        rows: &[
            // Tree 44.
            Row {
                yields: Yields::Items(".gitignore\nb\nk.o\nk.o/.gitignore\nk.o/k.o\n"),
                ..ROW
            },
        ],
        ..SCENE
    },
    Scene {
        tree: &[
            ".git/",
            ".git/info/exclude=!k.ob?/\nab/sub\na\n",
            ".gitignore=!b.h/\n[ab]?a\n",
            "b",
            "sub/",
            "sub/.gitignore=a/**\n[ab]/**//\n[!a]*?\n",
            "sub/ab/",
            "sub/ab/.h",
            "sub/ab/ab/",
            "sub/ab/ab/.gitignore=**//\n*/\n**/k.o\n",
            "sub/ab/ab/c.o",
        ],
        rows: &[
            // Tree 94.
            Row {
                yields: Yields::Items(".gitignore\nb\nsub\nsub/ab\nsub/ab/ab\n"),
                ..ROW
            },
        ],
        ..SCENE
    },
];
