//! A long tree whose output is closed.
use crate::programs::rows::{Asks, Out, ROW, Row, SCENE, Scene};
use crate::programs::run::is_right;
use crate::seek::ALONE;
use crate::walk::WALK;
use std::alloc::AllocError;

/// Adds the lines of a directory and of `count` directories in it, each of one file, to a tree, and the lines of their
/// entries to an output.
fn push_dirs(tree: &mut String, out: &mut String, count: u64) -> Result<(), AllocError> {
    tree.push_str("d /r\n")?;
    out.push_str("0 d /r\n")?;
    for number in 0..count {
        write!(
            tree,
            "d /r/directory number {number}\nf 1 /r/directory number {number}/x\n"
        )?;
        write!(
            out,
            "1 d /r/directory number {number}\n2 f /r/directory number {number}/x\n"
        )?;
    }
    Ok(())
}

/// The number of bytes that an output takes before it is closed.
const ROOM: usize = 20_000;

/// Unless workers read ahead, no walk may come to its end.
#[test]
fn nothing_is_asked_once_a_write_has_failed(rt: HostRuntime) -> Result<(), AllocError> {
    let mut tree = String::new(rt.alloc());
    let mut out = String::new(rt.alloc());
    push_dirs(&mut tree, &mut out, 3000)?;
    let closed = Row {
        call: "/r",
        room: ROOM,
        out: Out::Text(out.get(..ROOM).unwrap_or("")),
        status: 1,
        asks: Asks::AtMost(1500),
        ..ROW
    };
    let rows = [
        (WALK, closed),
        (
            WALK,
            Row {
                call: "--batch 8 /r",
                ..closed
            },
        ),
        (
            WALK,
            Row {
                call: "--crew 2 /r",
                asks: Asks::Any,
                ..closed
            },
        ),
        (
            ALONE,
            Row {
                call: ". /r",
                out: Out::Any,
                ..closed
            },
        ),
    ];
    let scene = Scene {
        tree: tree.as_str(),
        ..SCENE
    };
    for (way, row) in &rows {
        let is_right = is_right(&rt, *way, &scene, row);
        assert!(rt; matches!(is_right, Ok(true)), "{}", row.call);
    }
    Ok(())
}
