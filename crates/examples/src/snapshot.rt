//! Lists a snapshot that `since` saved: the path of each name in it, behind the root.
use jwalk_snapshot::Snapshot;
use std::fs;
use std::io::Write;

/// Prints the names that the snapshot in a file has.
pub fn run<W: Write>(rt: &HostRuntime, file: &str, out: &mut W) -> anyhow::Result<()> {
    let bytes = fs::read(rt, file)?;
    let snapshot = Snapshot::read(rt.alloc(), &bytes)?;
    for block in &snapshot.blocks {
        for name in &block.names {
            match block.path {
                "" => writeln!(out, "{}", name.name)?,
                folder => writeln!(out, "{folder}/{}", name.name)?,
            }
        }
    }
    Ok(())
}
