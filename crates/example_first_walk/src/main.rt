//! A first walk: prints the path of everything below a folder, in the order of names.
#![tactic(auto)]

// begin program
use jwalk::WalkDir;
use std::env;

fn main(rt: HostRuntime) -> anyhow::Result<()> {
    let root = env::args(&rt)?.nth(1);
    for answer in WalkDir::at(&rt, root.as_deref().unwrap_or("."))?.sort(true) {
        match answer {
            Ok(entry) => {
                println!(rt; "{}", entry.path()?)?;
                if let Some(error) = entry.read_children_error() {
                    eprintln!(rt; "{error}")?;
                }
            }
            Err(error) => eprintln!(rt; "{error}")?,
        }
    }
    Ok(())
}
// end program
