//! What ignore files leave: prints the path of everything below a folder that none of them names, in the order of names.
use jwalk::WalkDir;
use jwalk_ignore::builder::with_ignore_files;
use jwalk_ignore::ignore_files::IgnoreFiles;
use jwalk_ignore::real_texts::RealTexts;
use jwalk_ignore::states::RulesState;
use std::io::Write;

/// Prints what ignore files leave of the disk below a root.
pub fn run<W: Write>(rt: &HostRuntime, root: &str, out: &mut W) -> anyhow::Result<()> {
    let walk = WalkDir::at(rt, root)?.states::<RulesState, ()>().sort(true);
    let rules = IgnoreFiles::new(RealTexts::new(rt.clone()?));
    with_ignore_files(walk, rules).try_for_each(|answer| -> anyhow::Result<()> {
        writeln!(out, "{}", answer?.path()?)?;
        Ok(())
    })
}
