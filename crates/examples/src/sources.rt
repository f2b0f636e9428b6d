//! Prints the path of each source file below a folder that no ignore file names, the shortest names of each directory
//! first: rules, a filter and a sort in one walk.
use jwalk::WalkDir;
use jwalk_ignore::builder::with_ignore_files;
use jwalk_ignore::ignore_files::IgnoreFiles;
use jwalk_ignore::real_texts::RealTexts;
use jwalk_ignore::states::RulesState;
use std::io::Write;

/// Prints the files of the disk below a root whose names have an ending.
pub fn run<W: Write>(
    rt: &HostRuntime,
    root: &str,
    ending: String,
    out: &mut W,
) -> anyhow::Result<()> {
    // begin walk
    let walk = WalkDir::at(rt, root)?.states::<RulesState, ()>().sort(true);
    let walk = with_ignore_files(walk, IgnoreFiles::new(RealTexts::new(rt.clone()?)))
        .filter_entry(move |_depth, name, file_type| {
            file_type.is_dir() || name.ends_with(ending.as_str())
        })
        .sort_by_key(|entry| entry.file_name().len());
    walk.try_for_each(|answer| -> anyhow::Result<()> {
        let entry = answer?;
        if entry.file_type().is_file() {
            writeln!(out, "{}", entry.path()?)?;
        }
        Ok(())
    })
    // end walk
}
