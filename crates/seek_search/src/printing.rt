//! The printer of a search.
ghost use Rattle.std.specs.Prelude.{◌≡◌, is_some, IfOk};
ghost use Rattle.std.specs.Option.{option_map};
ghost use Rattle.jwalk.specs.jwalk_model.FileSystem.{Functions};
ghost use Rattle.seek_words.specs.Layout.{form_in};
ghost use Rattle.seek_words.specs.Paint.{painting_of};
ghost use Rattle.seek_words.specs.Subject.{front_of};
ghost use Rattle.seek_found.specs.Sought.{takes_by};
ghost use Rattle.seek_search.specs.Printing.{IsFilterFor, IsPrinterFor};
ghost use Rattle.seek_search.specs.Search.{form_before, front_if, limit_asked, painting_asked, style_asked};

use crate::based::copied;
use jwalk::file_system::Fault;
use jwalk_ignore::texts::Texts;
use program_parts::paths::Style;
use seek_colors::palette::Palette;
use seek_found::printer::Printer;
use seek_found::sought::Sought;
use seek_found::sought_test::SoughtTest;
use seek_words::asked::Asked;
use seek_words::filter::Filter;
use seek_words::layout::Layout;
use seek_words::lines::Lines;
use seek_words::paint::Paint;
use seek_words::screen::Screen;
use seek_words::subject::AbsolutePath;
use seek_words::wanted::Wanted;
use std::alloc::{AllocError, Global};

/// Returns the absolute path of an entry, if it is wanted.
fn path_of<X: Texts>(
    alloc: Global,
    wanted: bool,
    texts: &X,
) -> Result<Option<AbsolutePath>, AllocError>
    ensures wanted { IfOk result (λ path. is_some path ≡ wanted) }
    ensures front { X.IsFixed texts.now → IfOk result (λ path. option_map front_of path ≡ front_if wanted (X.functions texts.now)) }
{
    if !wanted {
        return Ok(None);
    }
    match texts.absolute(alloc, "") {
        Ok(here) => Ok(Some(AbsolutePath::below(alloc, here.as_str())?)),
        Err(Fault::Io(_)) => Ok(Some(AbsolutePath::below(alloc, "")?)),
        Err(Fault::Memory) => Err(AllocError),
    }
}

/// Returns one if only the status is asked for.
fn limit_of(asked: &Asked<'_>) -> Option<usize>
    ensures { result ≡ limit_asked asked.now }
{
    if asked.quiet {
        return Some(1);
    }
    match asked.max_results {
        None | Some(0) => None,
        Some(most) => Some(most),
    }
}

fn style_of(on_terminal: bool, asked: &Asked<'_>) -> Style
    ensures { result ≡ style_asked on_terminal asked.now }
{
    Style {
        here: asked.roots.is_empty() && (asked.strip_cwd_prefix || !asked.print0),
        to_terminal: on_terminal,
        separator: if asked.print0 { 0 } else { b'\n' },
    }
}

/// A quiet search prints no paths.
fn paint_of(
    alloc: Global,
    screen: Screen<'_>,
    asked: &Asked<'_>,
) -> Result<Option<Paint>, AllocError>
    ensures { IfOk result (λ paint. (fs : Functions) → option_map (painting_of fs) paint ≡ painting_asked fs screen.entry asked.now) }
{
    if asked.quiet || !asked.colored {
        return Ok(None);
    }
    Ok(Some(Paint {
        palette: Palette::read(alloc, screen.ls_colors)?,
        follow: asked.follow,
    }))
}

fn layout_of(
    alloc: Global,
    screen: Screen<'_>,
    asked: &Asked<'_>,
    absolute: Option<AbsolutePath>,
) -> Result<Layout, AllocError>
    ensures { IfOk result (λ layout. (fs : Functions) → form_in fs layout ≡ form_before fs (option_map front_of absolute) screen.entry asked.now) }
{
    Ok(Layout {
        style: style_of(screen.is_terminal, asked),
        absolute,
        details: asked.details,
        paint: paint_of(alloc, screen, asked)?,
        slash: copied(alloc, asked.path_separator)?,
    })
}

fn filter_of<'w, X: Texts>(
    alloc: Global,
    asked: &'w Asked<'_>,
    sought: &'w Sought,
    texts: &X,
) -> Result<Filter<'w, SoughtTest<'w>>, AllocError>
    ensures { IfOk result (IsFilterFor (X.IsFixed texts.now) (X.functions texts.now) asked.entry.now (takes_by sought.entry.now)) }
{
    let wanted = Wanted {
        depths: asked.depths,
        kinds: asked.kinds,
        extensions: asked.extensions.as_slice(),
        sizes: asked.sizes.as_slice(),
        owner: asked.owner,
        times: asked.times,
    };
    Ok(Filter {
        wanted,
        test: SoughtTest::new(alloc, sought)?,
        path: path_of(alloc, asked.full_path, texts)?,
        prunes: asked.prune,
        alloc,
    })
}

/// Returns the printer of what is asked for. It has printed nothing yet.
pub(crate) fn printer_of<'w, X: Texts>(
    alloc: Global,
    screen: Screen<'_>,
    asked: &'w Asked<'_>,
    sought: &'w Sought,
    texts: &X,
) -> Result<Printer<'w, SoughtTest<'w>>, AllocError>
    ensures { IfOk result (IsPrinterFor (X.IsFixed texts.now) (X.functions texts.now) screen.entry asked.entry.now (takes_by sought.entry.now)) }
{
    let filter = filter_of(alloc, asked, sought, texts)?;
    let absolute = path_of(alloc, asked.absolute, texts)?;
    let layout = layout_of(alloc, screen, asked, absolute)?;
    Ok(Printer {
        filter,
        lines: Lines::new(alloc, layout)?,
        left: limit_of(asked),
    })
}
