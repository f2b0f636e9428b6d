//! Extensions of names.
ghost use Rattle.std.specs.Prelude.{◌≡◌, map};
ghost use Rattle.std.specs.List.{list_any};
ghost use Rattle.seek_words.specs.Extension.{is_dotted, without_dot, has_ending, has_extension, has_one};

#[tactic(auto, using(crate::proofs::ExtensionFacts::same_folded))]
fn is_dotted(text: &[u8], extension: &[u8]) -> bool
    ensures { result ≡ is_dotted extension.now text.now }
{
    match text.split_first() {
        Some((first, rest)) => *first == b'.' && rest.eq_ignore_ascii_case(extension),
        None => false,
    }
}

fn without_dot(extension: &[u8]) -> &[u8]
    ensures { result.now ≡ without_dot extension.now }
{
    match extension {
        [b'.', behind @ ..] => behind,
        _ => extension,
    }
}

fn has_ending(name: &[u8], ending: &[u8]) -> bool
    ensures { result ≡ has_ending ending.now name.now }
{
    let taken = ending.len() + 1;
    name.len() > taken && is_dotted(&name[name.len() - taken..], ending)
}

/// Returns whether a name ends with a dot and an extension, after at least one character. The extension may be given
/// with its dot. The case of ASCII letters doesn't count.
pub fn has_extension(name: &str, extension: &str) -> bool
    ensures { result ≡ has_extension name.now extension.now }
{
    has_ending(name.as_bytes(), without_dot(extension.as_bytes()))
}

fn has_any(name: &str, extensions: &[&str]) -> bool
    ensures { result ≡ list_any (has_extension name.now) (map (λ it. it.now) extensions.now) }
{
    extensions
        .iter()
        .any(|extension| has_extension(name, extension))
}

/// Returns whether a name has one of these extensions, or there are none.
pub fn has_one(name: &str, extensions: &[&str]) -> bool
    ensures { result ≡ has_one name.now (map (λ it. it.now) extensions.now) }
{
    extensions.is_empty() || has_any(name, extensions)
}
