//! The line of a difference as JSON.
ghost use Rattle.std.specs.Prelude.{◌≡◌, ◌++◌, codes, map, string_bytes, IfOk, OnOk};
ghost use Rattle.serde_json.specs.Data.{array, object, put, string};
ghost use Rattle.serde_json.specs.View.{items_view, members_view, view};
ghost use Rattle.serde_json.specs.Written.{compact_text};
ghost use Rattle.since_parts.specs.Choice.{words_if};
ghost use Rattle.since_parts.specs.Json.{differs_of, json_line, kind_of, members_of, told_members, words_of};
ghost use Rattle.since_parts.specs.Line.{path_in};

use crate::held::Held;
use jwalk_changes::{Change, Kept, Which};
use serde_json::{Map, Value};
use std::alloc::{AllocError, Global};

fn kind_of(change: &Change<Held<'_, '_>, &Kept>) -> &'static str
    ensures { result.now ≡ kind_of change.now }
{
    match change {
        Change::Added(_) => "added",
        Change::Removed(_) => "removed",
        Change::Changed(_, _, _) => "changed",
    }
}

/// Returns the path that a change is about.
fn path_value(alloc: Global, change: &Change<Held<'_, '_>, &Kept>) -> Result<Value, AllocError>
    ensures { IfOk result (λ path. view path ≡ string (path_in change.now)) }
{
    match change {
        Change::Added(found) | Change::Changed(_, found, _) => {
            Value::try_from_str(alloc, found.path.as_str())
        }
        Change::Removed(old) => Value::try_from_str(alloc, old.path(alloc)?.as_str()),
    }
}

fn push_word_if(
    alloc: Global,
    differs: bool,
    word: &str,
    words: &mut Vec<Value>,
) -> Result<(), AllocError>
    ensures { OnOk result (map view words.new.items ≡ map view words.old.items ++ map string (words_if differs word.now)) }
{
    if differs {
        serde_json::push(words, Value::try_from_str(alloc, word)?)?;
    }
    Ok(())
}

/// Returns the words for what differs.
fn words_of(alloc: Global, which: Which) -> Result<Vec<Value>, AllocError>
    ensures { IfOk result (λ words. map view words.items ≡ map string (words_of which)) }
{
    let mut words = Vec::new(alloc);
    push_word_if(alloc, which.file_type, "type", &mut words)?;
    push_word_if(alloc, which.len, "length", &mut words)?;
    push_word_if(alloc, which.modified, "time", &mut words)?;
    push_word_if(alloc, which.inode, "number", &mut words)?;
    Ok(words)
}

fn array_of(values: Vec<Value>) -> Value
    ensures { view result ≡ array (items_view values.items) }
{
    Value::Array(values)
}

fn differs_of(alloc: Global, which: Which) -> Result<Value, AllocError>
    ensures { IfOk result (λ differs. view differs ≡ differs_of which) }
{
    let words = words_of(alloc, which)?;
    Ok(array_of(words))
}

fn told_members(
    alloc: Global,
    change: &Change<Held<'_, '_>, &Kept>,
) -> Result<Map<String, Value>, AllocError>
    ensures { IfOk result (λ members. members_view members.entries ≡ told_members change.now) }
{
    let mut members = Map::new(alloc);
    let kind = Value::try_from_str(alloc, kind_of(change))?;
    serde_json::put(&mut members, alloc, "kind", kind)?;
    let path = path_value(alloc, change)?;
    serde_json::put(&mut members, alloc, "path", path)?;
    Ok(members)
}

fn object_of(members: Map<String, Value>) -> Value
    ensures { view result ≡ object (members_view members.entries) }
{
    Value::Object(members)
}

/// Adds what differs.
fn put_differs(
    alloc: Global,
    which: Which,
    members: &mut Map<String, Value>,
) -> Result<(), AllocError>
    ensures { OnOk result (members_view members.new.entries
        ≡ put (codes "differs") (differs_of which) (members_view members.old.entries)) }
{
    serde_json::put(members, alloc, "differs", differs_of(alloc, which)?)
}

fn members_of(
    alloc: Global,
    long: bool,
    change: &Change<Held<'_, '_>, &Kept>,
) -> Result<Map<String, Value>, AllocError>
    ensures { IfOk result (λ members. members_view members.entries ≡ members_of long change.now) }
{
    let mut members = told_members(alloc, change)?;
    match change {
        Change::Changed(_, _, which) if long => put_differs(alloc, *which, &mut members)?,
        _ => {}
    }
    Ok(members)
}

fn text_of(
    alloc: Global,
    long: bool,
    change: &Change<Held<'_, '_>, &Kept>,
) -> Result<String, AllocError>
    ensures { IfOk result (λ text. string_bytes text ≡ compact_text (object (members_of long change.now))) }
{
    let members = members_of(alloc, long, change)?;
    object_of(members).to_string(alloc)
}

/// Adds the line of a difference: a JSON object with the members `kind`, which is `added`, `removed` or `changed`, and
/// `path`. With `long` that of a change has `differs`, an array of the words for what differs.
///
/// # Errors
///
/// If memory runs out.
pub fn push_json_line(
    long: bool,
    change: &Change<Held<'_, '_>, &Kept>,
    out: &mut Vec<u8>,
) -> Result<(), AllocError>
    ensures { OnOk result (out.new.items ≡ out.old.items ++ json_line long change.now) }
{
    let alloc = *out.allocator();
    let text = text_of(alloc, long, change)?;
    out.extend_from_slice(text.as_bytes())?;
    out.push(b'\n')?;
    Ok(())
}
