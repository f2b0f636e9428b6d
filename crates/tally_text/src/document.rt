//! Results as JSON.
ghost use Rattle.std.specs.Prelude.{◌≡◌, string_bytes, map, IfOk, OnOk};
ghost use Rattle.serde_json.specs.Data.{array, no_members, put};
ghost use Rattle.serde_json.specs.View.{view, items_of, items_view, members_view};
ghost use Rattle.serde_json.specs.Written.{compact_text};
ghost use Rattle.tally_text.specs.Document.{data_of, data_with, number_data, with_numbers};
ghost use Rattle.tally_text.specs.declared.node.Node.TheViews.{out-Node};

use crate::node::Node;
use crate::numbers::Numbers;
use serde_json::{Map, Number, Value};
use std::alloc::{AllocError, Global};

fn number_of(alloc: Global, n: u128) -> Result<Value, AllocError>
    ensures { IfOk result (λ value. view value ≡ number_data n) }
{
    match Number::from_u128(n) {
        Some(number) => Ok(Value::Number(number)),
        None => Ok(Value::String(format!(in alloc; "{n}")?)),
    }
}

fn put_number(
    members: &mut Map<String, Value>,
    alloc: Global,
    key: &str,
    n: u128,
) -> Result<(), AllocError>
    ensures { OnOk result (members_view members.new.entries
        ≡ put key.now (number_data n) (members_view members.old.entries)) }
{
    serde_json::put(members, alloc, key, number_of(alloc, n)?)
}

fn members_of_numbers(alloc: Global, numbers: Numbers) -> Result<Map<String, Value>, AllocError>
    ensures { IfOk result (λ members. members_view members.entries ≡ with_numbers numbers no_members) }
{
    let mut members = Map::new(alloc);
    put_number(&mut members, alloc, "bytes", numbers.bytes)?;
    put_number(&mut members, alloc, "file_bytes", numbers.file_bytes)?;
    put_number(&mut members, alloc, "files", numbers.files)?;
    put_number(&mut members, alloc, "dirs", numbers.dirs)?;
    put_number(&mut members, alloc, "links", numbers.links)?;
    put_number(&mut members, alloc, "others", numbers.others)?;
    put_number(&mut members, alloc, "errors", numbers.errors)?;
    Ok(members)
}

fn value_of(alloc: Global, node: &Node, children: Vec<Value>) -> Result<Value, AllocError>
    ensures { IfOk result (λ value. view value ≡ data_with (out-Node node.now) (items_view children.items)) }
{
    let mut members = members_of_numbers(alloc, node.numbers)?;
    let name = Value::try_from_str(alloc, node.name.as_str())?;
    serde_json::put(&mut members, alloc, "name", name)?;
    serde_json::put(&mut members, alloc, "children", Value::Array(children))?;
    Ok(Value::Object(members))
}

fn values_of(alloc: Global, nodes: &[Node]) -> Result<Vec<Value>, AllocError>
    ensures { IfOk result (λ values. map view values.items ≡ map data_of nodes.now) }
{
    let mut values = Vec::new(alloc);
    for node in nodes {
        let children = values_of(alloc, node.children.as_slice())?;
        serde_json::push(&mut values, value_of(alloc, node, children)?)?;
    }
    Ok(values)
}

fn array_of(values: Vec<Value>) -> Value
    ensures { view result ≡ array (items_view values.items) }
{
    Value::Array(values)
}

/// Returns trees of results as one JSON document, an array. Each tree is an object with its name, its numbers and its
/// children, which are such objects. A number that needs more than 64 bits is a string of its digits.
///
/// # Errors
///
/// If memory runs out.
pub fn document(alloc: Global, trees: &[Node]) -> Result<String<Global>, AllocError>
    ensures { IfOk result (λ text. string_bytes text ≡ compact_text (array (items_of (map data_of trees.now)))) }
{
    let values = values_of(alloc, trees)?;
    array_of(values).to_string(alloc)
}
