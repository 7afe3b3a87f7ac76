//! A line of JSON as the line of a document.
ghost use Rattle.std.specs.Prelude.{◌≡◌, ◌≤◌, IfOk, OnOk, IsErrOf, length, string_bytes, ◌++◌};
ghost use Rattle.std.specs.Option.{option_map};
ghost use Rattle.std.specs.List.{join_with_byte};
ghost use Rattle.serde_json.specs.View.{items_view, view};
ghost use Rattle.cs_base.specs.content.Bytes.{semicolon};
ghost use Rattle.cs_base.specs.declared.content.limits.TheConstants.{MAX_COLLECTION_BYTES};
ghost use Rattle.cs_model_sources.specs.JsonSources.{facets_field, json_value, line_read, strings_of, text_field, value_line};
ghost use Rattle.cs_more.specs.LineGiven.{Adds, OverflowsBy, behind_semicolons};
ghost use Rattle.cs_more.specs.declared.fault.FlatFault.TheVariants.{TooLarge};

use crate::document_line::{push_blank, push_document_line};
use crate::fault::FlatFault;
use cs_base::Memory;
use cs_model_sources::Why;
use serde_json::Value;
use std::alloc::Global;

/// Adds the line of a collection that a line of JSON gives, or answers why it is bad.
pub(crate) fn push_line(
    alloc: Global,
    tsv: &mut Vec<u8>,
    line: &[u8],
) -> Result<Option<Why>, FlatFault>
    ensures ok { IfOk result (λ o. Adds (line_read line.now) tsv.old.items tsv.new.items o) }
    ensures few { OnOk result (length tsv.old.items ≤ MAX_COLLECTION_BYTES → length tsv.new.items ≤ MAX_COLLECTION_BYTES) }

    ensures too_large { IsErrOf result TooLarge → OverflowsBy (line_read line.now) tsv.old.items }
{
    if line.is_empty() {
        push_blank(tsv)?;
        return Ok(None);
    }
    let Some(value) = value_of(alloc, line)? else {
        return Ok(Some(Why::Json));
    };
    let bad = push_value(alloc, tsv, &value)?;
    Ok(bad)
}

// Adds the line of the document that a value is, or answers why it is none.
fn push_value(alloc: Global, tsv: &mut Vec<u8>, value: &Value) -> Result<Option<Why>, FlatFault>
    ensures ok { IfOk result (λ o. Adds (value_line (view value.now)) tsv.old.items tsv.new.items o) }
    ensures few { OnOk result (length tsv.old.items ≤ MAX_COLLECTION_BYTES → length tsv.new.items ≤ MAX_COLLECTION_BYTES) }

    ensures too_large { IsErrOf result TooLarge → OverflowsBy (value_line (view value.now)) tsv.old.items }
{
    if !value.is_object() {
        return Ok(Some(Why::Field));
    }
    let Some(title) = text_field(value.get("title")) else {
        return Ok(Some(Why::Field));
    };
    let Some(facets) = facets_field(alloc, value.get("facets"))? else {
        return Ok(Some(Why::Field));
    };
    let Some(text) = text_field(value.get("text")) else {
        return Ok(Some(Why::Field));
    };
    push_document_line(
        tsv,
        title.as_bytes(),
        facets.as_str().as_bytes(),
        text.as_bytes(),
    )?;
    Ok(None)
}

// The value of a line; None where it has none.
fn value_of(alloc: Global, line: &[u8]) -> Result<Option<Value>, Memory>
    ensures ok { IfOk result (λ o. option_map view o ≡ json_value line.now) }
{
    match Value::from_slice(alloc, line) {
        Ok(value) => Ok(Some(value)),
        Err(why) => {
            if why.is_memory() {
                Err(Memory)
            } else {
                Ok(None)
            }
        }
    }
}

// The text of a field, which is nothing where it is absent or null; None where it is another value than a string.
fn text_field(value: Option<&Value>) -> Option<&str>
    ensures { option_map (λ s. s.now) result ≡ text_field (option_map (λ v. view v.now) value.entry) }
{
    match value {
        None | Some(Value::Null) => Some(""),
        Some(Value::String(text)) => Some(text.as_str()),
        Some(_) => None,
    }
}

// The facets column of a field; None where it has another form.
fn facets_field(alloc: Global, value: Option<&Value>) -> Result<Option<String>, Memory>
    ensures ok { IfOk result (λ o. option_map string_bytes o ≡ facets_field (option_map (λ v. view v.now) value.entry)) }
{
    if let Some(Value::Array(list)) = value {
        let column = joined(alloc, list)?;
        return Ok(column);
    }
    let Some(text) = text_field(value) else {
        return Ok(None);
    };
    let column = String::from_str(alloc, text)?;
    Ok(Some(column))
}

// The strings of a list with `;` between each two; None where one of its values is no string.
fn joined(alloc: Global, list: &[Value]) -> Result<Option<String>, Memory>
    ensures ok { IfOk result (λ o. option_map string_bytes o ≡ option_map (join_with_byte semicolon) (strings_of (items_view list.now))) }
{
    let Some(first) = list.first() else {
        return Ok(Some(String::new(alloc)));
    };
    let Some(text) = first.as_str() else {
        return Ok(None);
    };
    let column = String::from_str(alloc, text)?;
    let column = with_more(column, &list[1..])?;
    Ok(column)
}

// The column with the strings of a list behind it, and `;` before each; None where one of its values is no string.
fn with_more(column: String, list: &[Value]) -> Result<Option<String>, Memory>
    ensures ok { IfOk result (λ o. option_map string_bytes o ≡ option_map (λ ss. string_bytes column ++ behind_semicolons ss) (strings_of (items_view list.now))) }
{
    let mut column = column;
    for value in list {
        let Some(text) = value.as_str() else {
            return Ok(None);
        };
        column.push(';')?;
        column.push_str(text)?;
    }
    Ok(Some(column))
}
