// JSON: the forms of values, and fields that are read.
use anyhow::bail;
use json::Scratch;
use sci_base::{Dep, DirectFeedthrough};
use sci_json::document::{Document, ParseStop, Value};
use sci_json::{FieldStop, dep, ints, list, text};
use std::alloc::Global;

/// Prints the forms of the whole of a text.
pub fn show_root(rt: &impl Print, alloc: Global, bytes: &[u8]) -> anyhow::Result<()> {
    let mut scratch = Scratch::new(alloc);
    match Document::parse(alloc, bytes, &mut scratch) {
        Ok(document) => show_forms(rt, &document.root()),
        Err(ParseStop::Invalid) => {
            print!(rt; " invalid")?;
            Ok(())
        }
        Err(ParseStop::Memory) => bail!("out of memory"),
    }
}

/// Prints each form that a value has.
fn show_forms(rt: &impl Print, value: &Value<'_, '_>) -> anyhow::Result<()> {
    if value.is_object() {
        print!(rt; " object")?;
    }
    if value.items().is_some() {
        print!(rt; " list")?;
    }
    if let Some(truth) = value.as_bool() {
        print!(rt; " {truth}")?;
    }
    if let Some(number) = value.as_i64() {
        print!(rt; " {number}")?;
    }
    if let Some(text) = value.as_str() {
        print!(rt; " {text:?}")?;
    }
    Ok(())
}

/// Prints the forms of a field.
pub fn show_field(rt: &impl Print, alloc: Global, name: &str, text: &str) -> anyhow::Result<()> {
    let mut scratch = Scratch::new(alloc);
    let Ok(document) = Document::parse(alloc, text.as_bytes(), &mut scratch) else {
        bail!("no JSON");
    };
    match document.root().get(name) {
        Some(value) => show_forms(rt, &value),
        None => {
            print!(rt; " none")?;
            Ok(())
        }
    }
}

/// Reads a field, which is named with the form that it has to have, and prints it.
pub fn show_read(rt: &impl Print, alloc: Global, field: &str, text: &str) -> anyhow::Result<()> {
    let mut scratch = Scratch::new(alloc);
    let Ok(document) = Document::parse(alloc, text.as_bytes(), &mut scratch) else {
        bail!("no JSON");
    };
    let Some((form, name)) = field.split_once(' ') else {
        bail!("a form and a name");
    };
    match form {
        "text" => show_text(rt, alloc, &document.root(), name),
        "ints" => show_ints(rt, alloc, &document.root(), name),
        "list" => show_list(rt, &document.root(), name),
        "dep" => show_dep(rt, alloc, &document.root(), name),
        _ => bail!("no such form"),
    }
}

/// Prints a field that is a text.
fn show_text(
    rt: &impl Print,
    alloc: Global,
    value: &Value<'_, '_>,
    name: &str,
) -> anyhow::Result<()> {
    match text(alloc, value, name) {
        Ok(found) => print!(rt; " {found:?}")?,
        Err(stop) => show_stop(rt, stop)?,
    }
    Ok(())
}

/// Prints a field of whole numbers.
fn show_ints(
    rt: &impl Print,
    alloc: Global,
    value: &Value<'_, '_>,
    name: &str,
) -> anyhow::Result<()> {
    match ints(alloc, value, name) {
        Ok(found) => print!(rt; " {found:?}")?,
        Err(stop) => show_stop(rt, stop)?,
    }
    Ok(())
}

/// Prints the forms of each item of a field that is a list.
fn show_list(rt: &impl Print, value: &Value<'_, '_>, name: &str) -> anyhow::Result<()> {
    match list(value, name) {
        Ok(mut items) => {
            while let Some(item) = items.next() {
                show_forms(rt, &item)?;
                print!(rt; ",")?;
            }
            Ok(())
        }
        Err(stop) => show_stop(rt, stop),
    }
}

/// Prints what a block depends on, as a field says.
fn show_dep(
    rt: &impl Print,
    alloc: Global,
    value: &Value<'_, '_>,
    name: &str,
) -> anyhow::Result<()> {
    match dep(alloc, value, name) {
        Ok(Some(Dep { part, always })) => {
            match part {
                DirectFeedthrough::All(truth) => print!(rt; " all {truth}")?,
                DirectFeedthrough::Each(truths) => print!(rt; " {truths:?}")?,
            }
            print!(rt; " always {always}")?;
        }
        Ok(None) => print!(rt; " none")?,
        Err(stop) => show_stop(rt, stop)?,
    }
    Ok(())
}

/// Prints why a field was not read.
fn show_stop(rt: &impl Print, stop: FieldStop) -> anyhow::Result<()> {
    match stop {
        FieldStop::Missing => print!(rt; " missing")?,
        FieldStop::Wrong => print!(rt; " wrong")?,
        FieldStop::Memory => bail!("out of memory"),
    }
    Ok(())
}
