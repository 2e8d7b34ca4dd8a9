//! Resources with their attributes, and the operations on them.
ghost use Rattle.std.specs.Prelude.{◌≡◌, [], OnOk, length, take, flat_map, slice_get};
ghost use Rattle.std.specs.Option.{option_map_or};
ghost use Rattle.tk_page.specs.Items as spec;
ghost use Rattle.tk_page.specs.Places as places;
ghost use Rattle.tk_paper.specs.Pieces.{Writes};

use crate::badges::start_section;
use crate::figures::{Scale, count};
use crate::idle::put_waiters;
use crate::ops::put_ops;
use crate::values::{put_unit, put_value};
use std::alloc::{AllocError, Global};
use tk_core::ResourceRow;
use tk_ids::{AttrInfo, AttrValue};
use tk_paper::Part::{Class, Close, Count, End, Number, Open, Start, Text, With};
use tk_paper::{Attr, Paper, Tag};
use tk_stream::{Resource, Tables};

// How many resources are shown, and how many operations of each.
const RESOURCES: usize = 50;

pub(crate) const OPS: usize = 20;

/// Puts which item this one is a part of.
pub(crate) fn put_whole(
    paper: &mut Paper,
    words: &'static str,
    parts: (u64, u64),
) -> Result<(), AllocError>
    ensures { OnOk result (Writes paper.old paper.new (spec.whole words.now parts)) }
{
    paper.put(&[Text(words), Number(parts.0), Text("."), Number(parts.1)])
}

fn put_attr(paper: &mut Paper, attr: &AttrInfo, value: AttrValue) -> Result<(), AllocError>
    ensures { OnOk result (Writes paper.old paper.new (spec.attr (attr.now, value))) }
{
    paper.put(&[
        Start(Tag::Div),
        Start(Tag::Dt),
        Text(attr.name.as_str()),
        Close(Tag::Dt),
        Start(Tag::Dd),
    ])?;
    put_value(paper, value)?;
    put_unit(paper, &attr.unit)?;
    paper.put(&[Close(Tag::Dd), Close(Tag::Div)])?;
    Ok(())
}

// An item declares at most six attributes.
fn put_each_attr(
    paper: &mut Paper,
    attrs: &[AttrInfo],
    values: &[AttrValue],
) -> Result<(), AllocError>
    ensures { OnOk result (Writes paper.old paper.new (spec.each_attr attrs.now values.now)) }
{
    let [attr, attrs @ ..] = attrs else {
        return paper.put(&[]);
    };
    let [value, values @ ..] = values else {
        return paper.put(&[]);
    };
    put_attr(paper, attr, *value)?;
    put_each_attr(paper, attrs, values)?;
    Ok(())
}

pub(crate) fn put_attrs(
    paper: &mut Paper,
    attrs: &[AttrInfo],
    values: &[AttrValue],
) -> Result<(), AllocError>
    ensures { OnOk result (Writes paper.old paper.new (spec.attrs attrs.now values.now)) }
{
    paper.put(&[Start(Tag::Dl)])?;
    put_each_attr(paper, attrs, values)?;
    paper.put(&[Close(Tag::Dl)])?;
    Ok(())
}

fn resource_state(row: &ResourceRow) -> &'static str
    ensures { result.now ≡ spec.resource_state row.now }
{
    if row.dropped.is_some() { " closed" } else { "" }
}

fn put_column(paper: &mut Paper, name: &'static str, class: &'static str) -> Result<(), AllocError>
    ensures { OnOk result (Writes paper.old paper.new (spec.column name.now class.now)) }
{
    paper.put(&[
        Open(Tag::Th),
        With(Attr::Scope, "col"),
        With(Attr::Class, class),
        End,
        Text(name),
        Close(Tag::Th),
    ])
}

pub(crate) fn put_columns(paper: &mut Paper) -> Result<(), AllocError>
    ensures { OnOk result (Writes paper.old paper.new (spec.columns)) }
{
    paper.put(&[Start(Tag::Table), Start(Tag::Thead), Start(Tag::Tr)])?;
    put_column(paper, "operation", "")?;
    put_column(paper, "state", "")?;
    put_column(paper, "task", "")?;
    put_column(paper, "polls", "num")?;
    put_column(paper, "busy", "num")?;
    put_column(paper, "attributes", "")?;
    paper.put(&[Close(Tag::Tr), Close(Tag::Thead), Start(Tag::Tbody)])?;
    Ok(())
}

/// Puts how many items more there are than are shown.
pub(crate) fn put_more(
    paper: &mut Paper,
    all: usize,
    shown: usize,
    words: &'static str,
) -> Result<(), AllocError>
    ensures { OnOk result (Writes paper.old paper.new (places.more all shown words.now)) }
{
    if all <= shown {
        return paper.put(&[]);
    }
    paper.put(&[
        Class(Tag::P, "more"),
        Text("and "),
        Count(count(all - shown)),
        Text(words),
        Close(Tag::P),
    ])
}

// Puts what a resource is: its type, its id and kind, and where it was made.
fn put_resource_name(paper: &mut Paper, resource: &Resource) -> Result<(), AllocError>
    ensures { OnOk result (Writes paper.old paper.new (spec.resource_name resource.now)) }
{
    let info = &resource.info;
    let (recorder, number) = info.id.parts();
    paper.put(&[
        Class(Tag::Article, "res"),
        Start(Tag::H3),
        Text(info.concrete.as_str()),
        Text(" "),
        Start(Tag::Small),
        Number(recorder),
        Text("."),
        Number(number),
        Text(" "),
        Text(info.kind.as_str()),
        Text(resource_state(&resource.row)),
        Text(" · "),
        Text(info.location.file.as_str()),
        Text(":"),
        Number(u64::from(info.location.line)),
        Text(":"),
        Number(u64::from(info.location.column)),
    ])
}

fn put_resource_parent(paper: &mut Paper, resource: &Resource) -> Result<(), AllocError>
    ensures { OnOk result (Writes paper.old paper.new (spec.part_of spec.part_words resource.now.info.parent)) }
{
    match resource.info.parent {
        Some(parent) => put_whole(paper, " · part of ", parent.parts()),
        None => paper.put(&[]),
    }
}

// Puts how many poll operations of a resource were ready, and how many pending.
fn put_polls(paper: &mut Paper, polls: (u64, u64)) -> Result<(), AllocError>
    ensures { OnOk result (Writes paper.old paper.new (spec.polls polls)) }
{
    paper.put(&[
        Start(Tag::P),
        Text("poll operations: "),
        Count(polls.0),
        Text(" ready, "),
        Count(polls.1),
        Text(" pending"),
        Close(Tag::P),
    ])
}

fn put_resource(
    paper: &mut Paper,
    alloc: Global,
    scale: Scale,
    tables: &Tables,
    resource: &Resource,
) -> Result<(), AllocError>
    ensures { OnOk result (Writes paper.old paper.new (spec.resource scale tables.now resource.now)) }
{
    put_resource_name(paper, resource)?;
    put_resource_parent(paper, resource)?;
    paper.put(&[Close(Tag::Small), Close(Tag::H3)])?;
    put_attrs(
        paper,
        resource.info.attrs.as_slice(),
        resource.row.attrs.list().as_slice(),
    )?;
    put_waiters(paper, alloc, scale, tables, resource)?;
    put_polls(paper, tables.poll_counts(resource.info.id))?;
    put_ops(paper, alloc, tables, resource)?;
    paper.put(&[Close(Tag::Article)])?;
    Ok(())
}

fn put_resource_at(
    paper: &mut Paper,
    alloc: Global,
    scale: Scale,
    tables: &Tables,
    place: usize,
) -> Result<(), AllocError>
    ensures { OnOk result (Writes paper.old paper.new
        (option_map_or (spec.resource scale tables.now) (slice_get tables.now.resources place) [])) }
{
    match tables.resource_at(place) {
        Some(resource) => put_resource(paper, alloc, scale, tables, resource),
        None => paper.put(&[]),
    }
}

fn put_some_resources(
    paper: &mut Paper,
    alloc: Global,
    scale: Scale,
    tables: &Tables,
    shown: usize,
) -> Result<(), AllocError>
    ensures { OnOk result (Writes paper.old paper.new (flat_map (spec.resource scale tables.now) (take shown tables.now.resources))) }
{
    for place in 0..shown {
        put_resource_at(paper, alloc, scale, tables, place)?;
    }
    Ok(())
}

fn put_all_resources(
    paper: &mut Paper,
    alloc: Global,
    scale: Scale,
    tables: &Tables,
    all: usize,
) -> Result<(), AllocError>
    requires { all ≡ length tables.now.resources }
    ensures { OnOk result (Writes paper.old paper.new (spec.all_resources scale tables.now)) }
{
    start_section(paper, "resources", "Resources and their operations")?;
    paper.put(&[Close(Tag::H2)])?;
    put_some_resources(paper, alloc, scale, tables, all.min(RESOURCES))?;
    put_more(paper, all, RESOURCES, " more")?;
    paper.put(&[Close(Tag::Section)])?;
    Ok(())
}

/// Puts the resources.
pub(crate) fn put_resources(
    paper: &mut Paper,
    alloc: Global,
    scale: Scale,
    tables: &Tables,
) -> Result<(), AllocError>
    ensures { OnOk result (Writes paper.old paper.new (spec.resources_section scale tables.now)) }
{
    let all = tables.resource_count();
    if all == 0 {
        paper.put(&[])
    } else {
        put_all_resources(paper, alloc, scale, tables, all)
    }
}
