//! Whether rows have the attributes of their items.
ghost use Rattle.std.specs.Prelude.{◌≡◌, ◌&&◌};
ghost use Rattle.std.specs.List.{list_all};
ghost use Rattle.tk_stream.specs.Applied.{resource_kind, op_kind};
ghost use Rattle.tk_stream.specs.Tables.{AreDistinct};
ghost use Rattle.tk_client.specs.Taking as spec;
ghost use Rattle.tk_client.specs.Applying.{fits_told};

use tk_core::{OpRow, ResourceRow};
use tk_ids::{AsyncOpId, AttrInfo, AttrKind, AttrValue, ResourceId};
use tk_stream::{Line, Tables};

fn is_kind(a: AttrKind, b: AttrKind) -> bool
    ensures { result ≡ spec.is_kind a b }
{
    match (a, b) {
        (AttrKind::U64, AttrKind::U64)
        | (AttrKind::Bool, AttrKind::Bool)
        | (AttrKind::I64, AttrKind::I64) => true,
        _ => false,
    }
}

fn fit_attrs(attrs: &[AttrInfo], values: &[AttrValue]) -> bool
    ensures { result ≡ spec.fit_attrs attrs.now values.now }
{
    if attrs.len() != values.len() {
        return false;
    }
    for (i, attr) in attrs.iter().enumerate() {
        if !is_kind(values[i].kind(), attr.kind) {
            return false;
        }
    }
    true
}

// Whether the values of a resource that are told, if it is there, are those of its attributes.
fn fits_resource(tables: &Tables, told: &(ResourceId, ResourceRow)) -> bool
    ensures { result ≡ fits_told resource_kind spec.fits_resource tables.now.resources told.now }
{
    match tables.resource(told.0) {
        Some(resource) => fit_attrs(
            resource.info.attrs.as_slice(),
            told.1.attrs.list().as_slice(),
        ),
        None => true,
    }
}

fn fits_op(tables: &Tables, told: &(AsyncOpId, OpRow)) -> bool
    ensures { result ≡ fits_told op_kind spec.fits_op tables.now.ops told.now }
{
    match tables.op(told.0) {
        Some(op) => fit_attrs(op.info.attrs.as_slice(), told.1.attrs.list().as_slice()),
        None => true,
    }
}

fn resources_fit(tables: &Tables, stats: &[(ResourceId, ResourceRow)]) -> bool
    ensures { result ≡ list_all (fits_told resource_kind spec.fits_resource tables.now.resources) stats.now }
{
    for told in stats {
        if !fits_resource(tables, told) {
            return false;
        }
    }
    true
}

fn ops_fit(tables: &Tables, stats: &[(AsyncOpId, OpRow)]) -> bool
    ensures { result ≡ list_all (fits_told op_kind spec.fits_op tables.now.ops) stats.now }
{
    for told in stats {
        if !fits_op(tables, told) {
            return false;
        }
    }
    true
}

/// Whether each row that a line tells has the attributes of its item, in number and kinds.
pub(crate) fn rows_fit(tables: &Tables, line: &Line) -> bool
    ensures fit { result ≡ (list_all (fits_told resource_kind spec.fits_resource tables.now.resources) line.now.resource_stats
        && list_all (fits_told op_kind spec.fits_op tables.now.ops) line.now.op_stats) }
    ensures distinct { AreDistinct tables.now }
{
    // Whoever counts tables' items learns that no item stands twice.
    tables.task_count();
    resources_fit(tables, line.resource_stats()) && ops_fit(tables, line.op_stats())
}
