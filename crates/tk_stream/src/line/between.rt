//! What a line tells of the items of new tables.
ghost use Rattle.std.specs.Prelude.{◌≡◌, ◌++◌, ◌≤◌, length, IfOk, OnOk};
ghost use Rattle.tk_stream.specs.Lines as lines;
ghost use Rattle.tk_stream.specs.Kept.{kept};
ghost use Rattle.tk_stream.specs.Fronts as fronts;

use crate::tables::table::Table;
use crate::told::rows::ToldRows;
use crate::told::{Described, Told};
use std::alloc::{AllocError, Global};

fn is_new<T: Described>(old: &Table<T>, item: &T) -> bool
    ensures { result ≡ lines.is_new T.id_of old.now item.now }
{
    old.with_id(item.id()).is_none()
}

fn is_told<T: Told>(old: &Table<T>, item: &T) -> bool
    ensures { result ≡ lines.is_told T.id_of T.same old.now item.now }
{
    match old.with_id(item.id()) {
        Some(before) => !before.is_same(item),
        None => true,
    }
}

fn keep_info<T: Described>(list: &mut Vec<T::Info>, keeps: bool, item: &T) -> Result<(), AllocError>
    ensures { OnOk result (list.new.items ≡ list.old.items ++ kept keeps (T.info_of item.now)) }
{
    if keeps {
        list.push(item.copy_info()?)?;
    }
    Ok(())
}

fn keep_stats<T: Told>(list: &mut Vec<T::Stats>, keeps: bool, item: &T) -> Result<(), AllocError>
    ensures { OnOk result (list.new.items ≡ list.old.items ++ kept keeps (T.stats_of item.now)) }
{
    if keeps {
        list.push(item.stats())?;
    }
    Ok(())
}

/// What stays of the items that are new.
pub(crate) fn new_infos<T: Described>(
    alloc: Global,
    old: &Table<T>,
    new: &Table<T>,
) -> Result<Vec<T::Info>, AllocError>
    ensures { IfOk result (λ v. v.items ≡ lines.new_infos T.id_of T.info_of old.now new.now) }
{
    let mut list = Vec::new(alloc);
    for i in 0..new.len() {
        let item = new.at(i).unwrap();
        keep_info(&mut list, is_new(old, item), item)?;
    }
    Ok(list)
}

/// What changes of the items that are new or not the same.
pub(crate) fn told_stats<T: Told>(
    alloc: Global,
    old: &Table<T>,
    new: &Table<T>,
) -> Result<Vec<T::Stats>, AllocError>
    ensures { IfOk result (λ v. v.items ≡ lines.told_stats T.id_of T.same T.stats_of old.now new.now) }
{
    let mut list = Vec::new(alloc);
    for i in 0..new.len() {
        let item = new.at(i).unwrap();
        keep_stats(&mut list, is_told(old, item), item)?;
    }
    Ok(list)
}

/// What stays of the items after the first so many.
pub(crate) fn infos_after<T: Described>(
    alloc: Global,
    told: &ToldRows<T>,
    new: &Table<T>,
) -> Result<Vec<T::Info>, AllocError>
    requires { length told.now.rows ≤ length new.now }
    ensures { IfOk result (λ v. v.items ≡ lines.new_infos T.id_of T.info_of (fronts.with_rows (fronts.as_told T.with_row) new.now told.now.rows) new.now) }
{
    let mut list = Vec::new(alloc);
    for i in told.count()..new.len() {
        list.push(new.at(i).unwrap().copy_info()?)?;
    }
    Ok(list)
}

/// What changes of the items that were not told of, or whose row is not the same as the one that was told. No other row is read.
pub(crate) fn stats_beside<T: Told>(
    alloc: Global,
    told: &ToldRows<T>,
    new: &Table<T>,
) -> Result<Vec<T::Stats>, AllocError>
    ensures { IfOk result (λ v. v.items ≡ lines.told_stats T.id_of T.same T.stats_of (fronts.with_rows (fronts.as_told T.with_row) new.now told.now.rows) new.now) }
{
    let mut list = Vec::new(alloc);
    for i in 0..new.len() {
        let item = new.at(i).unwrap();
        keep_stats(&mut list, told.differs(i, item), item)?;
    }
    Ok(list)
}
