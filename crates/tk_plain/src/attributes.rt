//! The attributes that a command declares, as tables keep them.

use std::alloc::{AllocError, Global};
use tk_ids::{AttrInfo, AttrInfos, AttrSpec, AttrValue, Attrs};

/// The most attributes of an item.
const MOST: usize = 6;

fn info_of(attr: &AttrSpec) -> Result<AttrInfo, AllocError> {
    let name = attr.name.clone()?;
    let unit = attr.unit.clone()?;
    Ok(AttrInfo {
        name,
        unit,
        kind: attr.first.kind(),
    })
}

/// What stays of the attributes while their values change.
pub(crate) fn infos_of(alloc: Global, attrs: &Attrs) -> Result<AttrInfos, AllocError> {
    let mut list = Vec::new(alloc);
    for attr in attrs.as_slice() {
        list.push(info_of(attr)?)?;
    }
    match AttrInfos::new(list) {
        Ok(infos) => Ok(infos),
        Err(_) => Err(AllocError),
    }
}

/// Their first values, of the first six.
pub(crate) fn firsts_of(alloc: Global, attrs: &Attrs) -> Result<Vec<AttrValue>, AllocError> {
    let mut firsts = Vec::new(alloc);
    for attr in attrs.as_slice() {
        firsts.push(attr.first)?;
    }
    firsts.truncate(MOST);
    Ok(firsts)
}
