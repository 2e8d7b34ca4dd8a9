//! Lists of attributes.

use std::alloc::Global;
use tk_ids::{AttrInfo, AttrInfos, AttrKind, AttrSpec, AttrValue, Attrs, IdError, Name};

// Names of attributes that an item may have.
#[rattlefmt::skip]
const MAY_STAND: [(&str, &[&str]); 4] = [
    ("none",                        &[]),
    ("one",                         &["permits"]),
    ("names that begin alike",      &["permit", "permits"]),
    ("six",                         &["a", "b", "c", "d", "e", "f"]),
];

// Names of attributes that it may not have.
#[rattlefmt::skip]
const MAY_NOT: [(&str, &[&str]); 4] = [
    ("seven",                       &["a", "b", "c", "d", "e", "f", "g"]),
    ("two equal neighbours",        &["permits", "permits"]),
    ("the first and the last",      &["a", "b", "c", "d", "e", "a"]),
    ("two in the middle",           &["a", "b", "c", "b", "d"]),
];

const KINDS: [(AttrValue, AttrKind); 3] = [
    (AttrValue::U64(7), AttrKind::U64),
    (AttrValue::Bool(true), AttrKind::Bool),
    (AttrValue::I64(-7), AttrKind::I64),
];

fn spec(alloc: Global, name: &str) -> Option<AttrSpec> {
    let name = Name::new(alloc, name.as_bytes()).ok();
    let (name, unit) = name.zip(Name::new(alloc, b"bytes").ok())?;
    Some(AttrSpec {
        name,
        unit: Some(unit),
        first: AttrValue::U64(7),
    })
}

fn info(alloc: Global, name: &str) -> Option<AttrInfo> {
    let name = Name::new(alloc, name.as_bytes()).ok()?;
    Some(AttrInfo {
        name,
        unit: None,
        kind: AttrKind::Bool,
    })
}

// Whether it was made, and stands at the list's end.
fn is_pushed<T: Drop>(list: &mut Vec<T>, made: Option<T>) -> bool {
    match made {
        Some(it) => list.push(it).is_ok(),
        None => false,
    }
}

fn specs_of(alloc: Global, names: &[&str]) -> Option<Vec<AttrSpec>> {
    let mut list = Vec::new(alloc);
    for name in names {
        if !is_pushed(&mut list, spec(alloc, name)) {
            drop(list);
            return None;
        }
    }
    Some(list)
}

fn infos_of(alloc: Global, names: &[&str]) -> Option<Vec<AttrInfo>> {
    let mut list = Vec::new(alloc);
    for name in names {
        if !is_pushed(&mut list, info(alloc, name)) {
            drop(list);
            return None;
        }
    }
    Some(list)
}

// Whether a list is the wanted one. Both are let go.
fn is_list<T: PartialEq + Drop>(list: Vec<T>, wanted: Vec<T>) -> bool {
    list.as_slice() == wanted.as_slice()
}

// Whether a list of specs is kept, and given out again.
fn are_specs_kept(list: Vec<AttrSpec>, wanted: Vec<AttrSpec>) -> bool {
    let Some((attrs, wanted)) = Attrs::new(list).ok().zip(Some(wanted)) else {
        return false;
    };
    let is_shown = attrs.as_slice() == wanted.as_slice();
    is_list(attrs.into_vec(), wanted) && is_shown
}

// Whether a list of infos is kept, and given out again.
fn are_infos_kept(list: Vec<AttrInfo>, wanted: Vec<AttrInfo>) -> bool {
    let Some((infos, wanted)) = AttrInfos::new(list).ok().zip(Some(wanted)) else {
        return false;
    };
    let is_shown = infos.as_slice() == wanted.as_slice();
    is_list(infos.into_vec(), wanted) && is_shown
}

// Whether a clone of infos has the same list.
fn are_infos_cloned(list: Vec<AttrInfo>) -> bool {
    let Some(infos) = AttrInfos::new(list).ok() else {
        return false;
    };
    match infos.clone().ok() {
        Some(clone) => is_list(clone.into_vec(), infos.into_vec()),
        None => {
            drop(infos);
            false
        }
    }
}

// Whether a list of specs is refused, and handed back.
fn are_specs_refused(list: Vec<AttrSpec>, wanted: Vec<AttrSpec>) -> bool {
    match Attrs::new(list).err().zip(Some(wanted)) {
        Some(((error, list), wanted)) => {
            is_list(list, wanted) && error == IdError::BadAttributes
        }
        None => false,
    }
}

// Whether a list of infos is refused, and handed back.
fn are_infos_refused(list: Vec<AttrInfo>, wanted: Vec<AttrInfo>) -> bool {
    match AttrInfos::new(list).err().zip(Some(wanted)) {
        Some(((error, list), wanted)) => {
            is_list(list, wanted) && error == IdError::BadAttributes
        }
        None => false,
    }
}

// Whether a check holds of two lists of specs of these names.
fn of_specs<F: FnOnce(Vec<AttrSpec>, Vec<AttrSpec>) -> bool>(
    alloc: Global,
    names: &[&str],
    check: F,
) -> bool
    requires { F.IsAlwaysCallable check }
{
    match specs_of(alloc, names).zip(specs_of(alloc, names)) {
        Some((list, wanted)) => check(list, wanted),
        None => false,
    }
}

// Whether a check holds of two lists of infos of these names.
fn of_infos<F: FnOnce(Vec<AttrInfo>, Vec<AttrInfo>) -> bool>(
    alloc: Global,
    names: &[&str],
    check: F,
) -> bool
    requires { F.IsAlwaysCallable check }
{
    match infos_of(alloc, names).zip(infos_of(alloc, names)) {
        Some((list, wanted)) => check(list, wanted),
        None => false,
    }
}

#[test]
fn keeps_specs_that_may_stand(rt: HostRuntime) {
    for (case, names) in MAY_STAND {
        assert!(rt; of_specs(rt.alloc(), names, are_specs_kept), "{case}");
    }
}

#[test]
fn keeps_infos_that_may_stand(rt: HostRuntime) {
    for (case, names) in MAY_STAND {
        assert!(rt; of_infos(rt.alloc(), names, are_infos_kept), "{case}");
        assert!(rt;
            infos_of(rt.alloc(), names).is_some_and(are_infos_cloned),
            "{case}"
        );
    }
}

#[test]
fn hands_back_specs_that_may_not(rt: HostRuntime) {
    for (case, names) in MAY_NOT {
        assert!(rt; of_specs(rt.alloc(), names, are_specs_refused), "{case}");
    }
}

#[test]
fn hands_back_infos_that_may_not(rt: HostRuntime) {
    for (case, names) in MAY_NOT {
        assert!(rt; of_infos(rt.alloc(), names, are_infos_refused), "{case}");
    }
}

fn are_equal<T: PartialEq + Drop>(left: Option<T>, right: Option<T>) -> Option<bool> {
    let (left, right) = left.zip(right)?;
    Some(left == right)
}

fn specs(alloc: Global, names: &[&str]) -> Option<Attrs> {
    Attrs::new(specs_of(alloc, names)?).ok()
}

fn infos(alloc: Global, names: &[&str]) -> Option<AttrInfos> {
    AttrInfos::new(infos_of(alloc, names)?).ok()
}

fn are_specs_equal(alloc: Global, left: &[&str], right: &[&str]) -> Option<bool> {
    are_equal(specs(alloc, left), specs(alloc, right))
}

fn are_infos_equal(alloc: Global, left: &[&str], right: &[&str]) -> Option<bool> {
    are_equal(infos(alloc, left), infos(alloc, right))
}

#[test]
fn lists_are_equal_attribute_by_attribute(rt: HostRuntime) {
    let alloc = rt.alloc();
    assert!(rt;
        are_specs_equal(alloc, &["a", "b"], &["a", "b"]) == Some(true),
        "the same attributes"
    );
    assert!(rt;
        are_specs_equal(alloc, &["a", "b"], &["b", "a"]) == Some(false),
        "another order"
    );
    assert!(rt;
        are_infos_equal(alloc, &["a", "b"], &["a", "b"]) == Some(true),
        "the same infos"
    );
    assert!(rt;
        are_infos_equal(alloc, &["a", "b"], &["a"]) == Some(false),
        "fewer infos"
    );
}

#[test]
fn tells_the_kind_of_a_value(rt: HostRuntime) {
    for (value, kind) in KINDS {
        assert_eq!(rt; value.kind(), kind, "{value:?}");
    }
}
