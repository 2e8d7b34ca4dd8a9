//! `==` of lists of attributes, attribute by attribute.
//!
//! A list keeps room for more after its attributes, so that `==` is no derive. The laws follow the three fields.
ghost use Rattle.std.specs.Cmp.{and_equiv, and_per, on_equiv, on_per, partial_equiv_from_equiv};
ghost use Rattle.std.specs.Cmp.Lexicographic.{pointwise, lists_equiv, lists_per, options_equiv, nat_list_eq_equiv};
ghost use Rattle.std.specs.Cmp.Rules.{comparing};
ghost use Rattle.std.proofs.Common.{rules};
ghost use Rattle.tk_ids.specs.declared.attr.AttrInfo.{AttrInfo};
ghost use Rattle.tk_ids.specs.declared.attr.AttrSpec.{AttrSpec};

use crate::attr::{AttrInfo, AttrSpec};
use crate::attrs::{AttrInfos, Attrs};

impl PartialEq for Attrs {
    ghost eq = { pointwise ⟦<AttrSpec as PartialEq>⟧.eq };

    ghost laws = { lists_per
        (and_per (on_per (λ (a : AttrSpec). a.name) (partial_equiv_from_equiv nat_list_eq_equiv))
        (and_per (on_per (λ (a : AttrSpec). a.unit) (partial_equiv_from_equiv (options_equiv nat_list_eq_equiv)))
        (on_per (λ (a : AttrSpec). a.first) (Prim.search (comparing, rules))))) };

    fn eq(&self, other: &Attrs) -> bool {
        self.list == other.list
    }
}

impl Eq for Attrs {
    ghost laws = { lists_equiv
        (and_equiv (on_equiv (λ (a : AttrSpec). a.name) nat_list_eq_equiv)
        (and_equiv (on_equiv (λ (a : AttrSpec). a.unit) (options_equiv nat_list_eq_equiv))
        (on_equiv (λ (a : AttrSpec). a.first) (Prim.search (comparing, rules))))) };
}

impl PartialEq for AttrInfos {
    ghost eq = { pointwise ⟦<AttrInfo as PartialEq>⟧.eq };

    ghost laws = { lists_per
        (and_per (on_per (λ (a : AttrInfo). a.name) (partial_equiv_from_equiv nat_list_eq_equiv))
        (and_per (on_per (λ (a : AttrInfo). a.unit) (partial_equiv_from_equiv (options_equiv nat_list_eq_equiv)))
        (on_per (λ (a : AttrInfo). a.kind) (Prim.search (comparing, rules))))) };

    fn eq(&self, other: &AttrInfos) -> bool {
        self.list == other.list
    }
}

impl Eq for AttrInfos {
    ghost laws = { lists_equiv
        (and_equiv (on_equiv (λ (a : AttrInfo). a.name) nat_list_eq_equiv)
        (and_equiv (on_equiv (λ (a : AttrInfo). a.unit) (options_equiv nat_list_eq_equiv))
        (on_equiv (λ (a : AttrInfo). a.kind) (Prim.search (comparing, rules))))) };
}
