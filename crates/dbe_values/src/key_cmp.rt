ghost use Rattle.dbe_values.specs.KeyValues.{keys_cmp, keys_cmp-total};

use crate::{KeyValue, key_order};
use std::cmp::Ordering;

impl PartialEq for KeyValue {
    ghost use Rattle.std.specs.Cmp.{eq_by_cmp_equiv, partial_equiv_from_equiv};
    ghost use Rattle.std.specs.Ordering.{eq_by_cmp};

    ghost eq = { eq_by_cmp keys_cmp };

    ghost laws = { partial_equiv_from_equiv (eq_by_cmp_equiv keys_cmp-total) };

    fn eq(&self, other: &KeyValue) -> bool {
        key_order(self, other) == Ordering::Equal
    }
}

impl Eq for KeyValue {
    ghost use Rattle.std.specs.Cmp.{eq_by_cmp_equiv};

    ghost laws = { eq_by_cmp_equiv keys_cmp-total };
}

impl PartialOrd for KeyValue {
    ghost use Rattle.std.specs.Cmp.{partial_order_from_total};
    ghost use Rattle.std.specs.Ordering.{as_partial_cmp};

    ghost partial_cmp = { as_partial_cmp keys_cmp };

    ghost laws = { partial_order_from_total keys_cmp-total };

    fn partial_cmp(&self, other: &KeyValue) -> Option<Ordering> {
        Some(key_order(self, other))
    }
}

impl Ord for KeyValue {
    ghost use Rattle.std.proofs.Common.{refl};

    ghost cmp = { keys_cmp };

    ghost total = { keys_cmp-total };

    ghost matches_partial_cmp = { λ a b. refl };

    ghost matches_eq = { λ a b. refl };

    fn cmp(&self, other: &KeyValue) -> Ordering {
        key_order(self, other)
    }
}
