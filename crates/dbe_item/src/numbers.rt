ghost use Rattle.std.specs.Prelude.{◌≡◌, ◌<◌, bytes_eq, length, is_some, IfSome};
ghost use Rattle.std.specs.List.{list_any};
ghost use Rattle.std.specs.List.Sorted.{IsStrictlySortedBy};
ghost use Rattle.dbe_canon.specs.Path.{name_cmp};
ghost use Rattle.dbe_item.specs.Names.{number_of};

use dbe_canon::name_order;
use dbe_num::Text;

/// The number of a name among names in canonical order, from 0.
pub(crate) fn number_of(names: &[Text], name: &Text) -> Option<usize>
    requires { IsStrictlySortedBy name_cmp names.now }
    ensures number { IfSome result (λ i. i ≡ number_of name.now names.now) }
    ensures within { IfSome result (λ i. i < length names.now) }
    ensures some { is_some result ≡ list_any (bytes_eq name.now) names.now }
{
    let found = names.binary_search_by(|other| name_order(other.as_bytes(), name.as_bytes()));
    found.ok()
}
