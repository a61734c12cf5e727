ghost use Rattle.std.specs.Prelude.{◌≡◌, option_map};
ghost use Rattle.dbe_item.specs.Acceptance.{first_name};
ghost use Rattle.dbe_item.specs.Names.{is_beacon_name};

use dbe_num::Text;
use dbe_values::Item;

/// The first name of a row that dbe keeps for itself, header and footer apart. Takes no memory.
pub fn first_beacon(row: &Item) -> Option<&Text>
    ensures { option_map (λ n. n.now) result ≡ first_name is_beacon_name row.now }
{
    for i in 0..row.len() {
        let (name, _) = row.at(i);
        if is_beacon_name(name.as_bytes()) {
            return Some(name);
        }
    }
    None
}

fn is_beacon_name(name: &[u8]) -> bool
    ensures { result ≡ is_beacon_name name.now }
{
    name.starts_with(b"aws_dbe_")
        && name != b"aws_dbe_head".as_slice()
        && name != b"aws_dbe_foot".as_slice()
}
