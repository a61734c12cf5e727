ghost use Rattle.std.specs.Prelude.{◌≡◌, false, true, IfOk, None, length};
ghost use Rattle.std.specs.List.{All};
ghost use Rattle.dbe_values.specs.Attributes.{put_at};
ghost use Rattle.dbe_values.specs.declared.value.AttrValue.{B};
ghost use Rattle.dbe_config.specs.Rules.{is_empty_list};
ghost use Rattle.dbe_item.specs.Acceptance.{put_fault};
ghost use Rattle.dbe_item.specs.Names.{foot_name, head_name, is_beacon_name};
ghost use Rattle.dbe_item.specs.Sealed.{draw_length, put_all, sealed_row};

use crate::Rings;
use crate::attributes::sealed_attributes;
use crate::foot::sealed_foot;
use crate::framing::{put_all, put_binary};
use crate::head::sealed_head;
use crate::legend::legend_of;
use crate::marked::marked_names;
use crate::parts::part;
use dbe_frame::{canonical_order, signed_names};
use dbe_itemkeys::ItemKeys;
use dbe_num::Memory;
use dbe_values::Item;
use std::alloc::Global;

/// The sealed row of an item: each attribute that the configuration encrypts becomes a field, and header, footer and
/// beacon attributes are added.
///
/// `drawn` are the drawn bytes, as many as `draw_length` says. `beacons` are the beacon attributes: their names begin
/// with `aws_dbe_`, and are neither that of the header nor that of the footer. Fails only where memory runs out.
pub fn seal(
    alloc: Global,
    rings: &Rings,
    drawn: &[u8],
    beacons: &Item,
    item: &Item,
) -> Result<Item, Memory>
    requires sealed { is_empty_list rings.now.recipients ≡ false }
    requires accepted { put_fault rings.now item.now ≡ None }
    requires drawn { length drawn.now ≡ draw_length rings.now }
    requires beacons { All (λ a. is_beacon_name a.0 ≡ true) beacons.now }
    ensures { IfOk result (λ row. row ≡ sealed_row rings.now drawn.now beacons.now item.now) }
{
    item.is_lawful();
    canonical_order();
    let config = rings.config();
    let message_id = part(drawn, 0);
    let data_key = part(drawn, 32);
    let keys = ItemKeys::new(rings.salt(), &data_key, &message_id);
    let names = signed_names(alloc, config, item)?;
    let legend = legend_of(alloc, config, &names)?;
    let encrypted = marked_names(alloc, &names, &legend)?;
    let head = sealed_head(alloc, rings, drawn, item, &keys, legend)?;
    let row = sealed_attributes(alloc, config, &keys, &encrypted, item)?;
    let foot = sealed_foot(alloc, &head, config.table(), &row, &names)?;
    let row = framed(alloc, row, head.bytes, foot, beacons)?;
    Ok(row)
}

/// A row with its header, its footer and its beacon attributes.
fn framed(
    alloc: Global,
    mut row: Item,
    head: Vec<u8>,
    foot: Vec<u8>,
    beacons: &Item,
) -> Result<Item, Memory>
    ensures { IfOk result (λ r. r ≡ put_all beacons.now (put_at foot_name (B foot.items) (put_at head_name (B head.items) row))) }
{
    put_binary(alloc, &mut row, "aws_dbe_head", head)?;
    put_binary(alloc, &mut row, "aws_dbe_foot", foot)?;
    put_all(alloc, &mut row, beacons)?;
    Ok(row)
}
