ghost use Rattle.std.specs.Prelude.{◌≡◌, [], false, true, IfOk, length, map, take};
ghost use Rattle.sha2.specs.Sha512.{sha384};
ghost use Rattle.dbe_kdf.specs.Hmac.{hmac};
ghost use Rattle.dbe_values.specs.Keys.{has_key};
ghost use Rattle.dbe_config.specs.Rules.{is_empty_list};
ghost use Rattle.dbe_itemkeys.specs.ItemKeys.{item_keys};
ghost use Rattle.dbe_frame.specs.Header.{AreEdks, IsLegend, header_prefix, header_text};
ghost use Rattle.dbe_frame.specs.Signed.{signed_names};
ghost use Rattle.dbe_frame.specs.Sizes.{version_1};
ghost use Rattle.dbe_item.specs.Names.{legend_byte};
ghost use Rattle.dbe_item.specs.Sealed.{draw_length, drawn_id, drawn_key, item_wraps, sealed_header, stored_pairs};
ghost use Rattle.dbe_item.specs.Sealing.{committed};

use crate::Rings;
use crate::parts::part;
use crate::stored::stored_pairs;
use crate::wraps::item_wraps;
use dbe_config::Config;
use dbe_frame::{Edks, Header, commitment_last, write};
use dbe_itemkeys::ItemKeys;
use dbe_num::{Bytes, Memory};
use dbe_rawring::Edk;
use dbe_values::Item;
use std::alloc::Global;

const COMMITMENT_BYTES: usize = 32;

/// The header of an item, its bytes, and the keys with which the recipients sign.
#[derive(Drop)]
pub(crate) struct Head {
    pub(crate) header: Header,
    pub(crate) bytes: Vec<u8>,
    pub(crate) signing: Vec<[u8; 48]>,
}

/// The header of an item. The bytes have the commitment, the parts have none yet.
pub(crate) fn sealed_head(
    alloc: Global,
    rings: &Rings,
    drawn: &[u8],
    item: &Item,
    keys: &ItemKeys,
    legend: Vec<u8>,
) -> Result<Head, Memory>
    requires recipients { is_empty_list rings.now.recipients ≡ false }
    requires key { has_key rings.now.schema item.now ≡ true }
    requires drawn { length drawn.now ≡ draw_length rings.now }
    requires keys { keys.now ≡ item_keys (drawn_key drawn.now) (drawn_id drawn.now) }
    requires legend { legend.items ≡ map (legend_byte rings.now) (signed_names rings.now item.now) }
    requires rules { IsLegend version_1 legend.items }
    ensures bytes { IfOk result (λ h. h.bytes.items ≡ header_text (sealed_header rings.now drawn.now item.now)) }
    ensures legend { IfOk result (λ h. h.header.legend ≡ legend.items) }
    ensures signing { IfOk result (λ h. h.signing.items ≡ map (λ x. x.signing) (item_wraps rings.now drawn.now item.now)) }
{
    let config = rings.config();
    config.keeps_built();
    config.keeps_few_recipients();
    commitment_last();
    let wraps = item_wraps(alloc, rings, drawn, item)?;
    let header = uncommitted(alloc, config, part(drawn, 0), legend, wraps.edks)?;
    let bytes = committed_bytes(alloc, &header, keys)?;
    Ok(Head {
        header,
        bytes,
        signing: wraps.signing,
    })
}

/// A header whose commitment is not known yet.
fn uncommitted(
    alloc: Global,
    config: &Config,
    message_id: [u8; 32],
    legend: Vec<u8>,
    edks: Vec<Edk>,
) -> Result<Header, Memory>
    requires legend { IsLegend version_1 legend.items }
    requires edks { AreEdks edks.items }
    ensures { IfOk result (λ h. committed h [] ≡ record { message_id = message_id; legend = legend.items; context = stored_pairs config.now; edks = edks.items; commitment = [] }) }
{
    config.keeps_bounds();
    let pairs = stored_pairs(alloc, config.context())?;
    let legend = Bytes::from_vec(legend);
    Ok(Header::new(
        message_id,
        legend,
        pairs,
        Edks::from_vec(edks),
        [0; COMMITMENT_BYTES],
    ))
}

/// The bytes of a header, with the commitment of its prefix in place of the one that it has.
pub(crate) fn committed_bytes(
    alloc: Global,
    header: &Header,
    keys: &ItemKeys,
) -> Result<Vec<u8>, Memory>
    ensures { IfOk result (λ bytes. bytes.items ≡ header_text (committed header.now (take 32 (hmac sha384 keys.now.commit (header_prefix header.now))))) }
{
    header.has_parts();
    commitment_last();
    let mut bytes = write(alloc, header)?;
    let end = bytes.len() - COMMITMENT_BYTES;
    bytes.truncate(end);
    let commitment = keys.commitment(&bytes);
    bytes.extend_from_slice(&commitment)?;
    Ok(bytes)
}
