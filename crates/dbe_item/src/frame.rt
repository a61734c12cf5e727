ghost use Rattle.std.specs.Prelude.{◌≡◌, ◌↔◌, true, ℕ, List, None, IfOk, IfErr, IfSome, IsTrue, get_or, length};
ghost use Rattle.std.specs.List.Sorted.{IsStrictlySortedBy};
ghost use Rattle.dbe_values.specs.Keys.{is_lawful_key, key_of};
ghost use Rattle.dbe_values.specs.KeyValues.{key_view};
ghost use Rattle.dbe_values.specs.declared.value.AttrValue.{AttrValue};
ghost use Rattle.dbe_canon.specs.Path.{name_cmp};
ghost use Rattle.dbe_config.specs.Setting.{Setting};
ghost use Rattle.dbe_frame.specs.Header.{IsHeader};
ghost use Rattle.dbe_frame.specs.Signed.{signed_names};
ghost use Rattle.dbe_frame.specs.Sizes.{signed_only};
ghost use Rattle.dbe_item.specs.Names.{head_name, number_of};
ghost use Rattle.dbe_item.specs.Opens.{HasBinary, HasHeader, FitsLegend, HasSignedKey, HasFooter, IsFramed};
ghost use Rattle.dbe_item.specs.Reasons.{IsReason};

use crate::OpenFault;
use crate::numbers::number_of;
use dbe_config::Config;
use dbe_frame::{FrameFault, Header, canonical_order, read, read_footer, signed_names};
use dbe_num::Text;
use dbe_values::{AttrValue, Item, KeyError, KeySchema, KeyValue, read_key};
use std::alloc::Global;

const SIGNED_ONLY: u8 = b's';

/// What is asked of a row before a data key is sought: its header and the bytes of it, the signed names in canonical
/// order, its key and the tags of its footer.
#[derive(Drop)]
pub(crate) struct Frame<'a> {
    pub(crate) bytes: &'a [u8],
    pub(crate) header: Header,
    pub(crate) names: Vec<Text>,
    pub(crate) key: KeyValue,
    pub(crate) tags: Vec<[u8; 48]>,
}

/// The frame of a row, or the first condition of it that fails.
pub(crate) fn read_frame<'a>(
    alloc: Global,
    config: &Config,
    row: &'a Item,
) -> Result<Frame<'a>, OpenFault>
    ensures framed { IfOk result (λ f. IsFramed config.now row.now f.header f.tags.items) }
    ensures bytes { IfOk result (λ f. IsHeader f.header f.bytes.now) }
    ensures names { IfOk result (λ f. f.names.items ≡ signed_names config.now row.now) }
    ensures key { IfOk result (λ f. key_view f.key ≡ key_of config.now.schema row.now) }
    ensures lawful { IfOk result (λ f. is_lawful_key config.now.schema (key_view f.key) ≡ true) }
    ensures fault { IfErr result (λ f. IsReason f config.now row.now) }
{
    let Some(bytes) = binary(row, "aws_dbe_head") else {
        return Err(OpenFault::NoHeader);
    };
    let header = match read_header(alloc, bytes) {
        Ok(header) => header,
        Err(fault) => return Err(fault),
    };
    let names = signed_names(alloc, config, row)?;
    if header.legend().len() != names.len() {
        return Err(OpenFault::LegendLength);
    }
    let key = match signed_key(alloc, config, row, &names, &header) {
        Ok(key) => key,
        Err(fault) => return Err(fault),
    };
    let tags = match read_tags(alloc, config, row, &header) {
        Ok(tags) => tags,
        Err(fault) => return Err(fault),
    };
    Ok(Frame {
        bytes,
        header,
        names,
        key,
        tags,
    })
}

/// The bytes of a binary attribute.
pub(crate) fn binary<'a>(row: &'a Item, name: &str) -> Option<&'a [u8]>
    ensures some { IfSome result (λ b. HasBinary name.now row.now b.now) }
    ensures none { result ≡ None → (bytes : List ℕ) → HasBinary name.now row.now bytes → ⊥ }
{
    match row.get(name) {
        Some(AttrValue::B(bytes)) => Some(bytes.as_slice()),
        _ => None,
    }
}

fn read_header(alloc: Global, bytes: &[u8]) -> Result<Header, OpenFault>
    ensures header { IfOk result (λ h. IsHeader h bytes.now) }
    ensures fault { IfErr result (λ f. (c : Setting) (row : List (List ℕ × AttrValue)) → HasBinary head_name row bytes.now → IsReason f c row) }
{
    match read(alloc, bytes) {
        Ok(header) => Ok(header),
        Err(FrameFault::HeaderFault { at }) => Err(OpenFault::HeaderFault { at }),
        Err(_) => Err(OpenFault::Memory),
    }
}

/// The key of a row whose legend says of each key attribute that it is signed only.
fn signed_key(
    alloc: Global,
    config: &Config,
    row: &Item,
    names: &[Text],
    header: &Header,
) -> Result<KeyValue, OpenFault>
    requires header { HasHeader row.now header.now }
    requires legend { FitsLegend config.now row.now header.now }
    requires names { names.now ≡ signed_names config.now row.now }
    ensures signed { IfOk result (λ _. HasSignedKey config.now row.now header.now) }
    ensures key { IfOk result (λ k. key_view k ≡ key_of config.now.schema row.now) }
    ensures lawful { IfOk result (λ k. is_lawful_key config.now.schema (key_view k) ≡ true) }
    ensures fault { IfErr result (λ f. IsReason f config.now row.now) }
{
    row.is_lawful();
    canonical_order();
    if !is_key_signed(config.schema(), names, header.legend()) {
        return Err(OpenFault::KeyLegend);
    }
    match read_key(alloc, config.schema(), row) {
        Ok(key) => Ok(key),
        Err(KeyError::Bad { .. }) => Err(OpenFault::KeyLegend),
        Err(KeyError::Memory) => Err(OpenFault::Memory),
    }
}

/// Whether the legend says of each key attribute that it is signed only.
fn is_key_signed(schema: &KeySchema, names: &[Text], legend: &[u8]) -> bool
    requires order { IsStrictlySortedBy name_cmp names.now }
    requires legend { length legend.now ≡ length names.now }
    ensures { IsTrue result ↔ ((get_or legend.now (number_of schema.now.partition.name names.now) 0 ≡ signed_only)
        × IfSome schema.now.sort (λ key. get_or legend.now (number_of key.name names.now) 0 ≡ signed_only)) }
{
    let partition = is_signed_only(names, legend, &schema.partition.name);
    match &schema.sort {
        Some(sort) => partition && is_signed_only(names, legend, &sort.name),
        None => partition,
    }
}

/// Whether the legend says of a name that it is signed only.
fn is_signed_only(names: &[Text], legend: &[u8], name: &Text) -> bool
    requires order { IsStrictlySortedBy name_cmp names.now }
    requires legend { length legend.now ≡ length names.now }
    ensures { IsTrue result ↔ (get_or legend.now (number_of name.now names.now) 0 ≡ signed_only) }
{
    match number_of(names, name) {
        Some(i) => legend[i] == SIGNED_ONLY,
        None => false,
    }
}

/// The tags of a row's footer, one for each encrypted data key.
fn read_tags(
    alloc: Global,
    config: &Config,
    row: &Item,
    header: &Header,
) -> Result<Vec<[u8; 48]>, OpenFault>
    requires header { HasHeader row.now header.now }
    requires legend { FitsLegend config.now row.now header.now }
    requires key { HasSignedKey config.now row.now header.now }
    ensures tags { IfOk result (λ tags. HasFooter row.now (length header.now.edks) tags.items) }
    ensures fault { IfErr result (λ f. IsReason f config.now row.now) }
{
    let Some(bytes) = binary(row, "aws_dbe_foot") else {
        return Err(OpenFault::FooterLength);
    };
    match read_footer(alloc, bytes, header.edks().as_slice().len()) {
        Ok(tags) => Ok(tags),
        Err(FrameFault::FooterLength) => Err(OpenFault::FooterLength),
        Err(_) => Err(OpenFault::Memory),
    }
}
