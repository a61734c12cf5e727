ghost use Rattle.std.specs.Prelude.{◌≡◌, IfOk, option_map};
ghost use Rattle.serde_json.specs.View.{view};
ghost use Rattle.dbe_config.specs.Shape.{recipient_in, raw_in, branch_in, branch_id_in, key_bytes_of};

use crate::Recipient;
use crate::spelled::Spelled;
use crate::spelling::{any_text_in, text_in};
use dbe_num::{Memory, Text};
use dbe_values::{BranchId, size_of};
use hex::FromHex;
use serde_json::Value;
use std::alloc::Global;

impl Spelled for Recipient {
    ghost spelled = { recipient_in };

    fn read_from(alloc: Global, value: &Value) -> Result<Option<Recipient>, Memory> {
        let Some(kind) = any_text_in(value.get("kind")) else {
            return Ok(None);
        };
        match kind {
            "raw" => raw_in(alloc, value),
            "branch" => Ok(branch_in(value)),
            _ => Ok(None),
        }
    }
}

fn raw_in(alloc: Global, value: &Value) -> Result<Option<Recipient>, Memory>
    ensures { IfOk result (λ r. r ≡ raw_in (view value.now)) }
{
    if size_of(value) != 4 {
        return Ok(None);
    }
    let Some(namespace) = text_in(value.get("namespace"), 1, 255) else {
        return Ok(None);
    };
    if namespace == "dbe-hierarchy" {
        return Ok(None);
    }
    let Some(name) = text_in(value.get("name"), 1, 255) else {
        return Ok(None);
    };
    let Some(digits) = any_text_in(value.get("key")) else {
        return Ok(None);
    };
    let Some(key) = key_bytes_of(digits) else {
        return Ok(None);
    };
    Ok(Some(Recipient::Raw {
        namespace: Text::copy_of(alloc, namespace)?,
        name: Text::copy_of(alloc, name)?,
        key,
    }))
}

fn key_bytes_of(digits: &str) -> Option<[u8; 32]>
    ensures { result ≡ key_bytes_of digits.now }
{
    <[u8; 32] as FromHex>::from_hex(digits).ok()
}

fn branch_in(value: &Value) -> Option<Recipient>
    ensures { result ≡ branch_in (view value.now) }
{
    if size_of(value) != 2 {
        return None;
    }
    let branch = branch_id_in(value.get("branch")?)?;
    Some(Recipient::Branch { branch })
}

pub(crate) fn branch_id_in(value: &Value) -> Option<BranchId>
    ensures { result ≡ branch_id_in (view value.now) }
{
    BranchId::read(value.as_str()?.as_bytes())
}
