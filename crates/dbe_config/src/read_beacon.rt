ghost use Rattle.std.specs.Prelude.{◌≡◌, option_map};
ghost use Rattle.serde_json.specs.View.{view};
ghost use Rattle.dbe_config.specs.Shape.{standard_in, length_of, length_in};

use crate::Standard;
use crate::spelled::Spelled;
use crate::spelling::any_text_in;
use dbe_num::{Memory, Text};
use dbe_values::size_of;
use serde_json::Value;
use std::alloc::Global;

impl Spelled for Standard {
    ghost spelled = { standard_in };

    fn read_from(alloc: Global, value: &Value) -> Result<Option<Standard>, Memory> {
        if size_of(value) != 2 {
            return Ok(None);
        }
        let Some(name) = any_text_in(value.get("name")) else {
            return Ok(None);
        };
        let Some(length) = length_in(value.get("length")) else {
            return Ok(None);
        };
        Ok(Some(Standard {
            name: Text::copy_of(alloc, name)?,
            length,
        }))
    }
}

// The length of a hash, or 0 where the number is not from 1 to 63.
#[tactic(auto, using(crate::proofs::Known::length_unsigned, crate::proofs::Known::length_negative, crate::proofs::Known::length_none))]
fn length_in(value: Option<&Value>) -> Option<u8>
    ensures { result ≡ length_in (option_map (λ v. view v.now) value.entry) }
{
    let value = value?;
    match value.as_u64() {
        Some(n) => if 1 <= n && n <= 63 {
            Some(n as u8)
        } else {
            Some(0)
        },
        None => if value.is_i64() { Some(0) } else { None },
    }
}
