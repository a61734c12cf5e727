ghost use Rattle.dbe_config.specs.Shape.{virtual_in, virtual_part_in};

use crate::spelled::{Spelled, list_in};
use crate::spelling::{any_text_in, text_in};
use crate::{TextSteps, Virtual, VirtualPart, VirtualParts};
use dbe_num::{Memory, Text};
use dbe_values::size_of;
use serde_json::Value;
use std::alloc::Global;

impl Spelled for VirtualPart {
    ghost spelled = { virtual_part_in };

    fn read_from(alloc: Global, value: &Value) -> Result<Option<VirtualPart>, Memory> {
        if size_of(value) != 2 {
            return Ok(None);
        }
        let Some(from) = any_text_in(value.get("from")) else {
            return Ok(None);
        };
        let Some(steps) = list_in(alloc, value.get("steps"), 16)? else {
            return Ok(None);
        };
        Ok(Some(VirtualPart {
            from: Text::copy_of(alloc, from)?,
            steps: TextSteps::from_vec(steps),
        }))
    }
}

impl Spelled for Virtual {
    ghost spelled = { virtual_in };

    fn read_from(alloc: Global, value: &Value) -> Result<Option<Virtual>, Memory> {
        if size_of(value) != 2 {
            return Ok(None);
        }
        let Some(name) = text_in(value.get("name"), 1, 245) else {
            return Ok(None);
        };
        let Some(parts) = list_in(alloc, value.get("parts"), 16)? else {
            return Ok(None);
        };
        if parts.is_empty() {
            return Ok(None);
        }
        Ok(Some(Virtual {
            name: Text::copy_of(alloc, name)?,
            parts: VirtualParts::from_vec(parts),
        }))
    }
}
