use crate::answer::halves;
use crate::bytes::{bytes_of, digits_of};
use crate::stop::Stop;
use dbe_config::Config;
use dbe_frame::{record_text, signed_names};
use dbe_values::{Item, item_from_json, json_value};
use std::alloc::Global;

/// `CONFIG ROW`: the signed names of a row.
pub fn names(alloc: Global, case: &str) -> Result<String, Stop> {
    let (config, row) = halves(case)?;
    let names = signed_names(alloc, &config_of(alloc, config)?, &item_of(alloc, row)?)?;
    let mut out = String::new(alloc);
    for name in &names {
        out.push_str(name.as_str())?;
        out.push_str(" ")?;
    }
    Ok(out)
}

/// `HEAD LEGEND CONFIG ROW`: the record text of a row behind these bytes of a header.
pub fn record(alloc: Global, case: &str) -> Result<String, Stop> {
    let (head, rest) = halves(case)?;
    let (legend, rest) = halves(rest)?;
    let (config, row) = halves(rest)?;
    record_of(
        alloc,
        &bytes_of(alloc, head)?,
        &bytes_of(alloc, legend)?,
        &config_of(alloc, config)?,
        &item_of(alloc, row)?,
    )
}

fn record_of(
    alloc: Global,
    head: &[u8],
    legend: &[u8],
    config: &Config,
    row: &Item,
) -> Result<String, Stop> {
    let names = signed_names(alloc, config, row)?;
    if legend.len() != names.len() {
        return Err(Stop::Form);
    }
    digits_of(alloc, &record_text(alloc, head, config, row, legend)?)
}

pub fn config_of(alloc: Global, text: &str) -> Result<Config, Stop> {
    match Config::read(alloc, text.as_bytes()) {
        Ok(config) => Ok(config),
        Err(_) => Err(Stop::Form),
    }
}

pub fn item_of(alloc: Global, text: &str) -> Result<Item, Stop> {
    let value = json_value(alloc, text.as_bytes())?.ok_or(Stop::Form)?;
    match item_from_json(alloc, &value) {
        Ok(item) => Ok(item),
        Err(_) => Err(Stop::Form),
    }
}
