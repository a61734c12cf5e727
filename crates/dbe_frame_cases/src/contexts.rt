ghost use Rattle.std.specs.Prelude.{◌≡◌, true, IfOk};
ghost use Rattle.dbe_values.specs.Keys.{is_lawful_key};
ghost use Rattle.dbe_values.specs.KeyValues.{key_view};

use crate::answer::halves;
use crate::bytes::{bytes_of, digits_of, number};
use crate::headers::put_pairs;
use crate::rows::{config_of, item_of};
use crate::stop::Stop;
use crate::text::{decimal, joined};
use dbe_frame::{Pairs, context_bytes};
use dbe_num::Bytes;
use dbe_values::{Item, KeySchema, KeyValue, read_key};
use std::alloc::Global;

/// `KEY:VALUE,..` or `-`: the pairs as a context has them, or none.
pub fn pairs(alloc: Global, case: &str) -> Result<String, Stop> {
    let Some(pairs) = pairs_of(alloc, case)? else {
        return joined(alloc, &["none"]);
    };
    let mut out = joined(alloc, &["pairs"])?;
    put_pairs(&mut out, alloc, pairs.as_slice())?;
    Ok(out)
}

fn pairs_of(alloc: Global, text: &str) -> Result<Option<Pairs>, Stop> {
    let mut out = Vec::new(alloc);
    if text != "-" {
        for pair in text.split(',') {
            let (key, value) = pair.split_once(':').ok_or(Stop::Form)?;
            let key = Bytes::from_vec(bytes_of(alloc, key)?);
            let value = Bytes::from_vec(bytes_of(alloc, value)?);
            out.push((key, value))?;
        }
    }
    Ok(Pairs::new(out))
}

/// `COUNT`: how many pairs a context has, or none. Their keys are the numbers from 0 on in four bytes.
pub fn many(alloc: Global, case: &str) -> Result<String, Stop> {
    let mut out = Vec::new(alloc);
    for key in 0..number(case)? {
        let key = Bytes::copy_of(alloc, &key.to_be_bytes())?;
        out.push((key, Bytes::copy_of(alloc, &[])?))?;
    }
    count_text(alloc, Pairs::new(out))
}

/// `KEY:VALUE,..` or `-`: how many pairs a context has, or none.
pub fn fits(alloc: Global, case: &str) -> Result<String, Stop> {
    let pairs = pairs_of(alloc, case)?;
    count_text(alloc, pairs)
}

fn count_text(alloc: Global, pairs: Option<Pairs>) -> Result<String, Stop> {
    match pairs {
        Some(pairs) => {
            let count = decimal(alloc, pairs.as_slice().len() as u64)?;
            joined(alloc, &[count.as_str(), " pairs"])
        }
        None => joined(alloc, &["none"]),
    }
}

/// `PAIRS CONFIG ROW`: the full context of a row with these stored pairs.
pub fn context(alloc: Global, case: &str) -> Result<String, Stop> {
    let (stored, rest) = halves(case)?;
    let (config, row) = halves(rest)?;
    let Some(stored) = pairs_of(alloc, stored)? else {
        return Err(Stop::Form);
    };
    let config = config_of(alloc, config)?;
    let key = key_of(alloc, config.schema(), &item_of(alloc, row)?)?;
    config.keeps_bounds();
    let bytes = context_bytes(alloc, config.schema(), config.table(), &key, &stored)?;
    digits_of(alloc, &bytes)
}

fn key_of(alloc: Global, schema: &KeySchema, row: &Item) -> Result<KeyValue, Stop>
    ensures { IfOk result (λ key. is_lawful_key schema.now (key_view key) ≡ true) }
{
    match read_key(alloc, schema, row) {
        Ok(key) => Ok(key),
        Err(_) => Err(Stop::Form),
    }
}
