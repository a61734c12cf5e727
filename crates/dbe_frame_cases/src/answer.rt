use crate::stop::Stop;
use crate::{canons, contexts, footers, headers, places, rows};
use std::alloc::Global;

/// What a case answers: its kind stands before the first space.
pub fn answer(alloc: Global, line: &str) -> Result<String, Stop> {
    let (kind, case) = halves(line)?;
    match kind {
        "#" => Ok(String::from_str(alloc, line)?),
        "header" => headers::header(alloc, case),
        "again" => headers::again(alloc, case),
        "counted" => headers::counted(alloc, case),
        "cut" => places::cut(alloc, case),
        "change" => places::change(alloc, case),
        "footer" => footers::footer(alloc, case),
        "pairs" => contexts::pairs(alloc, case),
        "fits" => contexts::fits(alloc, case),
        "many" => contexts::many(alloc, case),
        "context" => contexts::context(alloc, case),
        "names" => rows::names(alloc, case),
        "record" => rows::record(alloc, case),
        _ => canons::answer(alloc, kind, case),
    }
}

/// What stands before the first space and behind it.
pub fn halves(text: &str) -> Result<(&str, &str), Stop> {
    text.split_once(' ').ok_or(Stop::Form)
}
