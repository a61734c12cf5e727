ghost use Rattle.std.specs.Prelude.{◌≡◌, option_map};
ghost use Rattle.serde_json.specs.View.{view};
ghost use Rattle.dbe_config.specs.Spelling.{any_text_in, text_of, text_in, whole_in, char_in, single, bool_in};
ghost use Rattle.std.specs.Str.{chars};

use serde_json::Value;

pub(crate) fn any_text_in(value: Option<&Value>) -> Option<&str>
    ensures { option_map (λ t. t.now) result ≡ any_text_in (option_map (λ v. view v.now) value.entry) }
{
    value?.as_str()
}

// A text of low to high bytes.
pub(crate) fn text_in(value: Option<&Value>, low: usize, high: usize) -> Option<&str>
    ensures { option_map (λ t. t.now) result ≡ text_in low high (option_map (λ v. view v.now) value.entry) }
{
    text_of(any_text_in(value), low, high)
}

pub(crate) fn text_of(text: Option<&str>, low: usize, high: usize) -> Option<&str>
    ensures { option_map (λ t. t.now) result ≡ text_of low high (option_map (λ t. t.now) text.entry) }
{
    let text = text?;
    if low <= text.len() && text.len() <= high {
        Some(text)
    } else {
        None
    }
}

// A whole number from -65,536 to 65,536.
pub(crate) fn whole_in(value: Option<&Value>) -> Option<i32>
    ensures { result ≡ whole_in (option_map (λ v. view v.now) value.entry) }
{
    let n = value?.as_i64()?;
    if -65_536 <= n && n <= 65_536 {
        Some(n as i32)
    } else {
        None
    }
}

// A text of one character.
pub(crate) fn char_in(value: Option<&Value>) -> Option<char>
    ensures { result ≡ char_in (option_map (λ v. view v.now) value.entry) }
{
    single(any_text_in(value)?)
}

fn single(text: &str) -> Option<char>
    ensures { result ≡ single (chars text.now) }
{
    let mut characters = text.chars();
    let first = characters.next()?;
    match characters.next() {
        Some(_) => None,
        None => Some(first),
    }
}

pub(crate) fn bool_in(value: Option<&Value>) -> Option<bool>
    ensures { result ≡ bool_in (option_map (λ v. view v.now) value.entry) }
{
    value?.as_bool()
}
