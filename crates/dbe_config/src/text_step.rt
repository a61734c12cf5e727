ghost use Rattle.std.specs.Prelude.{◌≡◌};

use dbe_num::Text;
use std::marker::Model;

/// A step on the way of a text. Places count Unicode scalar values and are from -65,536 to 65,536.
#[derive(Drop)]
pub enum TextStep {
    /// ASCII letters in upper case.
    Upper,
    /// ASCII letters in lower case.
    Lower,
    /// The text with another behind it.
    Insert(Text),
    /// The first characters, up to a place.
    Prefix(i32),
    /// The last characters, or all from a place on.
    Suffix(i32),
    /// The characters from a place up to before another.
    Substring(i32, i32),
    /// One piece of the text, which is cut at each of a character.
    Segment(char, i32),
    /// The pieces from a place up to before another, joined by the character.
    Segments(char, i32, i32),
}

/// The steps of a part, at most 16.
///
/// Contracts see a list.
#[derive(Drop)]
pub struct TextSteps {
    items: Vec<TextStep>,
}

impl Model for TextSteps {
    ghost use Rattle.std.specs.Prelude.{List};
    ghost use Rattle.dbe_config.specs.declared.text_step.TextStep.{TextStep};

    ghost Value = { List TextStep };

    ghost view = { λ l. l.items.items };
}

impl TextSteps {
    /// Takes no memory.
    pub fn from_vec(items: Vec<TextStep>) -> TextSteps
        ensures { result ≡ items.items }
    {
        TextSteps { items }
    }

    pub fn as_slice(&self) -> &[TextStep]
        ensures { result.now ≡ self.now }
    {
        &self.items
    }
}
