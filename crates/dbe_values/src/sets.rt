ghost use Rattle.std.specs.Prelude.{◌≡◌, ◌<◌, ◌∷◌, [], IfOk, length, slice_get, Some};
ghost use Rattle.dbe_values.specs.Sets.{IsNumberText, IsSet, IsSetOf};

use dbe_num::{Bytes, Memory, Text};
use sqlite_items::Items;
use std::alloc::Global;
use std::marker::Model;

/// Distinct texts, at least one, in order of their bytes.
#[derive(Debug, Drop)]
pub struct TextSet {
    elements: Items<Text>,
}

impl Model for TextSet {
    ghost use Rattle.std.specs.Prelude.{List, ℕ};
    ghost use Rattle.dbe_values.specs.Sets.{IsSet};

    ghost Value = { List (List ℕ) };

    ghost view = { λ s. s.elements };

    ghost invariant = { λ s. IsSet s.elements };
}

impl TextSet {
    /// Takes no memory.
    pub fn from_elements(elements: Items<Text>) -> TextSet
        requires { IsSet elements }
        ensures { result ≡ elements }
    {
        TextSet { elements }
    }

    pub fn elements(&self) -> &[Text]
        ensures elements { result.now ≡ self.now }
        ensures set { IsSet self.now }
    {
        self.elements.as_slice()
    }

    pub fn copy(&self, alloc: Global) -> Result<TextSet, Memory>
        ensures { IfOk result (λ s. s ≡ self.now) }
    {
        Ok(TextSet {
            elements: copy_texts(alloc, self.elements.as_slice())?,
        })
    }
}

/// Distinct numbers, at least one, each by its normal text, in order of the bytes of these.
#[derive(Debug, Drop)]
pub struct NumberSet {
    elements: Items<Text>,
}

impl Model for NumberSet {
    ghost use Rattle.std.specs.Prelude.{List, ℕ};
    ghost use Rattle.dbe_values.specs.Sets.{IsNumberText, IsSetOf};

    ghost Value = { List (List ℕ) };

    ghost view = { λ s. s.elements };

    ghost invariant = { λ s. IsSetOf IsNumberText s.elements };
}

impl NumberSet {
    /// Takes no memory.
    pub fn from_elements(elements: Items<Text>) -> NumberSet
        requires { IsSetOf IsNumberText elements }
        ensures { result ≡ elements }
    {
        NumberSet { elements }
    }

    pub fn elements(&self) -> &[Text]
        ensures elements { result.now ≡ self.now }
        ensures set { IsSetOf IsNumberText self.now }
    {
        self.elements.as_slice()
    }

    pub fn copy(&self, alloc: Global) -> Result<NumberSet, Memory>
        ensures { IfOk result (λ s. s ≡ self.now) }
    {
        Ok(NumberSet {
            elements: copy_texts(alloc, self.elements.as_slice())?,
        })
    }
}

/// Distinct binaries, at least one, in order of their bytes.
#[derive(Debug, Drop)]
pub struct BytesSet {
    elements: Items<Bytes>,
}

impl Model for BytesSet {
    ghost use Rattle.std.specs.Prelude.{List, ℕ};
    ghost use Rattle.dbe_values.specs.Sets.{IsSet};

    ghost Value = { List (List ℕ) };

    ghost view = { λ s. s.elements };

    ghost invariant = { λ s. IsSet s.elements };
}

impl BytesSet {
    /// Takes no memory.
    pub fn from_elements(elements: Items<Bytes>) -> BytesSet
        requires { IsSet elements }
        ensures { result ≡ elements }
    {
        BytesSet { elements }
    }

    pub fn elements(&self) -> &[Bytes]
        ensures elements { result.now ≡ self.now }
        ensures set { IsSet self.now }
    {
        self.elements.as_slice()
    }

    pub fn copy(&self, alloc: Global) -> Result<BytesSet, Memory>
        ensures { IfOk result (λ s. s ≡ self.now) }
    {
        Ok(BytesSet {
            elements: copy_binaries(alloc, self.elements.as_slice())?,
        })
    }
}

fn copy_texts(alloc: Global, texts: &[Text]) -> Result<Items<Text>, Memory>
    ensures { IfOk result (λ copies. copies ≡ texts.now) }
{
    let mut copies = Items::new(alloc);
    for text in texts {
        copies.push(text.copy(alloc)?)?;
    }
    Ok(copies)
}

fn copy_binaries(alloc: Global, binaries: &[Bytes]) -> Result<Items<Bytes>, Memory>
    ensures { IfOk result (λ copies. copies ≡ binaries.now) }
{
    let mut copies = Items::new(alloc);
    for bytes in binaries {
        copies.push(bytes.copy(alloc)?)?;
    }
    Ok(copies)
}
