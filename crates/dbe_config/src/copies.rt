ghost use Rattle.std.specs.Prelude.{◌≡◌, IfOk};
ghost use Rattle.dbe_config.specs.Entries.{entries_of};

use crate::{
    Action, Compound, Constructor, ConstructorPart, ConstructorParts, Constructors, ContextPair,
    Part, Parts, Recipient, Standard, TextStep, TextSteps, Virtual, VirtualPart, VirtualParts,
};
use dbe_num::{Memory, Text};
use dbe_values::BranchId;
use std::alloc::Global;
use std::collections::BTreeMap;

// What can be copied where there is memory.
pub(crate) trait TryCopy {
    ghost use Rattle.std.specs.Prelude.{◌≡◌, IfOk};

    fn try_copy(&self, alloc: Global) -> Result<Self, Memory>
        ensures { IfOk result (λ c. c ≡ self.now) };
}

pub(crate) fn copy_all<T: TryCopy + Drop>(alloc: Global, items: &[T]) -> Result<Vec<T>, Memory>
    ensures { IfOk result (λ v. v.items ≡ items.now) }
{
    let mut copies = Vec::new(alloc);
    for item in items {
        copies.push(item.try_copy(alloc)?)?;
    }
    Ok(copies)
}

pub(crate) fn copy_of_option(alloc: Global, text: &Option<Text>) -> Result<Option<Text>, Memory>
    ensures { IfOk result (λ t. t ≡ text.now) }
{
    match text {
        Some(text) => Ok(Some(text.copy(alloc)?)),
        None => Ok(None),
    }
}

pub(crate) fn copy_of_branch(branch: &Option<BranchId>) -> Option<BranchId>
    ensures { result ≡ branch.now }
{
    match branch {
        Some(branch) => Some(branch.copy()),
        None => None,
    }
}

pub(crate) fn copy_of_actions(
    actions: &BTreeMap<String, Action>,
) -> Result<BTreeMap<String, Action>, Memory>
    ensures { IfOk result (λ m. entries_of m.entries ≡ entries_of actions.now.entries) }
{
    Ok(actions.clone()?)
}

impl TryCopy for ContextPair {
    fn try_copy(&self, alloc: Global) -> Result<ContextPair, Memory> {
        Ok(ContextPair {
            key: self.key.copy(alloc)?,
            value: self.value.copy(alloc)?,
        })
    }
}

impl TryCopy for Recipient {
    fn try_copy(&self, alloc: Global) -> Result<Recipient, Memory> {
        match self {
            Recipient::Raw {
                namespace,
                name,
                key,
            } => Ok(Recipient::Raw {
                namespace: namespace.copy(alloc)?,
                name: name.copy(alloc)?,
                key: *key,
            }),
            Recipient::Branch { branch } => Ok(Recipient::Branch {
                branch: branch.copy(),
            }),
        }
    }
}

impl TryCopy for TextStep {
    fn try_copy(&self, alloc: Global) -> Result<TextStep, Memory> {
        match self {
            TextStep::Upper => Ok(TextStep::Upper),
            TextStep::Lower => Ok(TextStep::Lower),
            TextStep::Insert(text) => Ok(TextStep::Insert(text.copy(alloc)?)),
            TextStep::Prefix(n) => Ok(TextStep::Prefix(*n)),
            TextStep::Suffix(n) => Ok(TextStep::Suffix(*n)),
            TextStep::Substring(a, b) => Ok(TextStep::Substring(*a, *b)),
            TextStep::Segment(c, i) => Ok(TextStep::Segment(*c, *i)),
            TextStep::Segments(c, a, b) => Ok(TextStep::Segments(*c, *a, *b)),
        }
    }
}

impl TryCopy for VirtualPart {
    fn try_copy(&self, alloc: Global) -> Result<VirtualPart, Memory> {
        Ok(VirtualPart {
            from: self.from.copy(alloc)?,
            steps: TextSteps::from_vec(copy_all(alloc, self.steps.as_slice())?),
        })
    }
}

impl TryCopy for Virtual {
    fn try_copy(&self, alloc: Global) -> Result<Virtual, Memory> {
        Ok(Virtual {
            name: self.name.copy(alloc)?,
            parts: VirtualParts::from_vec(copy_all(alloc, self.parts.as_slice())?),
        })
    }
}

impl TryCopy for Standard {
    fn try_copy(&self, alloc: Global) -> Result<Standard, Memory> {
        Ok(Standard {
            name: self.name.copy(alloc)?,
            length: self.length,
        })
    }
}

impl TryCopy for Part {
    fn try_copy(&self, alloc: Global) -> Result<Part, Memory> {
        Ok(Part {
            name: self.name.copy(alloc)?,
            prefix: self.prefix.copy(alloc)?,
            encrypted: self.encrypted,
            from: self.from.copy(alloc)?,
        })
    }
}

impl TryCopy for ConstructorPart {
    fn try_copy(&self, alloc: Global) -> Result<ConstructorPart, Memory> {
        Ok(ConstructorPart {
            name: self.name.copy(alloc)?,
            part: self.part,
            required: self.required,
        })
    }
}

impl TryCopy for Constructor {
    fn try_copy(&self, alloc: Global) -> Result<Constructor, Memory> {
        Ok(Constructor {
            parts: ConstructorParts::from_vec(copy_all(alloc, self.parts.as_slice())?),
        })
    }
}

impl TryCopy for Compound {
    fn try_copy(&self, alloc: Global) -> Result<Compound, Memory> {
        Ok(Compound {
            name: self.name.copy(alloc)?,
            split: self.split,
            parts: Parts::from_vec(copy_all(alloc, self.parts.as_slice())?),
            constructors: Constructors::from_vec(copy_all(alloc, self.constructors.as_slice())?),
        })
    }
}
