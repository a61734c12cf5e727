/// A range of a text: from the byte at `start` up to the byte before `end`.
#[derive(Clone, Copy, Debug, PartialEq, Eq)]
pub struct Span {
    pub start: usize,
    pub end: usize,
}

/// How two values are compared.
#[derive(Clone, Copy, Debug, PartialEq, Eq)]
pub enum Op {
    /// `=`
    Eq,
    /// `<>`
    Ne,
    /// `<`
    Lt,
    /// `<=`
    Le,
    /// `>`
    Gt,
    /// `>=`
    Ge,
}

/// A name as it stands in the text.
#[derive(Clone, Copy, Debug, PartialEq, Eq)]
pub enum Name {
    /// A bare word.
    Word(Span),
    /// A placeholder for a name, its `#` included.
    Placeholder(Span),
}

/// A name or a placeholder for a value, as it stands in the text.
#[derive(Clone, Copy, Debug, PartialEq, Eq)]
pub enum Operand {
    Name(Name),
    /// A placeholder for a value, its `:` included.
    Value(Span),
}

/// What the text of a condition is cut into.
#[derive(Clone, Copy, Debug, PartialEq, Eq)]
pub enum Token {
    /// `=`, `<>`, `<`, `<=`, `>` or `>=`.
    Compare(Op),
    /// `(`
    Open,
    /// `)`
    Close,
    /// `,`
    Comma,
    /// The keyword OR.
    Or,
    /// The keyword AND.
    And,
    /// The keyword NOT.
    Not,
    /// The keyword BETWEEN.
    Between,
    /// The keyword IN.
    In,
    /// The function word `attribute_exists`.
    Exists,
    /// The function word `attribute_not_exists`.
    NotExists,
    /// The function word `begins_with`.
    BeginsWith,
    /// A word that is neither a keyword nor a function word, or `#` or `:` and a word's parts.
    Operand(Operand),
}
