use dbe_cond::{Names, Values};
use dbe_num::Text;
use dbe_values::{Item, KeyValue, ValueFault};

/// What a query asks: the text of its condition, and what its placeholders stand for.
#[derive(Drop)]
pub struct Query {
    pub text: Text,
    pub names: Names,
    pub values: Values,
}

/// What a line of the script asks for.
#[derive(Drop)]
pub enum Request {
    /// A line that is no JSON.
    NotJson,
    /// JSON that has the form of no request.
    Shape,
    /// A value or a name that is none, at the first place of the walk.
    Value { name: Text, why: ValueFault },
    /// A key that is none.
    Key { name: Text },
    /// A request of a form that is not built yet.
    NotBuilt,
    /// Puts an item.
    Put(Item),
    /// Prints the item of a key.
    Get(KeyValue),
    /// Tells what stands at a key.
    Check(KeyValue),
    /// Prints the items of which a condition is true.
    Query(Query),
    /// Prints what a query would ask of the table.
    Explain(Query),
}
