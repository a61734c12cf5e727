use crate::{Names, Values};
use dbe_num::Text;

/// A condition's text, and the names and values that are given for the placeholders in it.
#[derive(Drop)]
pub struct Printed {
    pub text: Text,
    pub names: Names,
    pub values: Values,
}
