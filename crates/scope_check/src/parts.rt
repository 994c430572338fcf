use el_outside::Text;
use scope_table::{Locals, Texts};

/// What is read of a record: the name of its constructor, the names of its fields, and the variables around the next field's
/// type.
#[derive(Drop)]
pub struct Parts {
    pub con: Option<Text>,
    pub fields: Texts,
    pub locals: Locals,
}
