use resolved_tree::ResolvedExpr;
use source_tree::Name;
use term_pool::FieldId;

/// What stands at the head of an application.
#[derive(Drop)]
pub enum Head {
    Whole(ResolvedExpr),
    /// A field, which wants its argument, with the name that it is written by.
    Field(Name, FieldId),
}
