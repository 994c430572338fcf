//! What a record declaration says beside its fields, and its core declaration.

ghost use Rattle.std.specs.Prelude.{◌≡◌, ◌<◌, IfOk};
ghost use Rattle.core_rules.specs.Signature.{Family};
ghost use Rattle.core_terms.specs.Signature.{decl_of};
ghost use Rattle.data_rules.specs.Families.{con_name as name_given, is_coinductive as says_coinductive};
ghost use Rattle.data_elab.specs.Family.{record_of};

use crate::heading::Heading;
use core_terms::{ConDecl, CoreDecl, Entry, NameId, NoMemory, Row, Telescope};
use resolved_tree::ResolvedItem;
use std::alloc::Global;

/// Whether a record says `coinductive`.
pub(crate) fn is_coinductive(items: &[ResolvedItem]) -> bool
    ensures { result ≡ says_coinductive items.now }
{
    let mut left = items;
    while let [item, more @ ..] = left {
        if let ResolvedItem::Coinductive(_) = item {
            return true;
        }
        left = more;
    }
    false
}

/// The name of a record's constructor, where it gives one.
pub(crate) fn con_name(items: &[ResolvedItem]) -> Option<NameId>
    ensures { result ≡ name_given items.now }
{
    let mut left = items;
    while let [item, more @ ..] = left {
        if let ResolvedItem::Constructor(_, name) = item {
            return Some(name.id);
        }
        left = more;
    }
    None
}

/// The record with these fields, which are the arguments of its one constructor.
pub(crate) fn record_decl(
    alloc: Global,
    heading: Heading,
    name: Option<NameId>,
    fields: Vec<Entry>,
    eta: bool,
    coinductive: bool,
) -> Result<CoreDecl, NoMemory>
    ensures { IfOk result (λ d. decl_of d ≡ Family (record_of heading name fields.items eta coinductive)) }
{
    let args = Vec::from_slice(alloc, fields.as_slice())?;
    let mut cons = Vec::new(alloc);
    cons.push(ConDecl {
        name,
        args: Telescope {
            entries: Row::from_vec(args),
        },
        indices: Row::from_vec(Vec::new(alloc)),
    })?;
    Ok(CoreDecl::Family {
        name: heading.name,
        params: Telescope {
            entries: Row::from_vec(heading.params),
        },
        indices: Telescope {
            entries: Row::from_vec(heading.indices),
        },
        level: heading.level,
        is_record: true,
        cons: Row::from_vec(cons),
        fields: Telescope {
            entries: Row::from_vec(fields),
        },
        eta,
        coinductive,
    })
}
