//! The call on data and record declarations.

ghost use Rattle.std.specs.Prelude.{◌≡◌, ◌<◌, [], length, map, IfOk};
ghost use Rattle.core_rules.specs.Signature.{Family, fams};
ghost use Rattle.core_rules.specs.Mapped.{AllEntries, telescope_map};
ghost use Rattle.term_pool.specs.Pool.{Extends, tree};
ghost use Rattle.core_terms.specs.Signature.{Stands, decl_of, signature_in};
ghost use Rattle.written_rules.specs.Asking.{Comes};
ghost use Rattle.data_rules.specs.Families.{IsFamily, WrittenFamilyOf, con_name, has_eta, is_coinductive, line_meaning, lines_of};
ghost use Rattle.data_rules.specs.Rules.{con_lines, field_lines, inside};
ghost use Rattle.data_elab.specs.Constructors.{AnswersCons};
ghost use Rattle.data_elab.specs.Family.{AnswersFamily, HeadingOf, IsData, IsRecord, data_of, known_of, record_of};
ghost use Rattle.data_elab.specs.Params.{AnswersEntries};
ghost use Rattle.data_elab.specs.Heading.{AnswersHeading, IsHeading, heading_in};

use crate::constructors::MOST_SHOWN;
use crate::error::DataError;
use crate::heading::Heading;
use crate::reader::Reader;
use crate::{eta, record};
use core_terms::{
    ConDecl, CoreDecl, Entry, FamId, Limits, NoMemory, Row, Signature, Telescope, TermPool,
};
use resolved_tree::{Resolved, ResolvedItem, ResolvedSignature};
use std::alloc::Global;

/// What stands before the constructors or fields of a declaration.
fn heading_of(
    alloc: Global,
    pool: &mut TermPool,
    sig: &Signature,
    decl: &Resolved,
    limits: Limits,
) -> Result<Heading, DataError>
    requires stands { Stands pool.old sig.now }
    requires family { IsFamily decl.now }
    ensures extends { Extends pool.old pool.new }
    ensures is { AnswersHeading pool.new (HeadingOf (signature_in pool.old sig.now) limits.fuel limits.depth decl.now) result }
{
    let mut context = Vec::new(alloc);
    let mut reader = Reader {
        pool,
        signature: sig,
        context: &mut context,
        limits,
        alloc,
    };
    match decl {
        Resolved::Data(_, name, binders, ty, _) => {
            reader.read_heading(name.id, MOST_SHOWN, binders.as_slice(), ty)
        }
        Resolved::Record(_, name, binders, ty, _) => {
            reader.read_heading(name.id, 0, binders.as_slice(), ty)
        }
        _ => unreachable!(),
    }
}

/// The family as it is known before its constructors or fields.
fn known_decl(alloc: Global, heading: &Heading) -> Result<CoreDecl, NoMemory>
    ensures { IfOk result (λ d. decl_of d ≡ Family (known_of heading.now)) }
{
    let params = Vec::from_slice(alloc, heading.params.as_slice())?;
    let indices = Vec::from_slice(alloc, heading.indices.as_slice())?;
    Ok(CoreDecl::Family {
        name: heading.name,
        params: Telescope {
            entries: Row::from_vec(params),
        },
        indices: Telescope {
            entries: Row::from_vec(indices),
        },
        level: heading.level,
        is_record: false,
        cons: Row::from_vec(Vec::new(alloc)),
        fields: Telescope {
            entries: Row::from_vec(Vec::new(alloc)),
        },
        eta: false,
        coinductive: false,
    })
}

/// The data type with these constructors.
fn data_decl(alloc: Global, heading: Heading, cons: Vec<ConDecl>) -> CoreDecl
    ensures { decl_of result ≡ Family (data_of heading cons.items) }
{
    CoreDecl::Family {
        name: heading.name,
        params: Telescope {
            entries: Row::from_vec(heading.params),
        },
        indices: Telescope {
            entries: Row::from_vec(heading.indices),
        },
        level: heading.level,
        is_record: false,
        cons: Row::from_vec(cons),
        fields: Telescope {
            entries: Row::from_vec(Vec::new(alloc)),
        },
        eta: false,
        coinductive: false,
    }
}

/// The constructors of family `fam`, which the signature knows without them.
fn cons_of(
    alloc: Global,
    pool: &mut TermPool,
    sig: &Signature,
    fam: FamId,
    heading: &Heading,
    lines: &[ResolvedSignature],
    limits: Limits,
) -> Result<Vec<ConDecl>, DataError>
    requires stands { Stands pool.old sig.now }
    requires heading { IsHeading pool.old heading.now }
    ensures extends { Extends pool.old pool.new }
    ensures is { AnswersCons pool.new (Comes (signature_in pool.old sig.now) limits.fuel limits.depth
        (con_lines fam (heading_in pool.old heading.now) (map (line_meaning (signature_in pool.old sig.now)) lines.now))) result }
{
    let mut context = Vec::from_slice(alloc, heading.params.as_slice())?;
    let mut reader = Reader {
        pool,
        signature: sig,
        context: &mut context,
        limits,
        alloc,
    };
    reader.read_cons(fam, heading, lines)
}

/// A data declaration. The signature knows the family during the call.
fn elab_data(
    alloc: Global,
    pool: &mut TermPool,
    sig: &mut Signature,
    decl: &Resolved,
    limits: Limits,
) -> Result<CoreDecl, DataError>
    requires stands { Stands pool.old sig.old }
    requires data { IsData decl.now }
    ensures extends { Extends pool.old pool.new }
    ensures signature { sig.new ≡ sig.old }
    ensures answer { AnswersFamily pool.new (WrittenFamilyOf (signature_in pool.old sig.old) limits.fuel limits.depth decl.now) result }
{
    let Resolved::Data(_, _, _, _, lines) = decl else {
        unreachable!()
    };
    let heading = heading_of(alloc, pool, sig, decl, limits)?;
    let known = known_decl(alloc, &heading)?;
    let mark = sig.mark();
    let fam = FamId::new(sig.fams());
    sig.add(known)?;
    let cons = cons_of(alloc, pool, sig, fam, &heading, lines.as_slice(), limits);
    sig.cut(mark);
    Ok(data_decl(alloc, heading, cons?))
}

/// The fields of a record, which the signature knows without them.
fn fields_of(
    alloc: Global,
    pool: &mut TermPool,
    sig: &Signature,
    heading: &Heading,
    items: &[ResolvedItem],
    limits: Limits,
) -> Result<Vec<Entry>, DataError>
    requires stands { Stands pool.old sig.now }
    requires heading { IsHeading pool.old heading.now }
    ensures extends { Extends pool.old pool.new }
    ensures is { AnswersEntries pool.new (Comes (signature_in pool.old sig.now) limits.fuel limits.depth
        (field_lines heading.now.level (inside (heading_in pool.old heading.now).params [])
        (map (line_meaning (signature_in pool.old sig.now)) (lines_of items.now)))) result }
{
    let mut context = Vec::from_slice(alloc, heading.params.as_slice())?;
    let mut reader = Reader {
        pool,
        signature: sig,
        context: &mut context,
        limits,
        alloc,
    };
    reader.read_fields(heading.level, items)
}

/// The record with these fields, where it has the number `fam`.
fn made_record(
    alloc: Global,
    pool: &TermPool,
    fam: FamId,
    heading: Heading,
    items: &[ResolvedItem],
    fields: Vec<Entry>,
) -> Result<CoreDecl, NoMemory>
    requires fields { AllEntries (λ t. t < length pool.now.trees) fields.items }
    ensures { IfOk result (λ d. decl_of d ≡ Family (record_of heading (con_name items.now) fields.items
        (has_eta fam (is_coinductive items.now) (telescope_map (tree pool.now) fields.items)) (is_coinductive items.now))) }
{
    let coinductive = record::is_coinductive(items);
    let name = record::con_name(items);
    let eta = eta::has_eta(alloc, pool, fam, coinductive, fields.as_slice())?;
    record::record_decl(alloc, heading, name, fields, eta, coinductive)
}

/// A record declaration. The signature knows the family during the call.
fn elab_record(
    alloc: Global,
    pool: &mut TermPool,
    sig: &mut Signature,
    decl: &Resolved,
    limits: Limits,
) -> Result<CoreDecl, DataError>
    requires stands { Stands pool.old sig.old }
    requires record { IsRecord decl.now }
    ensures extends { Extends pool.old pool.new }
    ensures signature { sig.new ≡ sig.old }
    ensures answer { AnswersFamily pool.new (WrittenFamilyOf (signature_in pool.old sig.old) limits.fuel limits.depth decl.now) result }
{
    let Resolved::Record(_, _, _, _, items) = decl else {
        unreachable!()
    };
    let heading = heading_of(alloc, pool, sig, decl, limits)?;
    let known = known_decl(alloc, &heading)?;
    let mark = sig.mark();
    let fam = FamId::new(sig.fams());
    sig.add(known)?;
    let fields = fields_of(alloc, pool, sig, &heading, items.as_slice(), limits);
    sig.cut(mark);
    let fields = fields?;
    let made = made_record(alloc, pool, fam, heading, items.as_slice(), fields)?;
    Ok(made)
}

/// The family that a data or record declaration is elaborated to, or why it is refused and where, exactly as the written rules say. The
/// signature knows the family without its constructors and fields during the call, and is then as before, whatever is answered.
pub fn elab_written(
    alloc: Global,
    pool: &mut TermPool,
    sig: &mut Signature,
    decl: &Resolved,
    limits: Limits,
) -> Result<CoreDecl, DataError>
    requires stands { Stands pool.old sig.old }
    requires family { IsFamily decl.now }
    ensures extends { Extends pool.old pool.new }
    ensures signature { sig.new ≡ sig.old }
    ensures answer { AnswersFamily pool.new (WrittenFamilyOf (signature_in pool.old sig.old) limits.fuel limits.depth decl.now) result }
{
    match decl {
        Resolved::Data(_, _, _, _, _) => elab_data(alloc, pool, sig, decl, limits),
        Resolved::Record(_, _, _, _, _) => elab_record(alloc, pool, sig, decl, limits),
        _ => unreachable!(),
    }
}
