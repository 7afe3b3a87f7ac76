//! The names of the facets asked, as in `f=author,year`.
ghost use Rattle.std.specs.Prelude.{◌≡◌, ◌&&◌, ◌∷◌, [], ◌++◌, true, Some, nat_le, length, filter, codes, IfOk, IfErr, OnOk};
ghost use Rattle.std.specs.List.{list_all};
ghost use Rattle.cs_base.specs.declared.content.limits.TheConstants.{MAX_FACETS as MOST};
ghost use Rattle.cs_model.specs.Collection.{has_name_form};
ghost use Rattle.cs_model.specs.Words.{is_filled};
ghost use Rattle.cs_model.specs.Parameters.{parameter, are_facets, facet_names};
ghost use Rattle.cs_query.specs.declared.request.Param.TheVariants as which;
ghost use Rattle.cs_http.specs.Refusing.{IsRefusedBy};

use crate::first::parameter;
use cs_base::{MAX_FACETS, Memory, Seq, Text};
use cs_query::{Param, ReqFault};
use cs_text::has_name_form;
use std::alloc::Global;

/// The names of the facets that are asked, each once, in byte order.
pub(crate) fn facets(alloc: Global, params: &[u8]) -> Result<Seq<Text>, ReqFault>
    ensures accepted { OnOk result (are_facets (parameter (codes "f") params.now) ≡ true) }
    ensures ok { IfOk result (λ names. names ≡ facet_names (parameter (codes "f") params.now)) }
    ensures err { IfErr result (λ e. IsRefusedBy which.F (are_facets (parameter (codes "f") params.now)) e) }
{
    let value = parameter(alloc, params, Param::F.name())?;
    let Some(value) = value else {
        return Ok(Seq::new(alloc));
    };
    let names = listed(alloc, value.as_str())?;
    if !are_accepted(&names) {
        return Err(ReqFault::BadParam { which: Param::F });
    }
    Ok(Seq::from_vec(names))
}

// The names between the commas, each once, in byte order. An empty piece names nothing.
fn listed(alloc: Global, value: &str) -> Result<Vec<Text>, Memory>
    ensures ok { IfOk result (λ v. v.items ≡ facet_names (Some value.now)) }
{
    let mut names = Vec::new(alloc);
    for piece in value.split(',') {
        push_name(alloc, &mut names, piece)?;
    }
    names.sort()?;
    names.dedup();
    Ok(names)
}

// Adds the name that a piece is.
fn push_name(alloc: Global, names: &mut Vec<Text>, piece: &str) -> Result<(), Memory>
    ensures ok { OnOk result (names.new.items ≡ names.old.items ++ filter is_filled (piece.now ∷ [])) }
{
    if piece.is_empty() {
        return Ok(());
    }
    let name = Text::from_str(alloc, piece)?;
    names.push(name)?;
    Ok(())
}

fn are_accepted(names: &[Text]) -> bool
    ensures { result ≡ (list_all has_name_form names.now && nat_le (length names.now) MOST) }
{
    have_name_forms(names) && names.len() <= MAX_FACETS
}

fn have_name_forms(names: &[Text]) -> bool
    ensures { result ≡ list_all has_name_form names.now }
{
    names
        .iter()
        .all(|name| has_name_form(name.as_str().as_bytes()))
}
