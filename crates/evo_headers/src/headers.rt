//! Headers of what is called, and payloads.

ghost use Rattle.std.specs.Prelude.{◌≡◌, IfOk, codes, map};
ghost use Rattle.std.specs.Option.{option_map};
ghost use Rattle.evo_headers.specs.Gaps.{Resolves};
ghost use Rattle.evo_headers.specs.Headers.{IsSigned, IsWhole, parameter_type, payload_label, payload_type};
ghost use Rattle.evo_headers.specs.Sites.{IsOwn, site_scope};
ghost use Rattle.evo_headers.specs.Unresolved.{IsVoid, Lacks, One};
ghost use Rattle.evo_names.specs.Faults.{header_protocols, header_types};
ghost use Rattle.evo_names.specs.Listed as names;
ghost use Rattle.evo_names.specs.Resolved.{IsParameter, IsPayload, Pairs};

use crate::gap::{Gap, push};
use crate::requirements::requirements_of;
use crate::site::Site;
use crate::types::{type_of, type_of_option};
use evo_base::{Key, List, Name};
use evo_resolved::{RHeader, RParameter, RPayload, Signature};
use evo_tree::{GenericParameter, Header, Parameter, ParameterLabel, Payload};
use std::alloc::{AllocError, Global};

fn blank(alloc: Global) -> Result<Name, AllocError>
    ensures { IfOk result (λ name. name ≡ codes "_") }
{
    Ok(Name::from_vec(b"_".to_vec(alloc)?))
}

fn label_of(alloc: Global, parameter: &Parameter) -> Result<Name, AllocError>
    ensures { IfOk result (λ label. label ≡ names.label_of parameter.now) }
{
    match &parameter.label {
        ParameterLabel::Same => parameter.name.text.copy(alloc),
        ParameterLabel::Blank => blank(alloc),
        ParameterLabel::Written(label) => label.text.copy(alloc),
    }
}

fn parameter_of(alloc: Global, site: Site<'_>, parameter: &Parameter) -> Result<RParameter, Gap>
    requires { IsOwn site }
    ensures { Resolves result (IsParameter (site_scope site.entry) parameter.now) (IsVoid (site_scope site.entry) parameter.now.type_name) }
{
    let label = label_of(alloc, parameter)?;
    let name = parameter.name.text.copy(alloc)?;
    let written = type_of(alloc, site, &parameter.type_name)?;
    Ok(RParameter {
        place: parameter.place,
        label,
        name,
        written,
    })
}

fn parameters_of(
    alloc: Global,
    site: Site<'_>,
    parameters: &[Parameter],
) -> Result<List<RParameter>, Gap>
    requires { IsOwn site }
    ensures { Resolves result (Pairs (IsParameter (site_scope site.entry)) parameters.now) (One (IsVoid (site_scope site.entry)) (map parameter_type parameters.now)) }
{
    let mut found = Vec::new(alloc);
    for parameter in parameters {
        let part = parameter_of(alloc, site, parameter)?;
        push(&mut found, part)?;
    }
    Ok(List::from_vec(found))
}

fn generic_names(alloc: Global, generics: &[GenericParameter]) -> Result<List<Name>, AllocError>
    ensures { IfOk result (λ found. found ≡ map (λ g. g.name.text) generics.now) }
{
    let mut found = Vec::new(alloc);
    for generic in generics {
        found.push(generic.name.text.copy(alloc)?)?;
    }
    Ok(List::from_vec(found))
}

fn signature_of(
    alloc: Global,
    site: Site<'_>,
    header: &Header,
    protocol: Option<Key>,
) -> Result<Signature, Gap>
    requires own { IsOwn site }
    requires theirs { (site_scope site).generics ≡ map (λ g. g.name.text) header.now.generics }
    ensures { Resolves result (IsSigned (site_scope site.entry) protocol header.now) (Lacks (site_scope site.entry) (header_types header.now) (header_protocols header.now)) }
{
    let generics = generic_names(alloc, header.generics.as_slice())?;
    let requirements = requirements_of(alloc, site, header)?;
    Ok(Signature {
        protocol,
        generics,
        requirements,
    })
}

/// A header, of which the protocol is known that it is a member of.
pub(crate) fn header_of(
    alloc: Global,
    site: Site<'_>,
    header: &Header,
    protocol: Option<Key>,
) -> Result<RHeader, Gap>
    requires own { IsOwn site }
    requires theirs { (site_scope site).generics ≡ map (λ g. g.name.text) header.now.generics }
    ensures { Resolves result (IsWhole (site_scope site.entry) protocol header.now) (Lacks (site_scope site.entry) (header_types header.now) (header_protocols header.now)) }
{
    let signature = signature_of(alloc, site, header, protocol)?;
    let parameters = parameters_of(alloc, site, header.parameters.as_slice())?;
    let result = type_of_option(alloc, site, &header.result)?;
    Ok(RHeader {
        signature,
        parameters,
        result,
    })
}

fn label_of_payload(alloc: Global, payload: &Payload) -> Result<Option<Name>, AllocError>
    ensures { IfOk result (λ label. label ≡ payload_label payload.now) }
{
    match &payload.label {
        Some(label) => Ok(Some(label.text.copy(alloc)?)),
        None => Ok(None),
    }
}

fn payload_of(alloc: Global, site: Site<'_>, payload: &Payload) -> Result<RPayload, Gap>
    requires { IsOwn site }
    ensures { Resolves result (IsPayload (site_scope site.entry) payload.now) (IsVoid (site_scope site.entry) payload.now.type_name) }
{
    let label = label_of_payload(alloc, payload)?;
    let written = type_of(alloc, site, &payload.type_name)?;
    Ok(RPayload { label, written })
}

/// The values of a case.
pub(crate) fn payloads_of(
    alloc: Global,
    site: Site<'_>,
    payloads: &[Payload],
) -> Result<List<RPayload>, Gap>
    requires { IsOwn site }
    ensures { Resolves result (Pairs (IsPayload (site_scope site.entry)) payloads.now) (One (IsVoid (site_scope site.entry)) (map payload_type payloads.now)) }
{
    let mut found = Vec::new(alloc);
    for payload in payloads {
        let part = payload_of(alloc, site, payload)?;
        push(&mut found, part)?;
    }
    Ok(List::from_vec(found))
}
