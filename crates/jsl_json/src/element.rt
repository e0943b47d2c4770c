ghost use Rattle.std.specs.Prelude.{◌≡◌, false, Some, Ok, Err, map, IfOk, IfErr};
ghost use Rattle.serde_json.specs.View.{view, items_view};
ghost use Rattle.jsl_model.specs.Parts.{element_of, content_of, flow_of};
ghost use Rattle.jsl_json.specs.MemberViews.{kind_in};
ghost use Rattle.jsl_json.specs.Elements.{element_at, elements_at, flow_at, flows_at, content_at};
ghost use Rattle.jsl_json.specs.Catalogues.{is_out_of_memory};

use crate::fault::ReadFault;
use crate::member_fault::MemberFault;
use crate::members::{ElementKind, own_flow_of, own_of};
use batch_ids::Listed;
use jsl_model::{BodyParts, ElementParts, SplitFlowParts};
use serde_json::Value;
use std::alloc::Global;

/// Reads the elements of a list with all elements inside them. Returns also the number after the
/// last one. `number` is that of the first element in its job.
///
/// # Errors
///
/// Returns the first fault in written order: `BadElement` for an element whose own members are
/// wrong, before those inside it. Returns `OutOfMemory` instead of any result if memory is refused.
#[cycle(elements)]
pub fn elements_at(
    alloc: Global,
    job: u64,
    list: &[Value],
    number: u64,
) -> Result<(Listed<ElementParts>, u64), ReadFault>
    ensures read { IfOk result (λ read. elements_at job (items_view list.now) number
        ≡ Ok (map element_of read.0, read.1)) }
    ensures fault { IfErr result (λ fault. is_out_of_memory fault ≡ false
        → elements_at job (items_view list.now) number ≡ Err fault) }
{
    let mut elements = Vec::new(alloc);
    let mut next = number;
    for value in list {
        let (element, after) = element_at(alloc, job, value, next)?;
        elements.push(element)?;
        next = after;
    }
    Ok((Listed::from_vec(elements), next))
}

#[cycle(elements)]
fn element_at(
    alloc: Global,
    job: u64,
    value: &Value,
    number: u64,
) -> Result<(ElementParts, u64), ReadFault>
    ensures read { IfOk result (λ read. element_at job (view value.now) number
        ≡ Ok (element_of read.0, read.1)) }
    ensures fault { IfErr result (λ fault. is_out_of_memory fault ≡ false
        → element_at job (view value.now) number ≡ Err fault) }
{
    let next = number.saturating_add(1);
    let own = match own_of(alloc, value) {
        Ok(own) => own,
        Err(fault) => return Err(in_element(job, number, fault)),
    };
    let (body, next) = body_at(alloc, job, own.kind, next)?;
    Ok((ElementParts { id: own.id, body }, next))
}

#[cycle(elements)]
fn body_at(
    alloc: Global,
    job: u64,
    kind: ElementKind<'_>,
    number: u64,
) -> Result<(BodyParts, u64), ReadFault>
    ensures read { IfOk result (λ read. content_at job (kind_in kind.entry) number
        ≡ Ok (content_of read.0, read.1)) }
    ensures fault { IfErr result (λ fault. is_out_of_memory fault ≡ false
        → content_at job (kind_in kind.entry) number ≡ Err fault) }
{
    match kind {
        ElementKind::Step(step) => Ok((BodyParts::Step(step), number)),
        ElementKind::Flow {
            next,
            transitions,
            elements,
        } => {
            let (elements, after) = elements_at(alloc, job, elements, number)?;
            let flow = BodyParts::Flow {
                next,
                transitions,
                elements,
            };
            Ok((flow, after))
        }
        ElementKind::Split { next, flows } => {
            let (flows, after) = flows_at(alloc, job, flows, number)?;
            Ok((BodyParts::Split { next, flows }, after))
        }
        ElementKind::Decision {
            transitions,
            artifact,
        } => {
            let decision = BodyParts::Decision {
                transitions,
                artifact,
            };
            Ok((decision, number))
        }
    }
}

#[cycle(elements)]
fn flows_at(
    alloc: Global,
    job: u64,
    list: &[Value],
    number: u64,
) -> Result<(Listed<SplitFlowParts>, u64), ReadFault>
    ensures read { IfOk result (λ read. flows_at job (items_view list.now) number
        ≡ Ok (map flow_of read.0, read.1)) }
    ensures fault { IfErr result (λ fault. is_out_of_memory fault ≡ false
        → flows_at job (items_view list.now) number ≡ Err fault) }
{
    let mut flows = Vec::new(alloc);
    let mut next = number;
    for value in list {
        let (flow, after) = flow_at(alloc, job, value, next)?;
        flows.push(flow)?;
        next = after;
    }
    Ok((Listed::from_vec(flows), next))
}

#[cycle(elements)]
fn flow_at(
    alloc: Global,
    job: u64,
    value: &Value,
    number: u64,
) -> Result<(SplitFlowParts, u64), ReadFault>
    ensures read { IfOk result (λ read. flow_at job (view value.now) number
        ≡ Ok (flow_of read.0, read.1)) }
    ensures fault { IfErr result (λ fault. is_out_of_memory fault ≡ false
        → flow_at job (view value.now) number ≡ Err fault) }
{
    let next = number.saturating_add(1);
    let Some(own) = own_flow_of(value) else {
        return Err(in_element(job, number, MemberFault::Wrong));
    };
    let id = String::from_str(alloc, own.id)?;
    let (elements, next) = elements_at(alloc, job, own.elements, next)?;
    Ok((SplitFlowParts { id, elements }, next))
}

/// Makes the fault of the element of this number, whose own members are wrong.
fn in_element(job: u64, number: u64, fault: MemberFault) -> ReadFault
    ensures wrong { fault ≡ MemberFault.Wrong → result ≡ ReadFault.BadElement job (Some number) }
    ensures memory { fault ≡ MemberFault.OutOfMemory → result ≡ ReadFault.OutOfMemory }
{
    match fault {
        MemberFault::Wrong => ReadFault::BadElement {
            job,
            element: Some(number),
        },
        MemberFault::OutOfMemory => ReadFault::OutOfMemory,
    }
}
