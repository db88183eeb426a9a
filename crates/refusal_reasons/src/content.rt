//! What is wrong with the content of a request.
ghost use Rattle.std.specs.Prelude.{◌≡◌, Some, false, IfOk, OnOk};
ghost use Rattle.attribute_rules.specs.Admission as admission;
ghost use Rattle.attribute_rules.specs.declared.table.Writing.TheVariants as writings;
ghost use Rattle.refusal_reasons.specs.Facts as spec;

use crate::OutOfMemory;
use crate::naming::{subject_of, writing_by};
use attribute_rules::{AttrFault, Writing, admit_create, admit_update};
use m2m_names::{Op, Ty};
use m2m_value::Val;
use primitive_json::{Request, RequestParts};
use std::alloc::Global;

/// A fault, unless it is that memory ran out.
fn told(fault: AttrFault) -> Result<Option<AttrFault>, OutOfMemory>
    ensures value { IfOk result (λ f. f ≡ Some fault) }
    ensures known { OnOk result (spec.is_memory fault ≡ false) }
{
    match fault {
        AttrFault::OutOfMemory => Err(OutOfMemory),
        fault => Ok(Some(fault)),
    }
}

/// The first fault of the content of a Create for a type, where it has one.
fn created_fault(alloc: Global, ty: Ty, content: Val) -> Result<Option<AttrFault>, OutOfMemory>
    ensures { IfOk result (λ f. f ≡ admission.fault_of writings.Create ty content) }
{
    match admit_create(alloc, ty, content) {
        Ok(_) => Ok(None),
        Err(fault) => told(fault),
    }
}

/// The first fault of the content of an Update for a type, where it has one.
fn updated_fault(alloc: Global, ty: Ty, content: Val) -> Result<Option<AttrFault>, OutOfMemory>
    ensures { IfOk result (λ f. f ≡ admission.fault_of writings.Update ty content) }
{
    match admit_update(alloc, ty, content) {
        Ok(_) => Ok(None),
        Err(fault) => told(fault),
    }
}

fn fault_by(
    alloc: Global,
    op: Op,
    ty: Option<Ty>,
    content: Val,
) -> Result<Option<AttrFault>, OutOfMemory>
    ensures { IfOk result (λ f. f ≡ spec.fault_by op ty content) }
{
    let Some(ty) = ty else {
        return Ok(Some(AttrFault::Shape));
    };
    match writing_by(op) {
        Writing::Create => created_fault(alloc, ty, content),
        Writing::Update => updated_fault(alloc, ty, content),
    }
}

/// The first fault of the content of a request, where it has content and that has one.
pub fn content_fault(alloc: Global, request: Request) -> Result<Option<AttrFault>, OutOfMemory>
    ensures { IfOk result (λ f. f ≡ spec.content_fault request) }
{
    let ty = subject_of(&request);
    let RequestParts { op, pc, .. } = request.into_parts();
    match pc {
        Some(content) => fault_by(alloc, op, ty, content),
        None => Ok(None),
    }
}
