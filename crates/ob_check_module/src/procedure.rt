//! Procedures.

ghost use Rattle.std.specs.Prelude.{◌≡◌, ◌++◌, ◌+◌, suc, sum, map, length, IfOk, IfSome, IfNone};
ghost use Rattle.ob_tree.specs.declared.tree.Procedure.{out-Procedure};
ghost use Rattle.ob_check_scope.specs.Rule.{Judges, through};
ghost use Rattle.ob_check_scope.specs.Sites.{on};
ghost use Rattle.ob_check_module.specs.Procedures as spec;

use ob_base::Items;
use ob_check_decl::{Entered, declare_all, enter_procedure};
use ob_check_expr::assigned_value;
use ob_check_kinds::{Made, parameters_of, shape_of};
use ob_check_scope::rejected::{Rejected, broken, open};
use ob_check_scope::rule::RuleCode;
use ob_check_scope::{Declared, Entry, Imports, Scope, Site, Standing};
use ob_check_stmt::statement::optional;
use ob_check_strings::Variables;
use ob_mean::{Shape, TypedExpr, TypedProcedure, TypedStatement};
use ob_scan::Span;
use ob_tree::tree::{Procedure, Returned};
use ob_types::{Basic, Signature};
use std::alloc::{AllocError, Global};

/// The scope, the procedures that ended so far, and the variables of the module so far.
pub type Checking = (Scope, Items<TypedProcedure>, Variables);

/// One less, if there is one.
fn one_less(levels: u32) -> Option<u32>
    ensures some { IfSome result (λ n. levels ≡ suc n) }
    ensures none { IfNone result (levels ≡ 0) }
{
    if levels == 0 {
        return None;
    }
    Some(levels - 1)
}

/// How many procedures a procedure is, with those in it. None where that is no number of 64 bits.
#[cycle(counting)]
#[tactic(auto, unfolding(crate::specs::Procedures::counted))]
fn counted(levels: u32, p: &Procedure) -> Option<usize>
    ensures { IfSome result (λ n. n ≡ spec.counted levels p.now) }
{
    match one_less(levels) {
        None => Some(0),
        Some(inside) => {
            let total = all_counted(inside, p.declarations.get().procedures.as_slice())?;
            total.checked_add(1)
        }
    }
}

#[cycle(counting)]
fn all_counted(levels: u32, list: &[Procedure]) -> Option<usize>
    ensures { IfSome result (λ n. n ≡ sum (map (spec.counted levels) list.now)) }
{
    let mut total: usize = 0;
    for p in list {
        total = total.checked_add(counted(levels, p)?)?;
    }
    Some(total)
}

/// The number of a procedure, after `before` others and those in it.
fn number_of(levels: u32, before: usize, p: &Procedure) -> Result<usize, AllocError>
    ensures { IfOk result (λ n. n ≡ before + spec.nested levels p.now) }
{
    let list = p.declarations.get().procedures.as_slice();
    match all_counted(levels, list) {
        Some(inside) => match before.checked_add(inside) {
            Some(number) => Ok(number),
            None => Err(AllocError),
        },
        None => Err(AllocError),
    }
}

/// The variable that a declaration of a procedure makes, if it makes one: the parameters stand before it.
fn own_shape(
    alloc: Global,
    made: &mut Made,
    so_far: Items<Shape>,
    parameters: usize,
    entry: &Entry,
) -> Result<Items<Shape>, AllocError>
    ensures { IfOk result (λ ss. ss ≡ so_far ++ spec.own_shape parameters entry.now) }
{
    let mut so_far = so_far;
    match entry {
        Entry::Variable(of, Standing::Local(i)) => {
            if parameters <= *i {
                so_far.push(shape_of(alloc, made, of)?)?;
            }
            Ok(so_far)
        }
        _ => Ok(so_far),
    }
}

/// The variables of a procedure, after `parameters` parameters.
fn own_shapes(
    alloc: Global,
    made: &mut Made,
    parameters: usize,
    declared: &[Declared],
) -> Result<Items<Shape>, AllocError>
    ensures { IfOk result (λ ss. ss ≡ spec.own_shapes parameters declared.now) }
{
    let mut so_far = Items::new(alloc);
    for d in declared {
        so_far = own_shape(alloc, made, so_far, parameters, &d.entry)?;
    }
    Ok(so_far)
}

/// What stands after RETURN, in a function alone.
#[tactic(auto, unfolding(crate::specs::Procedures::result_at))]
fn returned(
    site: Site<'_>,
    basic: Option<Basic>,
    variables: Variables,
    value: &Option<Returned>,
    span: Span,
) -> Result<(Option<TypedExpr>, Variables), Rejected>
    ensures { Judges (on spec.result_at site.entry basic variables value.now) result }
{
    match (basic, value) {
        (None, None) => Ok((None, variables)),
        (None, Some(r)) => Err(Rejected::Rule(broken(RuleCode::Parameters, r.span))),
        (Some(_), None) => Err(Rejected::Rule(broken(RuleCode::Parameters, span))),
        (Some(basic), Some(r)) => {
            let e = r.value.get();
            let (e, variables) = assigned_value(site, basic, variables, e)?;
            Ok((Some(e), variables))
        }
    }
}

/// A procedure as its parts make it, or lack of memory.
fn typed_procedure(
    alloc: Global,
    signature: &Signature,
    scope: &Scope,
    body: Items<TypedStatement>,
    returned: Option<TypedExpr>,
) -> Result<TypedProcedure, AllocError>
    ensures { IfOk result (λ p. p ≡ spec.typed_procedure signature.now scope.now body returned) }
{
    let formals = signature.formals.as_slice();
    let mut made = Made::new(alloc);
    let parameters = parameters_of(alloc, &mut made, formals)?;
    let variables = own_shapes(alloc, &mut made, formals.len(), scope.block.declared())?;
    Ok(TypedProcedure {
        parameters,
        variables,
        body,
        result: returned,
    })
}

/// The body and the result of a procedure, in the scope after its declarations.
#[tactic(auto, unfolding(crate::specs::Procedures::body_of))]
fn body_of(
    alloc: Global,
    imports: &Imports,
    levels: u32,
    signature: &Signature,
    so_far: Checking,
    p: &Procedure,
) -> Result<Checking, Rejected>
    ensures { Judges (spec.body_of imports.now levels signature.now so_far p.now) result }
{
    let (scope, mut done, variables) = so_far;
    let span = p.name.name.span;
    let list = p.body.as_slice();
    let site = Site {
        alloc,
        imports,
        scope: &scope,
        levels,
    };
    let (statements, variables) = optional(site, variables, list, span)?;
    let basic = signature.result;
    let value = &p.returned;
    let (value, variables) = returned(site, basic, variables, value, span)?;
    let procedure = typed_procedure(alloc, signature, &scope, statements, value)?;
    done.push(procedure)?;
    Ok((scope.leave(), done, variables))
}

/// A procedure that was entered: its declarations, the procedures in it, its body.
/// `before` has the procedures that ended so far, and the variables of the module so far.
#[cycle(procedures)]
#[tactic(auto, unfolding(crate::specs::Procedures::inside_of))]
fn inside_of(
    alloc: Global,
    imports: &Imports,
    levels: u32,
    entered: Entered,
    before: (Items<TypedProcedure>, Variables),
    p: &Procedure,
) -> Result<Checking, Rejected>
    ensures { Judges (spec.inside_of imports.now levels (spec.procedure_at imports.now levels) entered before.0 before.1 p.now) result }
{
    let declarations = p.declarations.get();
    let Entered { scope, signature } = entered;
    let scope = declare_all(alloc, imports, levels, scope, declarations)?;
    let (done, variables) = before;
    let so_far = (scope, done, variables);
    let list = declarations.procedures.as_slice();
    let so_far = procedures(alloc, imports, levels, so_far, list)?;
    body_of(alloc, imports, levels, &signature, so_far, p)
}

/// A procedure, inside its construct.
#[cycle(procedures)]
#[tactic(auto, unfolding(crate::specs::Procedures::procedure_of))]
fn procedure_of(
    alloc: Global,
    imports: &Imports,
    levels: u32,
    so_far: Checking,
    p: &Procedure,
) -> Result<Checking, Rejected>
    ensures { Judges (spec.procedure_of imports.now levels (spec.procedure_at imports.now levels) so_far p.now) result }
{
    let (scope, done, variables) = so_far;
    let number = number_of(levels, done.len(), p)?;
    let entered = enter_procedure(alloc, imports, levels, number, scope, p)?;
    inside_of(alloc, imports, levels, entered, (done, variables), p)
}

/// One procedure more.
#[cycle(procedures)]
#[tactic(auto, unfolding(crate::specs::Procedures::procedure_at))]
fn procedure(
    alloc: Global,
    imports: &Imports,
    levels: u32,
    so_far: Checking,
    p: &Procedure,
) -> Result<Checking, Rejected>
    ensures { Judges (spec.procedure_at imports.now levels so_far p.now) result }
{
    let inside = open(levels, p.name.name.span)?;
    procedure_of(alloc, imports, inside, so_far, p)
}

/// The procedures of a module or of a procedure, after its other declarations.
#[cycle(procedures)]
pub fn procedures(
    alloc: Global,
    imports: &Imports,
    levels: u32,
    so_far: Checking,
    list: &[Procedure],
) -> Result<Checking, Rejected>
    ensures { Judges (through (spec.procedure_at imports.now levels) so_far list.now) result }
{
    let mut so_far = so_far;
    for p in list {
        so_far = procedure(alloc, imports, levels, so_far, p)?;
    }
    Ok(so_far)
}
