//! What is called, and what is made.

ghost use Rattle.std.specs.Prelude.{◌≡◌, option_copied};
ghost use Rattle.jr_names.specs.Answered.{Answers};
ghost use Rattle.jr_typing.specs.Views.{view_callee, view_maker, view_scope};
ghost use Rattle.jr_typing_rules.specs.Denotations as spec;

use crate::denotation::{Callee, Maker, mismatch, unknown};
use crate::scope::Scope;
use crate::types::members_of;
use jr_ast::Name;
use jr_base::{ClassId, Elem, Fail, ObjectCall, Refusal, Span};
use jr_names::Names;
use jr_typing_rules::{Face, Library, Members, MethodEntry, ValueType};

/// The methods that each object has, and those of threads (JLS 17.2).
fn monitor_call(is_a_thread: bool, name: &[u8]) -> Option<ObjectCall>
    ensures { result ≡ spec.monitor_call is_a_thread name.now }
{
    if name == b"wait".as_slice() {
        return Some(ObjectCall::Wait);
    }
    if name == b"notify".as_slice() {
        return Some(ObjectCall::Notify);
    }
    if name == b"notifyAll".as_slice() {
        return Some(ObjectCall::NotifyAll);
    }
    if is_a_thread && name == b"start".as_slice() {
        return Some(ObjectCall::Start);
    }
    if is_a_thread && name == b"join".as_slice() {
        return Some(ObjectCall::Join);
    }
    None
}

fn library_callee<'b>(
    scope: &Scope<'_, 'b, '_>,
    name: &Name,
    of: ValueType,
) -> Result<Callee<'b>, Fail>
    ensures { Answers view_callee (spec.library_callee (view_scope scope.now) name.now of) result }
{
    match monitor_call(scope.names.is_thread(of), name.text.as_slice()) {
        Some(call) => Ok(Callee::OfMonitor(call)),
        None => Err(unknown(name.place)),
    }
}

fn instance_callee(at: Span, method: &MethodEntry) -> Result<Callee<'_>, Fail>
    ensures { Answers view_callee (spec.instance_callee at method.now) result }
{
    if method.is_static {
        return Err(mismatch(at));
    }
    Ok(Callee::OfObject(method))
}

/// No call is one of `main`.
fn static_callee(at: Span, method: &MethodEntry) -> Result<Callee<'_>, Fail>
    ensures { Answers view_callee (spec.static_callee at method.now) result }
{
    if !method.is_static || method.is_main {
        return Err(mismatch(at));
    }
    Ok(Callee::OfClass(method))
}

fn declared_or_library<'b>(
    scope: &Scope<'_, 'b, '_>,
    at: Span,
    name: &Name,
    of: ValueType,
    class: ClassId,
) -> Result<Callee<'b>, Fail>
    ensures { Answers view_callee (spec.member_callee (view_scope scope.now) at name.now of (Members.OfClass class)) result }
{
    match scope.names.method_in(class, name.text.as_slice()) {
        Some(method) => instance_callee(at, method),
        None => library_callee(scope, name, of),
    }
}

fn member_callee<'b>(
    scope: &Scope<'_, 'b, '_>,
    at: Span,
    name: &Name,
    of: ValueType,
    members: Members,
) -> Result<Callee<'b>, Fail>
    ensures { Answers view_callee (spec.member_callee (view_scope scope.now) at name.now of members) result }
{
    match members {
        Members::OfArray(_) | Members::OfLibrary => library_callee(scope, name, of),
        Members::OfClass(class) => declared_or_library(scope, at, name, of, class),
        Members::Nothing => Err(mismatch(at)),
    }
}

fn callee_of_library<'b>(name: &Name, library: Library) -> Result<Callee<'b>, Fail>
    ensures { Answers view_callee (spec.callee_of_library name.now library) result }
{
    match library {
        Library::Thread => {
            if name.text.as_slice() == b"yield".as_slice() {
                return Ok(Callee::OfYield);
            }
            if name.text.as_slice() == b"sleep".as_slice() {
                return Ok(Callee::OfSleep);
            }
            Err(unknown(name.place))
        }
        Library::Object | Library::Runnable => Err(unknown(name.place)),
    }
}

#[tactic(auto, unfolding(jr_typing_rules::specs::Denotations::callee_of))]
fn callee_of_class<'b>(
    scope: &Scope<'_, 'b, '_>,
    at: Span,
    name: &Name,
    class: ClassId,
) -> Result<Callee<'b>, Fail>
    ensures { Answers view_callee (spec.callee_of (view_scope scope.now) at name.now (Face.Class class)) result }
{
    match scope.names.method_in(class, name.text.as_slice()) {
        Some(method) => static_callee(at, method),
        None => Err(unknown(name.place)),
    }
}

/// The method of that name of what stands before the dot (JLS 15.12.1).
#[tactic(auto, unfolding(jr_typing_rules::specs::Denotations::callee_of))]
pub fn callee_of<'b>(
    scope: &Scope<'_, 'b, '_>,
    at: Span,
    name: &Name,
    face: Face,
) -> Result<Callee<'b>, Fail>
    ensures { Answers view_callee (spec.callee_of (view_scope scope.now) at name.now face) result }
{
    match face {
        Face::Class(class) => callee_of_class(scope, at, name, class),
        Face::Library(library) => callee_of_library(name, library),
        Face::System(system) => Err(unknown(system)),
        Face::Out(system) => {
            if name.text.as_slice() == b"print".as_slice() {
                return Err(Fail::Refused(Refusal::NotInProfile(name.place)));
            }
            Err(unknown(system))
        }
        Face::Value(of) => member_callee(scope, at, name, of, members_of(of)),
        Face::Nothing => Err(mismatch(at)),
    }
}

/// A method of the own class, by its name alone (JLS 15.12.1).
#[tactic(auto, unfolding(jr_typing_rules::specs::Denotations::own_callee))]
pub fn own_callee<'b>(scope: &Scope<'_, 'b, '_>, at: Span, name: &Name) -> Result<Callee<'b>, Fail>
    ensures { Answers view_callee (spec.own_callee (view_scope scope.now) at name.now) result }
{
    match scope.method(name.text.as_slice()) {
        Some(method) => {
            if method.is_static {
                return static_callee(at, method);
            }
            if scope.is_static {
                return Err(mismatch(at));
            }
            Ok(Callee::OfObject(method))
        }
        None => {
            let callee = library_callee(scope, name, ValueType::Single(Elem::Class(scope.own)))?;
            if scope.is_static {
                return Err(mismatch(at));
            }
            Ok(callee)
        }
    }
}

/// The formals of a constructor, of which a class may have none (JLS 8.8.9).
#[tactic(auto, unfolding(jr_typing_rules::specs::Denotations::constructor_formals))]
fn constructor_formals<'b>(names: &'b Names<'_>, class: ClassId) -> &'b [ValueType]
    ensures { result.now ≡ spec.constructor_formals names.now.names class }
{
    match names.constructor(class) {
        Some(method) => method.formals.as_slice(),
        None => &[],
    }
}

/// What `new` makes (JLS 15.9).
#[tactic(auto, unfolding(jr_typing_rules::specs::Denotations::maker))]
pub fn maker_of<'b>(scope: &Scope<'_, 'b, '_>, at: Span, name: &Name) -> Result<Maker<'b>, Fail>
    ensures { Answers view_maker (spec.maker (view_scope scope.now) at name.now) result }
{
    let text = name.text.as_slice();
    if text == b"Object".as_slice() {
        return Ok(Maker::MakesPlain);
    }
    if text == b"Thread".as_slice() {
        return Ok(Maker::MakesThread);
    }
    if text == b"Runnable".as_slice() {
        return Err(mismatch(at));
    }
    match scope.names.class_named(text) {
        Some(class) => Ok(Maker::MakesObject(class, constructor_formals(scope.names, class))),
        None => Err(unknown(name.place)),
    }
}
