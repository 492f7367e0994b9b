//! Code, as it is emitted, checked and run: numbered rows whose arguments are places in lists.

use crate::instr::Instr;
use jr_base::{ClassId, ClauseId, Elem, Fault, NewKind, ObjId, Reserved, SlotKind, TextId};

/// A field: the class object of a static one, its slot and its kind.
#[derive(Clone, Copy, Debug, PartialEq, Eq)]
pub struct FieldCode {
    pub home: Option<ObjId>,
    pub slot: u32,
    pub kind: SlotKind,
}

/// What a region does with an exception: a catch goes on at the region's target with those of its class, and an exit
/// gives back the monitor of the object in that local (JLS 14.19, 14.20).
#[derive(Clone, Copy, Debug, PartialEq, Eq)]
pub enum RegionKind {
    Catch(Fault),
    Exit(u32),
}

/// The instructions from `first` on and before `past`. Only a catch has a target.
#[derive(Clone, Copy, Debug, PartialEq, Eq)]
pub struct Region {
    pub first: u32,
    pub past: u32,
    pub kind: RegionKind,
    pub target: u32,
}

/// An `assert` of JML: its clause, and the locals in scope.
#[derive(Drop)]
pub struct AssertCode {
    pub clause: ClauseId,
    pub scope: Reserved<u32>,
}

/// The code of a method. Its locals begin with `this`, where it isn't static, and then its formals.
#[derive(Drop)]
pub struct MethodCode {
    pub class: ClassId,
    pub formals: Reserved<SlotKind>,
    pub result: Option<SlotKind>,
    pub is_static: bool,
    pub is_synchronized: bool,
    pub instrs: Reserved<Instr>,
    pub regions: Reserved<Region>,
    pub locals: Reserved<SlotKind>,
}

/// The code of a program: its methods, and the lists whose places instructions name. A part of a print is a text, or
/// none where a value is taken.
#[derive(Drop)]
pub struct Code {
    pub methods: Reserved<MethodCode>,
    pub fields: Reserved<FieldCode>,
    pub longs: Reserved<i64>,
    pub classes: Reserved<ClassId>,
    pub makes: Reserved<NewKind>,
    pub elems: Reserved<Elem>,
    pub faults: Reserved<Fault>,
    pub prints: Reserved<Reserved<Option<TextId>>>,
    pub asserts: Reserved<AssertCode>,
}
