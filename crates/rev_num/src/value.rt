//! Values of a program.

ghost use Rattle.std.specs.Prelude.{◌≡◌, IfOk};
ghost use Rattle.rev_num.specs.Value.{kind_of};

use crate::path::Path;
use std::alloc::{AllocError, Global};

/// The kind of a value.
#[derive(Clone, Copy)]
pub enum ValueKind {
    Int,
    Bool,
    Rev,
}

/// A value: a signed number of 64 bits, a truth value, or a handle, which is a revision's path or
/// `none`.
#[derive(PartialEq, Eq, Drop)]
pub enum Value {
    Int(i64),
    Bool(bool),
    Rev(Option<Path>),
}

impl Value {
    /// What kind of value it is.
    pub fn kind(&self) -> ValueKind
        ensures { result ≡ kind_of self.now }
    {
        match self {
            Value::Int(_) => ValueKind::Int,
            Value::Bool(_) => ValueKind::Bool,
            Value::Rev(_) => ValueKind::Rev,
        }
    }

    /// An equal value.
    pub fn copy(&self, alloc: Global) -> Result<Value, AllocError>
        ensures { IfOk result (λ v. v ≡ self.now) }
    {
        Ok(match self {
            Value::Int(n) => Value::Int(*n),
            Value::Bool(b) => Value::Bool(*b),
            Value::Rev(None) => Value::Rev(None),
            Value::Rev(Some(path)) => Value::Rev(Some(path.copy(alloc)?)),
        })
    }
}

/// Why a number has no value.
#[derive(Clone, Copy, PartialEq, Eq)]
pub enum NumFault {
    Overflow,
    ZeroDivisor,
}
