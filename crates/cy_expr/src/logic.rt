//! Truth operators on values. They look at both operands; one that is neither boolean nor null is a fault.

ghost use Rattle.std.specs.Prelude.{◌≡◌};
ghost use Rattle.cy_values.specs.Compare.{lent};
ghost use Rattle.cy_expr.specs.Logic as spec;

use crate::faults::EvalFault;
use cy_values::{Truth, Value, ValueRef};

/// The truth that a value stands for: null is unknown. `NotBoolean` for what is neither boolean nor null.
/// (openCypher 9, Boolean operators; the fault: own)
pub(crate) fn truth_of(value: ValueRef<'_>) -> Result<Truth, EvalFault>
    ensures { result ≡ spec.truth_of (lent value.entry) }
{
    match value {
        ValueRef::Bool(holds) => Ok(Truth::known(holds)),
        ValueRef::Null => Ok(Truth::Unknown),
        ValueRef::List(_) | ValueRef::Text(_) | ValueRef::Int(_) => Err(EvalFault::NotBoolean),
    }
}

/// The value that stands for a truth.
pub(crate) fn value_of(truth: Truth) -> Value
    ensures { result ≡ spec.value_of truth }
{
    match truth {
        Truth::Yes => Value::Bool(true),
        Truth::No => Value::Bool(false),
        Truth::Unknown => Value::Null,
    }
}

/// `AND`.
pub(crate) fn and(left: ValueRef<'_>, right: ValueRef<'_>) -> Result<Value, EvalFault>
    ensures { result ≡ spec.conjunction (lent left.entry) (lent right.entry) }
{
    Ok(value_of(truth_of(left)?.and(truth_of(right)?)))
}

/// `OR`.
pub(crate) fn or(left: ValueRef<'_>, right: ValueRef<'_>) -> Result<Value, EvalFault>
    ensures { result ≡ spec.disjunction (lent left.entry) (lent right.entry) }
{
    Ok(value_of(truth_of(left)?.or(truth_of(right)?)))
}

/// `XOR`.
pub(crate) fn xor(left: ValueRef<'_>, right: ValueRef<'_>) -> Result<Value, EvalFault>
    ensures { result ≡ spec.exclusive_disjunction (lent left.entry) (lent right.entry) }
{
    Ok(value_of(truth_of(left)?.xor(truth_of(right)?)))
}

/// `NOT`.
pub(crate) fn not(operand: ValueRef<'_>) -> Result<Value, EvalFault>
    ensures { result ≡ spec.negation (lent operand.entry) }
{
    Ok(value_of(truth_of(operand)?.not()))
}
