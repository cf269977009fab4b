//! What a value is as a text.

ghost use Rattle.std.specs.Prelude.{◌≡◌, ◌⊎◌, Result, Err};
ghost use Rattle.cy_values.specs.Compare.{lent};
ghost use Rattle.cy_expr.specs.declared.faults.EvalFault.TheVariants.{NoMemory};
ghost use Rattle.cy_expr.specs.Conversions as spec;

use crate::faults::EvalFault;
use cy_values::{Text, Value, ValueRef};
use std::alloc::Global;

/// `toString`: an integer in decimal, `true` or `false`, or a text itself; `WrongType` for a list.
/// (openCypher 9, String functions; the fault: own)
pub(crate) fn to_text(alloc: Global, value: ValueRef<'_>) -> Result<Value, EvalFault>
    ensures { (result ≡ spec.as_text (lent value.entry)) ⊎ (result ≡ Err NoMemory) }
{
    match value {
        ValueRef::Int(number) => Ok(Value::Text(Text::new(number.to_string(alloc)?)?)),
        ValueRef::Bool(true) => Ok(Value::Text(Text::from_str(alloc, "true")?)),
        ValueRef::Bool(false) => Ok(Value::Text(Text::from_str(alloc, "false")?)),
        ValueRef::Text(text) => Ok(Value::Text(Text::from_str(alloc, text)?)),
        ValueRef::Null => Ok(Value::Null),
        ValueRef::List(_) => Err(EvalFault::WrongType),
    }
}
