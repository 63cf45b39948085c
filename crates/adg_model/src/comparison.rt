//! Which orders of two values a comparison allows.

ghost use Rattle.std.specs.Prelude.{◌≡◌};
ghost use Rattle.adg_model.specs.Query.{allows};

use adg_base::command::Op;
use std::cmp::Ordering;

/// Whether a value may stand so to the literal.
pub fn is_allowed(op: Op, order: Ordering) -> bool
    ensures { result ≡ allows op order }
{
    match op {
        Op::Eq => order.is_eq(),
        Op::Ne => !order.is_eq(),
        Op::Lt => order.is_lt(),
        Op::Le => !order.is_gt(),
        Op::Gt => order.is_gt(),
        Op::Ge => !order.is_lt(),
    }
}
