ghost use Rattle.std.specs.Prelude.{◌≡◌};
ghost use Rattle.adg_model.specs.Sound.{fits_kind, fits_row};

use adg_base::value::{ColKind, Value};

/// Whether a value may stand in a column of this kind.
pub fn fits_kind(value: &Value, kind: ColKind) -> bool
    ensures { result ≡ fits_kind value.now kind }
{
    match value {
        Value::Null => true,
        Value::Int(_) => kind == ColKind::Int,
        Value::Text(_) => kind == ColKind::Text,
    }
}

/// Whether there is one value for each column, and each may stand in its column.
pub fn fits_row(values: &[Value], kinds: &[ColKind]) -> bool
    ensures { result ≡ fits_row values.now kinds.now }
{
    if values.len() != kinds.len() {
        return false;
    }
    for (i, value) in values.iter().enumerate() {
        if !fits_kind(value, kinds[i]) {
            return false;
        }
    }
    true
}
