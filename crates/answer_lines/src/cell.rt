//! The cells of a result line.

ghost use Rattle.std.specs.Prelude.{◌≡◌, ◌++◌, OnOk, string_bytes, codes};
ghost use Rattle.std.specs.List.{flat_map};
ghost use Rattle.adg_model.specs.Command.{quoted};
ghost use Rattle.adg_model.specs.Reply.{cell_bytes, cells_bytes};

use adg_base::answer::Cell;
use adg_base::memory::Memory;
use adg_base::text::Text;

/// Adds cells with a bar between each two.
pub fn push_cells(text: &mut String, cells: &[Cell]) -> Result<(), Memory>
    ensures { OnOk result (string_bytes text.new ≡ string_bytes text.old ++ cells_bytes cells.now) }
{
    match cells.split_first() {
        Some((first, others)) => {
            push_cell(text, first)?;
            push_others(text, others)?;
            Ok(())
        }
        None => Ok(()),
    }
}

/// Adds cells, each behind a bar.
fn push_others(text: &mut String, cells: &[Cell]) -> Result<(), Memory>
    ensures { OnOk result (string_bytes text.new ≡ string_bytes text.old ++ flat_map (λ c. codes "|" ++ cell_bytes c) cells.now) }
{
    for cell in cells {
        text.push_str("|")?;
        push_cell(text, cell)?;
    }
    Ok(())
}

fn push_cell(text: &mut String, cell: &Cell) -> Result<(), Memory>
    ensures { OnOk result (string_bytes text.new ≡ string_bytes text.old ++ cell_bytes cell.now) }
{
    match cell {
        Cell::Null => {
            text.push_str("NULL")?;
            Ok(())
        }
        Cell::Number(number) => {
            write!(text, "{number}")?;
            Ok(())
        }
        Cell::Text(value) => push_quoted(text, value),
    }
}

/// Adds a text value between quotation marks.
fn push_quoted(text: &mut String, value: &Text) -> Result<(), Memory>
    ensures { OnOk result (string_bytes text.new ≡ string_bytes text.old ++ quoted value.now) }
{
    text.push_str("'")?;
    text.push_str(str_of(value))?;
    text.push_str("'")?;
    Ok(())
}

/// The bytes of a text value, which are ASCII, as a string.
fn str_of(value: &Text) -> &str
    ensures { result.now ≡ value.now }
{
    str::from_utf8(value.as_bytes()).unwrap()
}
