// Cells of best values.
ghost use Rattle.std.specs.Prelude.{◌≡◌, ◌≤◌, length};
ghost use Rattle.segments.specs.Algebra.{algebra};
ghost use Rattle.engine.specs.Cells.{better_of, Improved};

use tariff::Tariff;

// Puts a value into a cell unless what it holds is as good.
fn put<V: Tariff>(cell: &mut Option<V>, value: V)
    ensures { cell.new ≡ better_of (algebra V.good V.joining) cell.old value }
{
    if !cell.is_some_and(|held| held.as_good(value)) {
        *cell = Some(value);
    }
}

// Joins an entry's value to a row of rests, and keeps in another row what is better.
pub(crate) fn improve<V: Tariff>(rests: &[Option<V>], row: &mut [Option<V>], value: V)
    requires { length row.old ≤ length rests.now }
    ensures { Improved (algebra V.good V.joining) value rests.now row.old row.new }
{
    // by index: of a zip with `iter_mut` a proof learns nothing that it wrote
    for (d, cell) in row.iter_mut().enumerate() {
        if let Some(rest) = rests[d] {
            put(cell, value.join(rest));
        }
    }
}
