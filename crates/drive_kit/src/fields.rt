// The fields of a row, side by side.
ghost use Rattle.std.specs.Prelude.{◌≡◌, map, IfOk};
ghost use Rattle.csv.specs.Records.{fields_of};

use csv::ByteRecord;
use ho_base::NoMemory;
use std::alloc::Global;
use text_rows::field_of;

// The fields of a row, which can be matched.
pub(crate) fn fields_in<'a>(alloc: Global, row: &'a ByteRecord) -> Result<Vec<&'a [u8]>, NoMemory>
    ensures { IfOk result (λ v. map (λ f. f.now) v.items ≡ fields_of row.now) }
{
    let mut fields = Vec::with_capacity(alloc, row.len())?;
    for i in 0..row.len() {
        fields.push(field_of(row, i))?;
    }
    Ok(fields)
}
