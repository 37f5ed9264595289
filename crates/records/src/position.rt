// The fields of a record, by their positions as document 01 counts them: from 1, both ends with; read, and
// a number written in one.
ghost use Rattle.std.specs.Prelude.{◌≡◌};
ghost use Rattle.sequences.specs.Slice.{StartsAt};
ghost use Rattle.fields.specs.Digits.{digits};
ghost use Rattle.records.specs.Field.{◌to◌, field_start, number_written};
ghost use Rattle.records.specs.Field.{field as Field-field};

// Positions first to last of the record; where it is shorter, what there is of them.
pub fn field(rec: &[u8], first: usize, last: usize) -> &[u8]
    ensures bytes { result.now ≡ Field-field first last rec.now }
    ensures place { StartsAt result rec.entry (field_start first last rec.now) }
{
    let from = first.saturating_sub(1);
    if last <= from {
        return &rec[0..0];
    }
    if rec.len() <= from {
        return &rec[0..0];
    }
    if rec.len() < last {
        return &rec[from..];
    }
    &rec[from..last]
}

// The seven digits of a number, as they stand at 4-10 of a record.
pub fn seven_digits(value: u64) -> [u8; 7]
    ensures { result ≡ digits 7 value }
{
    let mut out = [b'0'; 7];
    fields::write_digits(&mut out, value);
    out
}

// Writes the digits of a number over positions first to last of the record, zeros in front; where it is
// shorter, over what there is of them. It changes no other byte.
pub fn write_number(rec: &mut [u8], first: usize, last: usize, value: u64)
    ensures { rec.new ≡ number_written (first to last) value rec.old }
{
    let from = first.saturating_sub(1);
    let to = last.min(rec.len());
    if to <= from {
        return;
    }
    fields::write_digits(&mut rec[from..to], value);
}
