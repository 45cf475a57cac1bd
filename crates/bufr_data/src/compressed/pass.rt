//! Passes columns. After a fault the reader may have moved.

ghost use Rattle.std.specs.Prelude.{◌≡◌, ◌≤◌, ◌<◌, ◌*◌, ◌^◌, length, drop, List, Ok, Err, IfOk};
ghost use Rattle.std.specs.Prelude.{IfErr, OnOk, true, false, ◌==◌, ◌&&◌, if◌then◌else◌};
ghost use Rattle.bufr_bits.specs.Bits.{numbers};
ghost use Rattle.bufr_bits.specs.Ends.{left};
ghost use Rattle.bufr_tables.specs.declared.element.Kind.TheVariants.{Count, Text};
ghost use Rattle.bufr_tables.specs.Elements.{same_kind};
ghost use Rattle.bufr_fields.specs.declared.field.Raw.{Raw};
ghost use Rattle.bufr_data.specs.Compressed.Reading.{column_at, all_raised};
ghost use Rattle.bufr_data.specs.Compressed.Passed.{head_at, PassesColumn, PassesFactor, AreRaised};
ghost use Rattle.bufr_data.specs.Compressed.Passed.{agreed_at};
ghost use Rattle.bufr_fields.specs.Limits.{most_raw_bits};

use bufr_bits::BitReader;
use bufr_expand::Spec;
use bufr_fields::{DataFault, MOST_RAW_BITS, never_passes, raised};
use bufr_tables::Kind;

/// Passes the column of field `i`, no factor, in `n` subsets.
pub(crate) fn pass_column(
    reader: &mut BitReader,
    spec: Spec,
    n: u16,
    i: u64,
) -> Result<(), DataFault>
    ensures ok { OnOk result (PassesColumn n i spec (left reader.old) (left reader.new)) }
    ensures err { IfErr result (λ fault. column_at n i spec (left reader.old) ≡ Err fault) }
    ensures octets { reader.new.octets ≡ reader.old.octets }
    ensures onward { reader.old.place ≤ reader.new.place }
{
    match spec.kind {
        Kind::Text => pass_texts(reader, spec, n, i),
        _ => pass_numbers(reader, spec, n, i),
    }
}

fn pass_texts(reader: &mut BitReader, spec: Spec, n: u16, i: u64) -> Result<(), DataFault>
    requires { spec.kind ≡ Text }
    ensures ok { OnOk result (PassesColumn n i spec (left reader.old) (left reader.new)) }
    ensures err { IfErr result (λ fault. column_at n i spec (left reader.old) ≡ Err fault) }
    ensures octets { reader.new.octets ≡ reader.old.octets }
    ensures onward { reader.old.place ≤ reader.new.place }
{
    let ends = DataFault::DataEnds(0, i);
    let octets = u64::from(spec.width / 8);
    if !reader.pass(8 * u128::from(octets)) {
        return Err(ends);
    }
    let k = match reader.take(6) {
        None => return Err(ends),
        Some(k) => k,
    };
    if k > octets {
        return Err(DataFault::CharIncrement(i));
    }
    if reader.pass(8 * u128::from(k) * u128::from(n)) {
        Ok(())
    } else {
        Err(ends)
    }
}

/// Passes a column of numbers, and reads them only if one may be too large.
fn pass_numbers(reader: &mut BitReader, spec: Spec, n: u16, i: u64) -> Result<(), DataFault>
    requires { same_kind spec.kind Text ≡ false }
    ensures ok { OnOk result (PassesColumn n i spec (left reader.old) (left reader.new)) }
    ensures err { IfErr result (λ fault. column_at n i spec (left reader.old) ≡ Err fault) }
    ensures octets { reader.new.octets ≡ reader.old.octets }
    ensures onward { reader.old.place ≤ reader.new.place }
{
    let (minimum, k) = column_head(reader, spec.width, i)?;
    if k == 0 {
        return Ok(());
    }
    let ends = DataFault::DataEnds(0, i);
    let bits = u128::from(n) * u128::from(k);
    if never_passes(spec.width, minimum, k) {
        return if reader.pass(bits) { Ok(()) } else { Err(ends) };
    }
    if reader.left() < bits {
        return Err(ends);
    }
    let _ = read_increments(reader, spec.width, minimum, k, n, i)?;
    Ok(())
}

/// Passes the column of a factor and returns its one number.
pub(crate) fn pass_factor(
    reader: &mut BitReader,
    spec: Spec,
    n: u16,
    i: u64,
) -> Result<u64, DataFault>
    requires counts { same_kind spec.kind Count ≡ true }
    requires some { 0 < n }
    ensures ok { IfOk result (λ number. PassesFactor n i spec (left reader.old) number
        (left reader.new)) }
    ensures fits { IfOk result (λ number. number < 2 ^ spec.width) }
    ensures err { IfErr result (λ fault. agreed_at n i spec (left reader.old) ≡ Err fault) }
    ensures octets { reader.new.octets ≡ reader.old.octets }
    ensures onward { reader.old.place ≤ reader.new.place }
{
    let (minimum, k) = column_head(reader, spec.width, i)?;
    if k == 0 {
        return Ok(minimum);
    }
    if reader.left() < u128::from(n) * u128::from(k) {
        return Err(DataFault::DataEnds(0, i));
    }
    let (number, equal) = read_increments(reader, spec.width, minimum, k, n, i)?;
    if equal {
        Ok(number)
    } else {
        Err(DataFault::UnequalCounts(i))
    }
}

/// Reads the minimum R0 and the width NBINC.
fn column_head(reader: &mut BitReader, width: u32, i: u64) -> Result<(u64, u32), DataFault>
    ensures ok { IfOk result (λ head. head_at i width (left reader.old)
        ≡ Ok (head, left reader.new)) }
    ensures narrow { OnOk result (width ≤ most_raw_bits) }
    ensures below { IfOk result (λ head. head.0 < 2 ^ width) }
    ensures few { IfOk result (λ head. head.1 < 2 ^ 6) }
    ensures err { IfErr result (λ fault. head_at i width (left reader.old) ≡ Err fault) }
    ensures octets { reader.new.octets ≡ reader.old.octets }
    ensures onward { reader.old.place ≤ reader.new.place }
{
    let ends = DataFault::DataEnds(0, i);
    if width > MOST_RAW_BITS {
        return Err(ends);
    }
    let minimum = match reader.take(width) {
        None => return Err(ends),
        Some(minimum) => minimum,
    };
    match reader.take(6) {
        None => Err(ends),
        Some(k) => Ok((minimum, k as u32)),
    }
}

/// Reads `n` increments; returns the first number, and whether all are equal.
fn read_increments(
    reader: &mut BitReader,
    width: u32,
    minimum: u64,
    k: u32,
    n: u16,
    i: u64,
) -> Result<(u64, bool), DataFault>
    requires narrow { width ≤ most_raw_bits }
    requires few { k < 2 ^ 6 }
    requires enough { n * k ≤ length (left reader.old) }
    ensures ok { IfOk result (λ found. AreRaised i width minimum k (numbers n k (left reader.old))
        found.0 found.1) }
    ensures fits { IfOk result (λ found. 0 < n → found.0 < 2 ^ width) }
    ensures moved { OnOk result (left reader.new ≡ drop (n * k) (left reader.old)) }
    ensures err { IfErr result (λ fault. all_raised 1 i width minimum k
        (numbers n k (left reader.old)) ≡ Err fault) }
    ensures octets { reader.new.octets ≡ reader.old.octets }
    ensures onward { reader.old.place ≤ reader.new.place }
{
    let mut first = 0;
    let mut equal = true;
    for j in 0..n {
        let increment = match reader.take(k) {
            None => return Err(DataFault::DataEnds(0, i)),
            Some(increment) => increment,
        };
        let number = match raised(width, minimum, k, increment) {
            None => return Err(DataFault::IncrementRange(u64::from(j) + 1, i)),
            Some(number) => number,
        };
        first = first_number(j, first, number);
        equal = both(equal, number == first);
    }
    Ok((first, equal))
}

fn first_number(index: u16, first: u64, number: u64) -> u64
    ensures { result ≡ (if index == 0 then number else first) }
{
    if index == 0 { number } else { first }
}

fn both(a: bool, b: bool) -> bool
    ensures { result ≡ (a && b) }
{
    a && b
}
