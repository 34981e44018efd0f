// The record reader: the lent load list and the number of the record it stands at. It promises the reader at the first record, whether a
// record is left, the record's operation and fields, and the reader at the next record; read so, a list gives each of its records once and
// in order. The work is in functions on the plain list. Records stand below it; the listing above.
#![tactic(auto)]

ghost use Rattle.std.specs.Prelude.{◌≡◌, Bool, ℕ, ◌<◌};
ghost use Rattle.records.specs.Reader.{is_left_at, number_after, record_at, at_first, is_left, record_of, moved};

use listcount::record_count;
use loadlist::Record;
use loadlist::records::record_at;

#[derive(Clone, Copy)]
pub struct Records<'a> {
    pub list: &'a [u8],
    pub number: usize,
}

// Whether the list has a record of the number; a part of one counts.
fn is_left_at(list: &[u8], number: usize) -> bool
    ensures { result ≡ is_left_at list.now number }
{
    number < record_count(list)
}

// The number of the next record. Past the last record it stays, so that no number is too large.
fn number_after(list: &[u8], number: usize) -> usize
    ensures { result ≡ number_after list.now number }
{
    if number < record_count(list) {
        return number + 1;
    }
    number
}

// The record of the number.
fn record_by(list: &[u8], number: usize) -> Record
    ensures { result ≡ record_at list.now number }
{
    record_at(list, number)
}

// The reader at the first record.
pub fn first<'a>(list: &'a [u8]) -> Records<'a>
    ensures { result ≡ at_first list.entry }
{
    Records { list, number: 0 }
}

// Whether a record is left.
pub fn is_left<'a>(reader: Records<'a>) -> bool
    ensures { result ≡ is_left reader.entry }
{
    is_left_at(reader.list, reader.number)
}

// The operation and the two fields of the record that the reader stands at.
pub fn record_of<'a>(reader: Records<'a>) -> Record
    ensures { result ≡ record_of reader.entry }
{
    record_by(reader.list, reader.number)
}

// The reader at the next record.
pub fn moved<'a>(reader: Records<'a>) -> Records<'a>
    ensures { result ≡ moved reader.entry }
{
    let number = number_after(reader.list, reader.number);
    Records {
        list: reader.list,
        number,
    }
}
