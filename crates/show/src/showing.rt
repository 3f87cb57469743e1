//! The command `show`: the records of one node's store, read by pages. One page at a time is in memory.
ghost use Rattle.std.specs.Prelude.{◌≡◌, ◌≢◌, ◌≤◌, ◌<◌, ◌+◌, ◌-◌, ◌^◌, ◌++◌, ℕ, List, length, min, Err, IfOk, IfErr, IsTrue, OnOk, false, decimal};
ghost use Rattle.std.specs.Io.KnownBytes.{Appends};
ghost use Rattle.wire.specs.declared.input.Input.{Input};
ghost use Rattle.stores.specs.Faults.{is_device_fault, IsReadFault};
ghost use Rattle.stores.specs.Records.{AreRecords, IsDamagedAt, page_size};
ghost use Rattle.stores.specs.declared.fault.StoreFault.{StoreFault};
ghost use Rattle.show.specs.Pages.{Reads, Stops, Shows, FailsToWrite, FailsWithin};
ghost use Rattle.show.specs.Show.{FailsToShow, record_line, record_lines, shown};

use command_faults::{OpFault, store_fault};
use itoa::Buffer;
use report::{Form, end_line};
use std::alloc::Global;
use std::io::Write;
use stores::{NodeStore, PAGE, StoreFault};
use streams::write_text;
use units::{NoMemory, Node};
use wire::{Input, encode_input};

/// Each record's place is below this number.
const PLACE_LIMIT: u64 = 9_223_372_036_854_775_808;

/// Adds the digits of the place, and the text after them.
fn push_place(text: &mut Vec<u8>, place: u64, after: &[u8]) -> Result<(), NoMemory>
    ensures { OnOk result (text.new.items ≡ text.old.items ++ decimal place ++ after.now) }
{
    let mut digits = Buffer::new();
    text.extend_from_slice(digits.format(place).as_bytes())?;
    text.extend_from_slice(after)?;
    Ok(())
}

/// Adds the line of the record at that place.
fn push_record(
    alloc: Global,
    text: &mut Vec<u8>,
    form: Form,
    place: u64,
    input: &Input,
) -> Result<(), NoMemory>
    ensures { OnOk result (text.new.items ≡ text.old.items ++ record_line form place input.now) }
{
    let record = encode_input(alloc, input)?;
    match form {
        Form::Lines => {
            push_place(text, place, b" ")?;
            text.extend_from_slice(record.as_slice())?;
            text.extend_from_slice(b"\n")?;
        }
        Form::Json => {
            text.extend_from_slice(b"{\"place\":")?;
            push_place(text, place, b",\"record\":")?;
            text.extend_from_slice(record.as_slice())?;
            text.extend_from_slice(b"}\n")?;
        }
    }
    Ok(())
}

/// The lines of the records, the first of which is at place `first`.
fn lines_of(alloc: Global, form: Form, first: u64, inputs: &[Input]) -> Result<Vec<u8>, NoMemory>
    requires { first + length inputs.now < 2 ^ 64 }
    ensures { IfOk result (λ text. text.items ≡ record_lines form first inputs.now) }
{
    let mut text = Vec::new(alloc);
    let mut place = first;
    for input in inputs {
        push_record(alloc, &mut text, form, place, input)?;
        place += 1;
    }
    Ok(text)
}

/// Reads all records by pages, keeps none, and returns their number.
///
/// Fails as `NodeStore::load` does, and with `NoMemory` where there are `PLACE_LIMIT` records, which no
/// honest store has.
fn count_records<S: NodeStore>(store: &mut S) -> Result<u64, StoreFault>
    ensures ok { IfOk result (λ count. (inputs : List Input) × (length inputs ≡ count)
        × Reads S.NodeStore store.old store.new 0 inputs
        × (S.is_honest store.new → AreRecords (S.content store.old) inputs)) }
    ensures runs { OnOk result (S.must_reopen store.new ≡ false) }
    ensures err { IfErr result (λ fault. Stops S.NodeStore store.old store.new fault) }
    ensures damaged { S.is_honest store.new → IfErr result (λ fault. (p : ℕ) → fault ≡ StoreFault.Damaged p
        → IsDamagedAt p (S.content store.old)) }
{
    let mut count = 0u64;
    // A store that isn't honest may return full pages without end. Each of them counts for 256 records, so the
    // loop ends.
    while count < PLACE_LIMIT {
        let page = store.load_page(count, PAGE)?;
        let few = PAGE.min(page.len() as u64);
        count += few;
        if few < PAGE {
            return Ok(count);
        }
    }
    Err(StoreFault::NoMemory)
}

/// The lines of the page that begins at `place`, of a store that had `count` records when they were counted. Later
/// records are left out.
///
/// Fails as `NodeStore::load_page` does, and with `Damaged` at the first place that no longer has a record; only a
/// store that isn't honest gives this fault.
fn page_text<S: NodeStore>(
    alloc: Global,
    store: &mut S,
    form: Form,
    place: u64,
    count: u64,
) -> Result<Vec<u8>, StoreFault>
    requires { place < count }
    ensures ok { IfOk result (λ text. (page : List Input) × (length page ≡ min page_size (count - place))
        × (text.items ≡ record_lines form place page)
        × Reads S.NodeStore store.old store.new place page) }
    ensures runs { OnOk result (S.must_reopen store.new ≡ false) }
    ensures err { IfErr result (λ fault. Stops S.NodeStore store.old store.new fault) }
    ensures sound { S.is_honest store.new → (all : List Input) → AreRecords (S.content store.old) all
        → count ≤ length all
        → IfErr result (λ fault. (p : ℕ) → fault ≢ StoreFault.Damaged p) }
{
    let page = store.load_page(place, PAGE)?;
    let few = PAGE.min(count - place) as usize;
    if page.len() < few {
        return Err(StoreFault::Damaged(place + page.len() as u64));
    }
    let text = lines_of(alloc, form, place, &page.as_slice()[..few])?;
    Ok(text)
}

/// Writes the text, which comes after `written` bytes, and returns the number of bytes written in all.
///
/// Fails with `Write` where the writer failed: the fault has the number of bytes written, the earlier ones included.
/// Fails with `NoMemory` where the number of all bytes has more than 64 bits; nothing of the text is written.
fn write_more<W: Write>(writer: &mut W, written: u64, text: &[u8]) -> Result<u64, OpFault>
    ensures ok { IfOk result (λ sum. (sum ≡ written + length text.now)
        × Appends (W.contents writer.old) (W.contents writer.new) text.now) }
    ensures err { IfErr result (λ e. FailsWithin e written text.now (W.contents writer.old) (W.contents writer.new)) }
{
    let Some(sum) = written.checked_add(text.len() as u64) else {
        return Err(OpFault::NoMemory);
    };
    match write_text(writer, text) {
        Ok(()) => Ok(sum),
        Err(fault) => Err(OpFault::Write(written + fault.written as u64)),
    }
}

/// Reads the `count` records again, and writes the lines of each page. Returns the number of bytes written.
///
/// Fails with `Store` where a page could not be read again, with `Write` where the writer failed, after the number of
/// bytes in the fault, and with `NoMemory`. Some of the first bytes are then written.
fn write_records<S: NodeStore, W: Write>(
    alloc: Global,
    node: Node,
    store: &mut S,
    writer: &mut W,
    form: Form,
    count: u64,
) -> Result<u64, OpFault>
    requires { S.must_reopen store.old ≡ false }
    ensures ok { IfOk result (λ written. Shows S.NodeStore form store.old store.new (W.contents writer.old)
        (W.contents writer.new) count written) }
    ensures err { IfErr result
        (λ e. FailsToWrite form e node count (S.is_honest store.new) (S.content store.old) (W.contents writer.old)
        (W.contents writer.new)) }
    ensures stops { IfErr result (λ e. (fault : StoreFault) × Stops S.NodeStore store.old store.new fault
        × ((f : StoreFault) → e ≡ OpFault.Store node f → f ≡ fault)) }
{
    let mut place = 0;
    let mut written = 0;
    while place < count {
        let text = match page_text(alloc, store, form, place, count) {
            Ok(text) => text,
            Err(fault) => return Err(store_fault(node, fault)),
        };
        written = write_more(writer, written, text.as_slice())?;
        place += PAGE.min(count - place);
    }
    Ok(written)
}

/// Writes the records of the node's store, each as place, space and text, and then `end`. As JSON, each line is an
/// object: of a record with `place` and `record`, and the last one `{"line":"end"}`.
///
/// It goes over the store twice, and holds one page of records at a time. First it reads all of them: nothing is
/// written of a store with a damaged record. Then it reads them again and writes their lines.
///
/// Fails with `Store` where the store could not be read. Then nothing is written, or the device failed in the second
/// reading, and some of the first bytes are written; a store that isn't honest may also have had fewer records in the
/// second reading. Fails with `Write` where the writer failed, after the number of bytes in the fault. Fails with
/// `NoMemory` for lack of memory, and where there are more records or bytes than 64 bits can count: nothing is written,
/// or some of the first bytes.
pub fn show<S: NodeStore, W: Write>(
    alloc: Global,
    node: Node,
    store: &mut S,
    writer: &mut W,
    form: Form,
) -> Result<(), OpFault>
    ensures ok { OnOk result ((inputs : List Input) × (S.is_honest store.new → AreRecords (S.content store.old) inputs)
        × Appends (W.contents writer.old) (W.contents writer.new) (shown form inputs)) }
    ensures err { IfErr result
        (λ e. FailsToShow form e node (S.is_honest store.new) (S.content store.old) (W.contents writer.old)
        (W.contents writer.new)) }
    ensures reopen { IsTrue (S.must_reopen store.old) → (result ≡ Err (OpFault.Store node StoreFault.Reopen))
        × (store.new ≡ store.old) }
    ensures named { S.must_reopen store.old ≡ false → IfErr result (λ e. (f : StoreFault) → e ≡ OpFault.Store node f
        → IsReadFault f) }
    ensures cause { IfErr result (λ e. (f : StoreFault) → e ≡ OpFault.Store node f → IsTrue (is_device_fault f)
        → S.faults store.new ≢ S.faults store.old) }
    ensures honest { S.is_honest store.new → S.is_honest store.old }
    ensures kept { S.is_honest store.new → S.must_reopen store.new ≡ false → S.content store.new ≡ S.content store.old }
{
    let count = match count_records(store) {
        Ok(count) => count,
        Err(fault) => return Err(store_fault(node, fault)),
    };
    let written = write_records(alloc, node, store, writer, form, count)?;
    write_more(writer, written, end_line(form))?;
    Ok(())
}
