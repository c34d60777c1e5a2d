// What hosts link: each function of `ordc` under its name of C, with the same contract: the C interface.
#![tactic(auto)]

ghost use Rattle.ordc.specs.CurveText.{CurvesLengthCalled, ReadCurvesCalled, WriteCurvesCalled};
ghost use Rattle.ordc.specs.Page.{WritePageCalled};
ghost use Rattle.ordc.specs.Price.{PriceCalled};
ghost use Rattle.ordc.specs.Record.{BookCalled, SettleCalled};
ghost use Rattle.ordc.specs.Snapshot.{ReadSnapshotCalled, SnapshotLengthCalled, WriteSnapshotCalled};

use ordc::reply::Reply;

// An hour's text booked on a lent record, which a refusal leaves as it was.
#[unsafe(no_mangle)]
pub extern "C" fn ordc_book(history: &mut [i64; 72], text: &[u8]) -> Reply
    ensures { BookCalled history.old text.now history.new result }
{
    ordc::book::ordc_book(history, text)
}

// The curves of a lent record, with VOLL in cents per MWh and the minimum contingency level X in kW, laid into a lent curve set, which a refusal leaves as it was.
#[unsafe(no_mangle)]
pub extern "C" fn ordc_settle(
    history: &[i64; 72],
    voll: i64,
    floor: i64,
    curves: &mut [i64; 50],
) -> Reply
    ensures { SettleCalled history.now voll floor curves.old curves.new result }
{
    ordc::settle::ordc_settle(history, voll, floor, curves)
}

// A curve text read into a lent curve set, which a refusal leaves as it was.
#[unsafe(no_mangle)]
pub extern "C" fn ordc_read_curves(text: &[u8], curves: &mut [i64; 50]) -> Reply
    ensures { ReadCurvesCalled text.now curves.old curves.new result }
{
    ordc::read_curves::ordc_read_curves(text, curves)
}

// The length of a lent curve set's text, before it is written; a refusal leaves the lent length as it was.
#[unsafe(no_mangle)]
pub extern "C" fn ordc_curves_length(curves: &[i64; 50], length: &mut usize) -> Reply
    ensures { CurvesLengthCalled curves.now length.old length.new result }
{
    ordc::curves_length::ordc_curves_length(curves, length)
}

// A lent curve set's text written into a lent buffer, and its length; a refusal leaves the buffer and the length as they were.
#[unsafe(no_mangle)]
pub extern "C" fn ordc_write_curves(
    curves: &[i64; 50],
    buffer: &mut [u8],
    written: &mut usize,
) -> Reply
    ensures { WriteCurvesCalled curves.now buffer.old written.old buffer.new written.new result }
{
    ordc::write_curves::ordc_write_curves(curves, buffer, written)
}

// A lent curve set's page written into a lent buffer, which a refusal leaves as it was.
#[unsafe(no_mangle)]
pub extern "C" fn ordc_write_page(curves: &[i64; 50], buffer: &mut [u8]) -> Reply
    ensures { WritePageCalled curves.now buffer.old buffer.new result }
{
    ordc::write_page::ordc_write_page(curves, buffer)
}

// A snapshot's text priced on a lent curve set; a refusal leaves the lent answer as it was.
#[unsafe(no_mangle)]
pub extern "C" fn ordc_price(curves: &[i64; 50], text: &[u8], answer: &mut [i64; 6]) -> Reply
    ensures { PriceCalled curves.now text.now answer.old answer.new result }
{
    ordc::price::ordc_price(curves, text, answer)
}

// A snapshot's text read into a lent header and lent rows, which a refusal leaves as they were.
#[unsafe(no_mangle)]
pub extern "C" fn ordc_read_snapshot(
    text: &[u8],
    header: &mut [i64; 8],
    ids: &mut [u8],
    numbers: &mut [i64],
) -> Reply
    ensures { ReadSnapshotCalled text.now header.old ids.old numbers.old header.new ids.new numbers.new result }
{
    ordc::read_snapshot::ordc_read_snapshot(text, header, ids, numbers)
}

// The length of the text of lent values, before it is written; a refusal leaves the lent length as it was.
#[unsafe(no_mangle)]
pub extern "C" fn ordc_snapshot_length(
    header: &[i64; 8],
    ids: &[u8],
    numbers: &[i64],
    length: &mut usize,
) -> Reply
    ensures { SnapshotLengthCalled header.now ids.now numbers.now length.old length.new result }
{
    ordc::snapshot_length::ordc_snapshot_length(header, ids, numbers, length)
}

// The text of lent values written into a lent buffer, and its length; a refusal leaves the buffer and the length as they were.
#[unsafe(no_mangle)]
pub extern "C" fn ordc_write_snapshot(
    header: &[i64; 8],
    ids: &[u8],
    numbers: &[i64],
    buffer: &mut [u8],
    written: &mut usize,
) -> Reply
    ensures { WriteSnapshotCalled header.now ids.now numbers.now buffer.old written.old buffer.new written.new result }
{
    ordc::write_snapshot::ordc_write_snapshot(header, ids, numbers, buffer, written)
}
