// Booking an hour on a record.
ghost use Rattle.ordc.specs.Record.{BookCalled};

use crate::layout::{record_of, record_values};
use crate::reply::{ACCEPTED, Reply, refused};
use curve_booking::book;

// An hour's text booked on a lent record, which a refusal leaves as it was.
pub fn ordc_book(history: &mut [i64; 72], text: &[u8]) -> Reply
    ensures { BookCalled history.old text.now history.new result }
{
    match book(record_of(history), text) {
        Ok(booked) => {
            *history = record_values(booked);
            ACCEPTED
        }
        Err(found) => refused(found),
    }
}
