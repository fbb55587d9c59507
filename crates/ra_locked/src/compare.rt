//! Compares receipts with a history.
ghost use Rattle.std.specs.Prelude.{◌≡◌, ◌≢◌, ◌+◌, ◌<◌, ◌^◌, length, map, OnOk, IfErr, Some, slice_get, MatchBool, replicate};
ghost use Rattle.ra_locked.specs.declared.fault.EndFault.TheVariants as faults;
ghost use Rattle.ra_locked.specs.EndFaults.{IsOfBook, IsOfBooks};
ghost use Rattle.ra_locked.specs.PlaceMarks.{Marks, MarksAll, marked};

use crate::fault::EndFault;
use crate::receipt::Receipt;
use ra_registry::Past;
use std::alloc::Global;

/// The entry at a place.
fn entry_at(history: &[Past], place: u64) -> Option<Past>
    ensures { result ≡ slice_get history.now place }
{
    match history.get(place as usize) {
        Some(past) => Some(past.same()),
        None => None,
    }
}

/// Whether there is this entry.
fn is_entry(entry: &Option<Past>, past: &Past) -> bool
    ensures { MatchBool result (entry.now ≡ Some past.now) (entry.now ≢ Some past.now) }
{
    match entry {
        Some(entry) => entry.is_same(past),
        None => false,
    }
}

fn mismatch(handle: u64, receipt: &Receipt, entry: Option<Past>) -> EndFault
    ensures { result ≡ faults.Mismatch handle receipt.now entry }
{
    EndFault::Mismatch {
        handle,
        receipt: receipt.same(),
        entry,
    }
}

/// Compares the receipts of one book, and marks their places.
fn compare_book(
    history: &[Past],
    marks: &mut [u64],
    book: &[Receipt],
    number: u64,
) -> Result<(), EndFault>
    requires long { length marks.old ≡ length history.now }
    requires number { number < 2 ^ 62 }
    ensures marks { OnOk result (Marks history.now number marks.old 0 book.now) }
    ensures marked { OnOk result (marks.new ≡ marked number marks.old book.now) }
    ensures fault { IfErr result (IsOfBook history.now number) }
{
    let mut next = 0u64;
    for receipt in book {
        let entry = entry_at(history, receipt.place);
        if !is_entry(&entry, &receipt.past) {
            return Err(mismatch(number, receipt, entry));
        }
        let at = receipt.place as usize;
        if marks[at] != 0 {
            return Err(EndFault::Twice {
                place: receipt.place,
                one: marks[at] - 1,
                other: number,
            });
        }
        if receipt.place < next {
            return Err(EndFault::Twice {
                place: receipt.place,
                one: number,
                other: number,
            });
        }
        marks[at] = number + 1;
        next = receipt.place + 1;
    }
    Ok(())
}

/// Compares the receipts of all books with a history.
pub(crate) fn compare_books(
    alloc: Global,
    history: &[Past],
    books: &[Vec<Receipt>],
) -> Result<(), EndFault>
    requires { length books.now < 2 ^ 62 }
    ensures marks { OnOk result (MarksAll history.now 0 (replicate (length history.now) 0) (map (λ b. b.items) books.now)) }
    ensures fault { IfErr result (IsOfBooks history.now (length books.now)) }
{
    let Ok(mut marks) = Vec::from_elem(alloc, 0u64, history.len()) else {
        return Err(EndFault::NoMemory);
    };
    for (number, book) in books.iter().enumerate() {
        compare_book(
            history,
            marks.as_mut_slice(),
            book.as_slice(),
            number as u64,
        )?;
    }
    Ok(())
}
