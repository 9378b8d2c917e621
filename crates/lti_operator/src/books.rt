// The book of what a machine accepted.
ghost use Rattle.std.specs.Prelude.{IfOk};
ghost use Rattle.gradebook.specs.Book.{Holds};

use gradebook::Gradebook;
use lti_machine::Solo;
use lti_outside::NoMemory;
use std::alloc::Global;

/// The book of all that the machine accepted: its entries, applied in order.
pub fn book_of(alloc: Global, solo: &Solo) -> Result<Gradebook, NoMemory>
    ensures { IfOk result (λ book. Holds book solo.now) }
{
    let mut book = Gradebook::new(alloc)?;
    for place in 0..solo.len() {
        let Some(entry) = solo.entry(place) else {
            unreachable!()
        };
        book.prepare(entry)?;
        book.apply(entry.copy()?);
    }
    Ok(book)
}
