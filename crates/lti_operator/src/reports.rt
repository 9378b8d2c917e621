// The report of grades.
ghost use Rattle.std.specs.Prelude.{◌≡◌, ◌≤◌, ◌++◌, List, OnOk, IfOk, string_bytes};
ghost use Rattle.lti_machine.specs.declared.entry.Entry.{Entry};
ghost use Rattle.gradebook.specs.Book.{Holds};
ghost use Rattle.lti_machine.specs.Rows.{rows_of};
ghost use Rattle.lti_operator.specs.Report.{IsTold, IsReported, Lists, row_line, grade_text, total_line};

use gradebook::{Gradebook, Row};
use lti_machine::Standing;
use lti_outside::{NoMemory, Sink, WriteFault, give_all};
use oauth_text::escape_into;
use score_decimal::Scale;
use std::alloc::{AllocError, Global};
use std::fmt::Write;

/// Why a report wasn't written.
#[derive(Clone, Copy, Debug, PartialEq, Eq)]
pub enum ReportFault {
    /// The sink's write faults rose, and a proper front of the report was written.
    WriteFault,
    /// There was no memory for the report's text, and nothing was written.
    NoMemory,
}

// The number of grades, and the sum of their points.
#[derive(Drop)]
struct Total {
    graded: u64,
    points: u128,
}

// Appends how an id stands: its score and its points, or `-` twice. Answers the points, which are 0 without a grade.
fn push_grade(
    out: &mut String,
    alloc: Global,
    standing: Standing,
    scale: &Scale,
    most: u32,
) -> Result<u32, NoMemory>
    requires least { 1 ≤ most }
    requires greatest { most ≤ 1000000 }
    ensures told { IfOk result (IsTold most standing) }
    ensures text { IfOk result (λ points. string_bytes out.new ≡ string_bytes out.old ++ grade_text standing points) }
{
    let Standing::Scored(score) = standing else {
        out.push_str("-\t-")?;
        return Ok(0);
    };
    let points = scale.points(score, most);
    out.push_str(score.print(alloc)?.as_str())?;
    out.push_str("\t")?;
    write!(out, "{points}")?;
    Ok(points)
}

// Appends the line of an issued id. Answers its points, which are 0 without a grade.
fn push_row(
    out: &mut String,
    alloc: Global,
    row: &Row<'_>,
    scale: &Scale,
    most: u32,
) -> Result<u32, NoMemory>
    requires least { 1 ≤ most }
    requires greatest { most ≤ 1000000 }
    ensures told { IfOk result (IsTold most row.now.standing) }
    ensures text { IfOk result (λ points. string_bytes out.new ≡ string_bytes out.old ++ row_line (record { key = row.now.key.now; id = row.now.id.now; standing = row.now.standing }) points) }
{
    escape_into(out, row.key)?;
    out.push_str("\t")?;
    escape_into(out, row.id)?;
    out.push_str("\t")?;
    let points = push_grade(out, alloc, row.standing, scale, most)?;
    out.push_str("\n")?;
    Ok(points)
}

// Appends the line of the total.
fn push_total(out: &mut String, total: &Total) -> Result<(), AllocError>
    ensures { OnOk result (string_bytes out.new ≡ string_bytes out.old ++ total_line total.now.graded total.now.points) }
{
    let Total { graded, points } = total;
    write!(out, "total\t{graded}\t{points}\n")
}

// Appends the lines of all issued ids. Answers the number of grades and the sum of their points.
fn push_rows(
    out: &mut String,
    alloc: Global,
    book: &Gradebook,
    scale: &Scale,
    most: u32,
) -> Result<Total, NoMemory>
    requires least { 1 ≤ most }
    requires greatest { most ≤ 1000000 }
    ensures { IfOk result (λ total. (entries : List Entry) → Holds book.now entries → Lists most (rows_of entries) (string_bytes out.old) (string_bytes out.new) total.graded total.points) }
{
    let mut graded: u64 = 0;
    let mut points: u128 = 0;
    let mut place = 0;
    let count = book.rows();
    while place < count {
        let Some(row) = book.row(place) else {
            return Ok(Total { graded, points });
        };
        let more = push_row(out, alloc, &row, scale, most)?;
        if let Standing::Scored(_) = row.standing {
            graded += 1;
        }
        points += u128::from(more);
        place += 1;
    }
    Ok(Total { graded, points })
}

/// Writes the report of the grades: for each issued id, in the order of issue, its key, the id, its score and its points
/// out of `max` by the scale, parted by tabs, and behind them the number of grades and the sum of their points. Key and id
/// are escaped (RFC 5849 section 3.6); an id without a grade has `-` twice.
///
/// `max` is from 1 to 1,000,000 points. The text is built in memory and then written at once.
pub fn report<O: Sink>(
    alloc: Global,
    book: &Gradebook,
    scale: &Scale,
    max: u32,
    sink: &mut O,
) -> Result<(), ReportFault>
    requires least { 1 ≤ max }
    requires greatest { max ≤ 1000000 }
    ensures { (entries : List Entry) → Holds book.now entries → IsReported max (rows_of entries) (O.traffic sink.old) (O.traffic sink.new) result }
{
    let mut text = String::new(alloc);
    let Ok(total) = push_rows(&mut text, alloc, book, scale, max) else {
        return Err(ReportFault::NoMemory);
    };
    if push_total(&mut text, &total).is_err() {
        return Err(ReportFault::NoMemory);
    }
    match give_all(sink, text.as_bytes()) {
        Ok(()) => Ok(()),
        Err(_) => Err(ReportFault::WriteFault),
    }
}
