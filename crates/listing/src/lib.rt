// The listing: one row per process, written into a table of rows that is lent.
#![tactic(auto)]

ghost use Rattle.kernel.specs.Judged.{Judged};
ghost use Rattle.verdicts.specs.Told.{told};
ghost use Rattle.listing.specs.Listed.{Lists};
ghost use Rattle.listing.specs.Refusals.{refusals};
ghost use Rattle.listing.specs.Sheets.{Sheets};

use kernel::{Answer, Kernel};
use rows::Row;
use verdicts::Refusal;

/// What is listed of a state, by value: the answer, and the rows; none where the listing is refused.
#[derive(Clone, Copy)]
pub struct Sheet {
    pub answer: Answer,
    pub rows: Option<[Row; sizes::PROCESSES]>,
}

// The table must have a row for each process.
fn judge(k: Kernel, rows: usize) -> Result<(), Refusal>
    ensures { Judged (refusals rows) k (told result) }
{
    verdicts::on_listing(k.is_sound(), rows)
}

/// The rows of the state in an area, for a table of so many rows.
pub fn sheet_of(state: &[u8], room: usize) -> Sheet
    ensures { Sheets state.now room result }
{
    let k = image::read(state);
    let v = judge(k, room);
    let answer = k.answer_found(v);
    let rows = match v {
        Ok(()) => Some(rows::table_of(k).rows),
        Err(_) => None,
    };
    Sheet { answer, rows }
}

/// The form and the name are C's here too, by which docs and tests know the call: csengadrul has an own of that name.
/// Row i of the table becomes the row of process i; later rows stay, and all do where the listing is refused.
#[unsafe(no_mangle)]
pub extern "C" fn csengadrul_listing(state: &[u8], rows: &mut [Row]) -> Answer
    ensures { Lists rows.old rows.new state.now result }
{
    let sheet = sheet_of(state, rows.len());
    if let Some(table) = sheet.rows {
        rows[..sizes::PROCESSES].copy_from_slice(&table);
    }
    sheet.answer
}
