// A row, what is reported of a segment that closed: its numbers, where they are written, and what it counts as talk. C lends room for numbers, not for rows.

#![tactic(auto)]

ghost use Rattle.std.specs.Prelude.{◌≡◌, ◌+◌, ◌≤◌, length};
ghost use Rattle.std.proofs.lemmas.List.Edits.{sets};
ghost use Rattle.vad_row.specs.Rows.{fields_of, flat, reported, talk_in, talk_of};

use lists::put_numbers;

// How many numbers a row has: a lent slice holds as many rows as its length divided by this.
pub const ROW_FIELDS: usize = 7;

// `mean_energy` is the f32's bits.
#[derive(Clone, Copy)]
pub struct Row {
    pub start_sample: u64,
    pub end_sample: u64,
    pub start_time: u64,
    pub end_time: u64,
    pub score_total: u64,
    pub loud_frames: u64,
    pub mean_energy: u64,
}

#[tactic(auto, unfolding(crate::specs::Rows::reported))]
pub fn rows_in(report: Option<Row>) -> u64
    ensures { result ≡ length (reported report) }
{
    report.is_some() as u64
}

#[tactic(auto, unfolding(crate::specs::Rows::reported, crate::specs::Rows::talk_of))]
pub fn talk_in(report: Option<Row>) -> u64
    ensures { result ≡ talk_of (reported report) }
{
    report.map_or(0, talk_of)
}

// The one place where talk is counted.
#[tactic(auto, unfolding(crate::specs::Rows::talk_in))]
fn talk_of(row: Row) -> u64
    ensures { result ≡ talk_in row }
{
    row.end_sample.saturating_sub(row.start_sample)
}

// The report's row, if there is one, from a place on; answers the place after it.
pub fn put_report(rows: &mut [u64], at: usize, report: Option<Row>) -> usize
    requires { at + length (flat (reported report)) ≤ length rows.old }
    ensures value { result ≡ at + length (flat (reported report)) }
    ensures rows_left { rows.new ≡ sets rows.old at (flat (reported report)) }
{
    match report {
        None => at,
        Some(row) => put_row(rows, at, row),
    }
}

fn put_row(rows: &mut [u64], at: usize, row: Row) -> usize
    requires { at + length (fields_of row) ≤ length rows.old }
    ensures value { result ≡ at + length (fields_of row) }
    ensures rows_left { rows.new ≡ sets rows.old at (fields_of row) }
{
    put_numbers(rows, at, &numbers_of(row));
    at + ROW_FIELDS
}

// In the order of `fields`.
#[tactic(auto, unfolding(crate::specs::Rows::fields_of))]
fn numbers_of(row: Row) -> [u64; ROW_FIELDS]
    ensures { result ≡ fields_of row }
{
    [
        row.start_sample,
        row.end_sample,
        row.start_time,
        row.end_time,
        row.score_total,
        row.loud_frames,
        row.mean_energy,
    ]
}
