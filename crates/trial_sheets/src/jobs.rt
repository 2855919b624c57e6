// The trial sheets as jobs, bare or with a reserve and pairs, most of them drawn.
ghost use Rattle.std.specs.Prelude.{◌<◌, ◌≤◌};

use crate::draws::Draws;
use crate::flows::{LABELS, Mesh, Row, draw_row, draw_tight_row, fixed, flow};
use crate::lines::Table;
use chip::Ticks;
use job::Job;
use sheet::{Draft, Letter, Pair};

// Sheets up to this number have drawn layers, even if their flows are fixed.
const FIXED_FLOWS: u32 = 8;

// Sheets up to this number, after the fixed ones, are drawn with room to spare; the later ones are tight.
const MIXED: u32 = 240;

// A draft of up to seven flows in a row; none if one of them cannot be.
fn draft_of<I: Iterator<Item = Row> + Drop>(mut rows: I) -> Option<Draft>
    requires { I.can_next rows }
{
    let mut draft = Draft::open(flow(1, rows.next()?)?);
    for (i, row) in (2..=7).zip(rows) {
        let _ = draft.add(flow(i, row)?);
    }
    Some(draft)
}

// Most of these sheets use 3 columns and 2 rows, so that many flows share; every fifth uses the whole mesh.
fn drawn_draft(draws: &mut Draws, number: u32) -> Option<Draft> {
    let (columns, rows) = if number % 5 == 0 { (6, 6) } else { (3, 2) };
    let mesh = Mesh { columns, rows };
    let count = 1 + draws.draw(7);
    draft_of((0..count).map(|_| draw_row(draws, mesh)))
}

// The draft of a sheet of a table.
fn sheet_draft<T: Table>(draws: &mut Draws, number: u32) -> Option<Draft> {
    if number <= T::FIXED {
        draft_of(fixed(number).iter().copied())
    } else if number <= MIXED {
        drawn_draft(draws, number)
    } else {
        draft_of((0..7).map(|_| draw_tight_row(draws)))
    }
}

// A pair by flow numbers.
fn add_pair(job: &mut Job, first: u8, later: u8) {
    let _ = job.add_pair(Pair {
        first: LABELS + u16::from(first),
        later: LABELS + u16::from(later),
    });
}

// One or two pairs of the first n flows.
fn draw_pairs(draws: &mut Draws, job: &mut Job, n: u32)
    requires { (2 ≤ n) × (n ≤ 7) }
{
    let count = 1 + draws.draw(2);
    for _ in 0..count {
        let first = 1 + draws.draw(n);
        let mut later = 1 + draws.draw(n);
        if later == first {
            later = later % n + 1;
        }
        add_pair(job, first as u8, later as u8);
    }
}

fn draw_layers(draws: &mut Draws, job: &mut Job) {
    let n = job.sheet().count().min(7) as u32;
    job.set_reserve(Ticks::new(draws.draw(5)).ok());
    if n >= 2 {
        draw_pairs(draws, job, n);
    }
}

// A reserve alone on sheet 9, one pair alone on sheets 10 and 11.
fn fix_layers(job: &mut Job, number: u32) {
    match number {
        9 => job.set_reserve(Ticks::new(1).ok()),
        10 => add_pair(job, 1, 3),
        _ => add_pair(job, 1, 2),
    }
}

// The job of a sheet with a letter, whose draws come from `draws`.
fn draw_job<T: Table>(draws: &mut Draws, number: u32, letter: Letter) -> Option<Job> {
    Some(Job::new(letter, sheet_draft::<T>(draws, number)?.close()))
}

// The job of a sheet with a letter, and with no reserve and no pairs.
pub(crate) fn bare_job<T: Table>(number: u32, letter: Letter) -> Option<Job> {
    draw_job::<T>(&mut Draws::new(number), number, letter)
}

// The job of a sheet with a letter, and with its reserve and pairs.
pub(crate) fn layered_job<T: Table>(number: u32, letter: Letter) -> Option<Job> {
    let mut draws = Draws::new(number);
    let mut job = draw_job::<T>(&mut draws, number, letter)?;
    if FIXED_FLOWS < number && number <= T::FIXED {
        fix_layers(&mut job, number);
    } else {
        draw_layers(&mut draws, &mut job);
    }
    Some(job)
}
