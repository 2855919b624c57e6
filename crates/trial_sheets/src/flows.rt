// The flows of the trial sheets, fixed ones and drawn ones.
ghost use Rattle.std.specs.Prelude.{◌<◌, ◌≤◌};

use crate::draws::Draws;
use chip::{Flow, FlowParameters, Router};

// Flow i of a sheet has label 100 + i.
pub(crate) const LABELS: u16 = 100;

// What a sheet says of a flow: period, deadline, jitter and latency; source column and row, destination column and row.
pub(crate) type Row = ([u32; 4], [u8; 4]);

// Flow i of a sheet, if there can be such a flow.
pub(crate) fn flow(i: u8, row: Row) -> Option<Flow> {
    let (times, route) = row;
    Flow::new(FlowParameters {
        label: LABELS + u16::from(i),
        period: times[0],
        deadline: times[1],
        jitter: times[2],
        latency: times[3],
        source: Router {
            column: route[0],
            row: route[1],
        },
        destination: Router {
            column: route[2],
            row: route[3],
        },
    })
    .ok()
}

// The three flows on which the rules differ, in the order of the worked figures.
static WORKED: [Row; 3] = [
    ([8, 8, 0, 4], [0, 0, 1, 0]),
    ([10, 10, 0, 4], [0, 0, 2, 0]),
    ([13, 13, 0, 6], [1, 0, 2, 0]),
];

// The same with the first two exchanged.
static EXCHANGED: [Row; 3] = [
    ([10, 10, 0, 4], [0, 0, 2, 0]),
    ([8, 8, 0, 4], [0, 0, 1, 0]),
    ([13, 13, 0, 6], [1, 0, 2, 0]),
];

// Three flows, each below one that sends 2 ticks every 8.
static BELOW_ONE: [Row; 2] = [
    ([8, 8, 0, 2], [0, 0, 1, 0]),
    ([100, 100, 0, 9], [0, 0, 1, 0]),
];

static BELOW_ONE_SOON: [Row; 2] = [
    ([8, 8, 0, 2], [0, 0, 1, 0]),
    ([100, 12, 0, 9], [0, 0, 1, 0]),
];

static BELOW_ONE_LONG: [Row; 2] = [
    ([8, 8, 0, 2], [0, 0, 1, 0]),
    ([100, 100, 0, 13], [0, 0, 1, 0]),
];

// Long times, north and east.
static FAR: [Row; 3] = [
    ([1000000, 1000000, 999999, 300000], [0, 0, 5, 5]),
    ([999999, 999998, 999998, 250000], [0, 1, 5, 5]),
    ([1000000, 1000000, 0, 1], [5, 0, 5, 5]),
];

// Long times, south and west, and a short flow apart.
static BACK: [Row; 4] = [
    ([1000000, 900000, 999999, 100000], [5, 5, 0, 0]),
    ([500000, 500000, 499999, 50000], [5, 4, 0, 0]),
    ([1000000, 1000000, 1, 600000], [0, 5, 0, 0]),
    ([3, 3, 0, 1], [1, 1, 2, 2]),
];

// Four flows, each of which shares with the next.
static CHAIN: [Row; 4] = [
    ([6, 6, 0, 1], [0, 0, 1, 0]),
    ([9, 9, 0, 3], [0, 0, 3, 0]),
    ([20, 16, 3, 4], [2, 0, 5, 0]),
    ([40, 40, 0, 5], [4, 0, 5, 0]),
];

// The flows of a fixed sheet.
pub(crate) fn fixed(number: u32) -> &'static [Row] {
    match number {
        2 => &EXCHANGED,
        3 => &BELOW_ONE,
        4 => &BELOW_ONE_SOON,
        5 => &BELOW_ONE_LONG,
        6 => &FAR,
        7 => &BACK,
        8 => &CHAIN,
        _ => &WORKED,
    }
}

// The part of the chip's mesh that a drawn sheet uses.
#[derive(Clone, Copy)]
pub(crate) struct Mesh {
    pub(crate) columns: u32,
    pub(crate) rows: u32,
    ghost within: { (0 < columns) × (columns ≤ 6) × (0 < rows) × (rows ≤ 6) },
}

// Source and destination on a mesh.
fn draw_route(draws: &mut Draws, mesh: Mesh) -> [u8; 4] {
    let column = draws.draw(mesh.columns);
    let row = draws.draw(mesh.rows);
    let mut to_column = draws.draw(mesh.columns);
    let to_row = draws.draw(mesh.rows);
    if column == to_column && row == to_row {
        to_column = (to_column + 1) % mesh.columns;
    }
    [column as u8, row as u8, to_column as u8, to_row as u8]
}

// A flow of a drawn sheet on a mesh.
pub(crate) fn draw_row(draws: &mut Draws, mesh: Mesh) -> Row {
    let period = 5 + draws.draw(36);
    let deadline = period - draws.draw(period / 4 + 1);
    let latency = 1 + draws.draw(deadline / 4 + 1);
    let jitter = if draws.draw(2) == 1 {
        draws.draw(period)
    } else {
        0
    };
    ([period, deadline, jitter, latency], draw_route(draws, mesh))
}

// A flow of a sheet that nearly fills the links of row 0.
pub(crate) fn draw_tight_row(draws: &mut Draws) -> Row {
    let period = 20 + draws.draw(21);
    let deadline = period - draws.draw(period / 8 + 1);
    let latency = 1 + deadline / 8 + draws.draw(deadline / 6 + 1);
    let jitter = draws.draw(3);
    let column = draws.draw(5);
    let to_column = (column + 1 + draws.draw(3)).min(5);
    (
        [period, deadline, jitter, latency],
        [column as u8, 0, to_column as u8, 0],
    )
}
