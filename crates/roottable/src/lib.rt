// Document 01, "The GetKey decision": the root table, rows of 32 bytes, and the choice of a row, in one pass.
#![tactic(auto)]

ghost use Rattle.std.specs.Prelude.{◌≡◌, true, ◌<◌};
ghost use Rattle.roottable.specs.Rows.{row_at, row_count, suitable, rank, table_wrong};
ghost use Rattle.roottable.specs.Selection.{table_number, chosen_row, found_number, found_any, found_row};
ghost use Rattle.roottable.specs.Passing.{better, step_of};

use gkid::FileTime;
use refusal::Refusal;
use rootid::RootId;

// A row is 32 bytes, and a table has at most 64.
pub const ROW_SIZE: usize = 32;

pub const MOST_ROWS: usize = 64;

// A row of the root table.
#[derive(Clone, Copy, Debug, PartialEq, Eq)]
struct Row {
    id: RootId,
    starts: FileTime,
    created: FileTime,
}

// Which rows suit a request: those of a root; any, by use-start; those in use at a time, by create time.
#[derive(Clone, Copy, Debug, PartialEq, Eq)]
pub enum Wanted {
    Root(RootId),
    Newest,
    InUse(FileTime),
}

// The best of the rows looked at: its place, and its rank.
#[derive(Clone, Copy, Debug, PartialEq, Eq)]
struct Best {
    row: usize,
    rank: u64,
}

// 20: no multiple of 32, or over 64 rows.
#[tactic(auto, unfolding(crate::specs::Rows::table_wrong))]
fn is_table_wrong(len: usize) -> bool
    ensures { result ≡ table_wrong len }
{
    len % ROW_SIZE != 0 || len / ROW_SIZE > MOST_ROWS
}

// The row that is wanted, by its place, or none, in one pass over the table; 20 before it.
pub fn choose(wanted: Wanted, table: &[u8]) -> Result<Option<usize>, Refusal>
    ensures answer { result ≡ chosen_row wanted table.now }
    ensures number { found_number result ≡ table_number table.now }
    ensures row { found_any result ≡ true → found_row result < row_count table.now }
{
    if is_table_wrong(table.len()) {
        return Err(Refusal::TableLength);
    }
    let mut best = None;
    for (k, bytes) in table.chunks_exact(ROW_SIZE).enumerate() {
        best = step(best, wanted, Row::read(bytes), k);
    }
    Ok(best.map(|best| best.row))
}

// One row more.
#[tactic(auto, unfolding(crate::specs::Passing::step_of))]
fn step(best: Option<Best>, wanted: Wanted, row: Row, k: usize) -> Option<Best>
    ensures { result ≡ step_of best (suitable wanted row) k (rank wanted row) }
{
    if wanted.suits(row) {
        return better(
            best,
            Best {
                row: k,
                rank: wanted.rank_of(row),
            },
        );
    }
    best
}

// A row that counts: it is better where its rank is higher than that of the best before it.
#[tactic(auto, unfolding(crate::specs::Passing::better))]
fn better(best: Option<Best>, next: Best) -> Option<Best>
    ensures { result ≡ better best next.row next.rank }
{
    match best {
        Some(best) if next.rank <= best.rank => Some(best),
        _ => Some(next),
    }
}

impl Row {
    // The row in its own 32 bytes.
    #[tactic(auto, unfolding(crate::specs::Rows::row_at))]
    fn read(bytes: &[u8]) -> Row
        ensures { result ≡ row_at bytes.now 0 }
    {
        Row {
            id: RootId::at(bytes, 0),
            starts: FileTime(wire::be64_at(bytes, 16)),
            created: FileTime(wire::be64_at(bytes, 24)),
        }
    }
}

impl Wanted {
    // Whether a row counts.
    #[tactic(auto, unfolding(crate::specs::Rows::suitable))]
    fn suits(self, row: Row) -> bool
        ensures { result ≡ suitable self row }
    {
        match self {
            Wanted::Root(wanted) => row.id.is(wanted),
            Wanted::Newest => true,
            Wanted::InUse(start) => row.starts <= start,
        }
    }

    // Which of the rows that count comes first: the highest, and of equals the first in the table.
    #[tactic(auto, unfolding(crate::specs::Rows::rank))]
    fn rank_of(self, row: Row) -> u64
        ensures { result ≡ rank self row }
    {
        match self {
            Wanted::Root(_) => 0,
            Wanted::Newest => row.starts.0,
            Wanted::InUse(_) => row.created.0,
        }
    }
}
