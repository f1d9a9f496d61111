// The latest date of records in lent memory: a day count, or 0 where they have none, which is what records and entries keep for
// who reads them in C.
ghost use Rattle.std.specs.Prelude.{◌≡◌};
ghost use Rattle.grammar.specs.Latest.{date_of};
ghost use Rattle.reading.specs.Rows.{latest_between};

use crate::records::{DF, EQUITY_SPOT, Node, PAYS, RATE_INDEX, SPOT};

// The date of a record, of its dates the later, by its kind.
fn date_of(kind: u32, f1: u32, f3: u32, f4: u32) -> u32
    ensures { result ≡ date_of kind f1 f3 f4 }
{
    match kind {
        SPOT | EQUITY_SPOT => f3,
        DF | PAYS => f1,
        RATE_INDEX => f3.max(f4),
        _ => 0,
    }
}

// The latest date of the records from number n up to, not including, number m; 0 where the memory has not so many.
pub fn latest_of(records: &[u32], n: u32, m: u32) -> u32
    ensures { result ≡ latest_between records.now n m }
{
    if records.len() / Node::WIDTH < m as usize {
        return 0;
    }
    let mut latest: u32 = 0;
    for i in n..m {
        let at = Node::WIDTH * i as usize;
        let date = date_of(
            records[at],
            records[at + 3],
            records[at + 5],
            records[at + 6],
        );
        latest = latest.max(date);
    }
    latest
}
